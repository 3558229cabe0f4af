//! Devices over slices, which count their calls. They take no memory.
ghost use Rattle.std.specs.Prelude.{◌≡◌, ◌≤◌, Some, false, length, take};

use lines_engine::device::{DeviceFault, Sink, Source};

/// The behavior of a device.
#[derive(Clone, Copy)]
pub struct Habits {
    /// Maximum number of bytes that one call moves.
    pub step: usize,
    /// Number of the call that fails, from 0. No other call fails, not even a later one.
    pub fails_at: u64,
}

impl Habits {
    /// Moves all bytes that it can in one call, and never fails.
    pub const GOOD: Habits = Habits {
        step: usize::MAX,
        fails_at: u64::MAX,
    };

    /// Moves at most `step` bytes in one call, and never fails.
    pub fn in_steps(step: usize) -> Habits {
        Habits {
            step,
            fails_at: u64::MAX,
        }
    }

    /// Moves one byte in one call, and the call with this number fails.
    pub fn failing_at(number: u64) -> Habits {
        Habits {
            step: 1,
            fails_at: number,
        }
    }
}

/// A source that gives the bytes of a slice.
#[derive(Drop)]
pub struct SliceSource<'a> {
    rest: &'a [u8],
    habits: Habits,
    calls: u64,
    failed: bool,
}

impl<'a> SliceSource<'a> {
    pub fn new(bytes: &'a [u8], habits: Habits) -> SliceSource<'a>
        ensures clear { result.failed ≡ false }
    {
        SliceSource {
            rest: bytes,
            habits,
            calls: 0,
            failed: false,
        }
    }

    /// Returns the bytes that remain.
    pub fn rest(&self) -> &[u8] {
        self.rest
    }

    /// Returns how many times it was called.
    pub fn calls(&self) -> u64 {
        self.calls
    }

    /// Returns whether a call has failed.
    pub fn has_failed(&self) -> bool
        ensures { result ≡ self.now.failed }
    {
        self.failed
    }

    /// Counts a call that is not made.
    pub fn count_call(&mut self) {
        self.calls = self.calls.saturating_add(1);
    }
}

impl Source for SliceSource<'_> {
    ghost left = { λ source. Some source.rest.now };

    ghost mark = { λ source. source.failed };

    fn read(&mut self, piece: &mut [u8]) -> Result<usize, DeviceFault> {
        let number = self.calls;
        self.calls = number.saturating_add(1);
        if number == self.habits.fails_at {
            self.failed = true;
            return Err(DeviceFault);
        }
        // A source may return 0 only at its end.
        let step = self.habits.step.max(1);
        let count = step.min(piece.len()).min(self.rest.len());
        let (front, rest) = self.rest.split_at(count);
        piece[..count].copy_from_slice(front);
        self.rest = rest;
        Ok(count)
    }
}

/// A sink that writes into a slice.
#[derive(Drop)]
pub struct SliceSink<'a> {
    buffer: &'a mut [u8],
    filled: usize,
    habits: Habits,
    calls: u64,
    failed: bool,
    flushed: bool,
    ghost in_buffer: { filled ≤ length buffer.now },
}

impl<'a> SliceSink<'a> {
    pub fn new(buffer: &'a mut [u8], habits: Habits) -> SliceSink<'a>
        ensures clear { result.failed ≡ false }
    {
        SliceSink {
            buffer,
            filled: 0,
            habits,
            calls: 0,
            failed: false,
            flushed: false,
        }
    }

    /// Returns the bytes that were written.
    pub fn written(&self) -> &[u8] {
        &self.buffer[..self.filled]
    }

    /// Returns how many times it was called, to write or to flush.
    pub fn calls(&self) -> u64 {
        self.calls
    }

    /// Returns whether a call has failed, or a write took nothing.
    pub fn has_failed(&self) -> bool
        ensures { result ≡ self.now.failed }
    {
        self.failed
    }

    /// Counts a call that is not made.
    pub fn count_call(&mut self) {
        self.calls = self.calls.saturating_add(1);
    }

    /// Returns whether its last call was a flush that returned `Ok`.
    pub fn is_flushed(&self) -> bool {
        self.flushed
    }
}

impl Sink for SliceSink<'_> {
    ghost written = { λ sink. Some (take sink.filled sink.buffer.now) };

    ghost mark = { λ sink. sink.failed };

    ghost flushed = { λ sink. sink.flushed };

    fn write(&mut self, piece: &[u8]) -> Result<usize, DeviceFault> {
        let number = self.calls;
        self.calls = number.saturating_add(1);
        self.flushed = false;
        if number == self.habits.fails_at {
            self.failed = true;
            return Err(DeviceFault);
        }
        let left = self.buffer.len() - self.filled;
        let count = self.habits.step.min(piece.len()).min(left);
        if count == 0 && !piece.is_empty() {
            self.failed = true;
        }
        self.buffer[self.filled..self.filled + count].copy_from_slice(&piece[..count]);
        self.filled += count;
        Ok(count)
    }

    fn flush(&mut self) -> Result<(), DeviceFault> {
        let number = self.calls;
        self.calls = number.saturating_add(1);
        self.flushed = number != self.habits.fails_at;
        if !self.flushed {
            self.failed = true;
            return Err(DeviceFault);
        }
        Ok(())
    }
}
