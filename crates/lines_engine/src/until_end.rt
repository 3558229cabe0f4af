//! A reader that is dropped at its end.
ghost use Rattle.std.specs.Prelude.{◌≡◌, ◌<◌, ◌≤◌, false, length, IfOk, None};
ghost use Rattle.std.specs.Io.KnownBytes.{ReadConsumes};
ghost use Rattle.lines_engine.specs.Device.{MarksFailure};

use crate::device::{DeviceFault, Source};
use std::io::Read;

/// A reader of std as a source. The reader is dropped as soon as nothing is left of it.
///
/// A file is closed then. It is no longer open when something else is opened or read later.
#[derive(Debug, Drop)]
pub struct UntilEnd<R> {
    reader: Option<R>,
    failed: bool,
}

impl<R: Read> UntilEnd<R> {
    /// Wraps a reader. No read through the result has failed yet.
    pub fn new(reader: R) -> UntilEnd<R>
    where
        R: Drop,
        ensures clear { ⟦<UntilEnd<R> as Source>⟧.mark result ≡ false }
        ensures left { ⟦<UntilEnd<R> as Source>⟧.left result ≡ R.remaining reader }
    {
        UntilEnd {
            reader: Some(reader),
            failed: false,
        }
    }
}

impl<R: Read + Drop> Source for UntilEnd<R> {
    ghost use Rattle.lines_engine.specs.Device.{left_of};

    ghost left = { λ source. left_of R.remaining source.reader };

    ghost mark = { λ source. source.failed };

    /// Reads once. A read that finds the end drops the reader.
    fn read(&mut self, piece: &mut [u8]) -> Result<usize, DeviceFault>
        ensures bound { IfOk result (λ n. n ≤ length piece.new) }
        ensures bytes { ReadConsumes (left_of R.remaining self.old.reader) (left_of R.remaining self.new.reader) result
            piece.new }
        ensures mark { MarksFailure self.old.failed self.new.failed result }
        ensures dropped { IfOk result (λ n. n ≡ 0 → 0 < length piece.new → self.new.reader ≡ None) }
    {
        let Some(reader) = self.reader.as_mut() else {
            return Ok(0);
        };
        let taken = reader.read(piece).map_err(|_| DeviceFault);
        self.failed |= taken.is_err();
        if matches!(taken, Ok(0)) && !piece.is_empty() {
            self.reader = None;
        }
        taken
    }
}
