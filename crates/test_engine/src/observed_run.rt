//! A run, and its observed result as plain values.
ghost use Rattle.std.specs.Prelude.{◌≡◌, false};

use crate::buffered::run_buffered;
use crate::slices::{Habits, SliceSink, SliceSource};
use crate::streams::{AGAIN, SliceReader, SliceWriter};
use lines_engine::adapters::{FromRead, IntoWrite};
use lines_engine::device::{Sink, Source};
use lines_engine::error::RunError;
use lines_engine::steps::OneByOne;
use lines_engine::stream::answer_as_read;
use respath_lines::lines::Commands;
use std::alloc::{Allocator, Global};

/// The capacity of a sink, in bytes.
pub const BUFFER_LEN: usize = 128;

/// An input, and the output for it.
#[derive(Clone, Copy)]
pub struct Row {
    pub input: &'static [u8],
    pub output: &'static [u8],
}

/// The observed result of a run.
#[derive(Clone, Copy)]
pub struct Seen {
    pub ended: Result<(), RunError>,
    /// Number of bytes that remain to be read.
    pub left: usize,
    /// Number of calls of the reader.
    pub reads: u64,
    /// Number of bytes that were written.
    pub written: usize,
    /// Whether those are the first ones of the expected output.
    pub begins: bool,
    /// Number of calls of the writer, including flushes.
    pub writes: u64,
    /// Whether the last call of the writer was a flush that returned `Ok`.
    pub flushed: bool,
}

/// The engine of a run.
#[derive(Clone, Copy, Debug, PartialEq, Eq)]
pub enum Engine {
    /// The run of `respath`, which reads all input before it answers.
    Whole,
    /// The engine that answers as it reads.
    AsRead,
}

impl Engine {
    pub const ALL: [Engine; 2] = [Engine::Whole, Engine::AsRead];

    /// Answers the lines of a source.
    pub fn run<A: Allocator + Copy, R: Source, W: Sink>(
        self,
        alloc: A,
        reader: &mut R,
        writer: &mut W,
    ) -> Result<(), RunError>
        requires reader_clear { R.mark reader.old ≡ false }
        requires writer_clear { W.mark writer.old ≡ false }
    {
        match self {
            Engine::Whole => respath_lines::run(alloc, reader, writer),
            Engine::AsRead => answer_as_read(alloc, &OneByOne(&Commands), reader, writer),
        }
    }
}

/// The devices of a run.
#[derive(Clone, Copy, Debug)]
pub enum Devices {
    /// The devices of the engine.
    Own,
    /// The devices of std, by the adapters.
    Std,
    /// The same with a buffer of so many bytes in front of the writer.
    Buffered(usize),
}

impl Devices {
    /// Runs an input over such devices.
    pub fn run(
        self,
        heap: Global,
        engine: Engine,
        row: &Row,
        reading: Habits,
        writing: Habits,
    ) -> Seen {
        match self {
            Devices::Own => run_own(heap, engine, row, reading, writing),
            Devices::Std => run_std(heap, engine, row, reading, writing),
            Devices::Buffered(capacity) => {
                run_buffered(heap, capacity, heap, engine, row, reading, writing)
            }
        }
    }
}

/// Runs an input over the engine's own devices.
pub fn run_own<A: Allocator + Copy>(
    alloc: A,
    engine: Engine,
    row: &Row,
    reading: Habits,
    writing: Habits,
) -> Seen {
    let mut buffer = [0u8; BUFFER_LEN];
    let mut source = SliceSource::new(row.input, reading);
    let mut sink = SliceSink::new(&mut buffer, writing);
    let ended = engine.run(alloc, &mut source, &mut sink);
    look(ended, row, &source, &sink)
}

/// Runs an input over a reader and a writer of std.
fn run_std(heap: Global, engine: Engine, row: &Row, reading: Habits, writing: Habits) -> Seen {
    let mut buffer = [0u8; BUFFER_LEN];
    let mut reader = SliceReader {
        source: SliceSource::new(row.input, reading),
    };
    let mut writer = SliceWriter {
        sink: SliceSink::new(&mut buffer, writing),
        kind: AGAIN,
    };
    let ended = engine.run(
        heap,
        &mut FromRead::new(&mut reader),
        &mut IntoWrite::new(&mut writer),
    );
    look(ended, row, &reader.source, &writer.sink)
}

/// Returns the state of the devices after a run.
pub fn look(
    ended: Result<(), RunError>,
    row: &Row,
    source: &SliceSource<'_>,
    sink: &SliceSink<'_>,
) -> Seen {
    Seen {
        ended,
        left: source.rest().len(),
        reads: source.calls(),
        written: sink.written().len(),
        begins: row.output.starts_with(sink.written()),
        writes: sink.calls(),
        flushed: sink.is_flushed(),
    }
}
