//! Runs whose writer has a buffer, as the programs have it.
use crate::observed_run::{BUFFER_LEN, Engine, Row, Seen, look};
use crate::slices::{Habits, SliceSink, SliceSource};
use crate::streams::{SliceReader, SliceWriter};
use lines_engine::adapters::{FromRead, IntoBufWriter};
use lines_engine::device::Sink;
use lines_engine::error::RunError;
use std::alloc::{Allocator, Global};
use std::io::{BufWriter, ErrorKind};

/// Runs an input over a reader of std, and over a writer of std with a buffer, which is written at the end.
pub fn run_buffered<A: Allocator + Copy>(
    heap: Global,
    capacity: usize,
    alloc: A,
    engine: Engine,
    row: &Row,
    reading: Habits,
    writing: Habits,
) -> Seen {
    let mut buffer = [0u8; BUFFER_LEN];
    let mut reader = SliceReader {
        source: SliceSource::new(row.input, reading),
    };
    let mut writer = writer(&mut buffer, writing);
    let ended = match BufWriter::with_capacity(heap, capacity, &mut writer) {
        Ok(buffered) => {
            let mut sink = IntoBufWriter::new(buffered);
            let ended = engine.run(alloc, &mut FromRead::new(&mut reader), &mut sink);
            let (_writer, written) = sink.finish();
            written.and(ended)
        }
        Err(_) => Err(RunError::Memory),
    };
    look(ended, row, &reader.source, &writer.sink)
}

/// Returns a writer whose failed calls are not to be tried again.
fn writer(buffer: &mut [u8], habits: Habits) -> SliceWriter<'_> {
    SliceWriter {
        sink: SliceSink::new(buffer, habits),
        kind: ErrorKind::StorageFull,
    }
}

/// Writes two bytes into a buffer, and takes the sink apart. Returns its result, and what the writer has got: the
/// number of bytes, and of calls.
fn finished(heap: Global, habits: Habits) -> Option<(Result<(), RunError>, usize, u64)> {
    let mut buffer = [0u8; BUFFER_LEN];
    let mut writer = writer(&mut buffer, habits);
    let buffered = BufWriter::with_capacity(heap, 16, &mut writer).ok()?;
    let mut sink = IntoBufWriter::new(buffered);
    let taken = sink.write(b"ab").ok()?;
    let (_writer, written) = sink.finish();
    let is_beginning = taken == 2 && b"ab".starts_with(writer.sink.written());
    is_beginning.then_some((written, writer.sink.written().len(), writer.sink.calls()))
}

#[test]
fn the_buffer_is_written_at_the_end(rt: HostRuntime) {
    let found = finished(rt.alloc(), Habits::GOOD);
    assert!(rt; found == Some((Ok(()), 2, 1)));
    let found = finished(rt.alloc(), Habits::in_steps(1));
    assert!(rt; found == Some((Ok(()), 2, 2)));
}

#[test]
fn a_write_that_fails_at_the_end_is_reported_and_not_repeated(rt: HostRuntime) {
    let found = finished(rt.alloc(), Habits::failing_at(0));
    assert!(rt; found == Some((Err(RunError::Write), 0, 1)));
    let found = finished(rt.alloc(), Habits::failing_at(1));
    assert!(rt; found == Some((Err(RunError::Write), 1, 2)));
    let found = finished(rt.alloc(), Habits::in_steps(0));
    assert!(rt; found == Some((Err(RunError::Write), 0, 1)));
}
