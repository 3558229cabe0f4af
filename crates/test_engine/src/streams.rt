//! Readers and writers of std over those devices.
//!
//! The error of a failed call may say that the call may be tried again, which nothing here does. A call after a failed
//! one is counted and fails, and therefore a test sees it.
use crate::slices::{SliceSink, SliceSource};
use lines_engine::device::{Sink, Source};
use std::io;
use std::io::{Read, Write};

/// The kind of the error of a call that may be tried again. A [`BufWriter`](std::io::BufWriter) tries it again.
pub const AGAIN: io::ErrorKind = io::ErrorKind::Interrupted;

/// A source as a reader of std.
#[derive(Drop)]
pub struct SliceReader<'a> {
    pub source: SliceSource<'a>,
}

impl Read for SliceReader<'_> {
    fn read(&mut self, buffer: &mut [u8]) -> io::Result<usize> {
        if self.source.has_failed() {
            self.source.count_call();
            return Err(again());
        }
        self.source.read(buffer).map_err(|_| again())
    }
}

/// A sink as a writer of std. Each error has this kind.
#[derive(Drop)]
pub struct SliceWriter<'a> {
    pub sink: SliceSink<'a>,
    pub kind: io::ErrorKind,
}

impl Write for SliceWriter<'_> {
    fn write(&mut self, buffer: &[u8]) -> io::Result<usize> {
        let kind = self.kind;
        if self.sink.has_failed() {
            self.sink.count_call();
            return Err(io::Error::from(kind));
        }
        self.sink.write(buffer).map_err(|_| io::Error::from(kind))
    }

    fn flush(&mut self) -> io::Result<()> {
        let kind = self.kind;
        if self.sink.has_failed() {
            self.sink.count_call();
            return Err(io::Error::from(kind));
        }
        self.sink.flush().map_err(|_| io::Error::from(kind))
    }
}

/// Returns the error of a call that may be tried again.
fn again() -> io::Error {
    io::Error::from(AGAIN)
}
