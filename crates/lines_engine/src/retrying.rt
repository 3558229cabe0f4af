//! A reader that repeats interrupted reads.
ghost use Rattle.std.specs.Prelude.{◌≡◌, ◌≢◌, IfErr};
ghost use Rattle.std.specs.Io.{ReadsAtMost};
ghost use Rattle.std.specs.Io.KnownBytes.{ReadConsumes};
ghost use Rattle.std.specs.IoError.{error_kind};

use std::io;
use std::io::{ErrorKind, Read};

/// A reader of std that repeats a read that a signal interrupts, as std's own loops do.
///
/// Any other error is passed on. Therefore a program that is stopped and continued goes on reading.
#[derive(Debug, Drop)]
pub struct Retrying<R> {
    reader: R,
}

impl<R: Read> Retrying<R> {
    /// Wraps a reader from which nothing was read yet.
    pub fn new(reader: R) -> Retrying<R>
        ensures { ⟦<Retrying<R> as Read>⟧.remaining result ≡ R.remaining reader }
    {
        Retrying { reader }
    }
}

impl<R: Read> Read for Retrying<R> {
    ghost remaining = { λ retrying. R.remaining retrying.reader };

    /// Reads once.
    ///
    /// # Errors
    ///
    /// The error of the reader, which is never of the kind `Interrupted`. After 2^64 - 1 interrupted tries the error is
    /// of the kind `TimedOut`.
    fn read(&mut self, buffer: &mut [u8]) -> io::Result<usize>
        ensures bound { ReadsAtMost result buffer.new }
        ensures bytes { ReadConsumes (R.remaining self.old.reader) (R.remaining self.new.reader) result buffer.new }
        ensures retried { IfErr result (λ error. error_kind error ≢ ErrorKind.Interrupted) }
    {
        for _ in 0..u64::MAX {
            match self.reader.read(buffer) {
                Ok(count) => return Ok(count),
                Err(error) => if error.kind() != ErrorKind::Interrupted {
                    return Err(error);
                },
            }
        }
        Err(io::Error::from(ErrorKind::TimedOut))
    }
}
