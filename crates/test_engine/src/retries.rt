//! Reads that fail at first, by the adapters of `origins`, and its errors in code that passes errors up.
use crate::observed_run::BUFFER_LEN;
use crate::routes::{ANSWERS, FILES, ROUTES};
use crate::slices::{Habits, SliceSink};
use lines_engine::adapters::FromRead;
use lines_engine::error::RunError;
use lines_engine::retrying::Retrying;
use lines_engine::until_end::UntilEnd;
use origins_lines::error::{
    ChangesError, InputsError, OriginsError, ReadSlurmError, ReadUnexpiredError, ReadVrpsError,
};
use origins_lines::explanation::Form;
use origins_lines::file::{Numbers, read_file};
use origins_lines::routes::answer_by;
use roa_vrps::FileFault;
use roa_vrps::expiry::ExpiryFault;
use std::alloc::Global;
use std::io;
use std::io::{ErrorKind, Read};
use test_support::all_print;

/// A reader of std over a slice. Its first `failures` reads fail with an error of a kind.
#[derive(Drop)]
struct Failing<'a> {
    rest: &'a [u8],
    kind: ErrorKind,
    failures: u64,
}

impl Read for Failing<'_> {
    fn read(&mut self, buffer: &mut [u8]) -> io::Result<usize> {
        if self.failures > 0 {
            self.failures -= 1;
            return Err(io::Error::from(self.kind));
        }
        self.rest.read(buffer)
    }
}

/// Wraps a reader that fails `failures` times, as `origins` does.
fn as_read(rest: &[u8], kind: ErrorKind, failures: u64) -> Retrying<Failing<'_>> {
    Retrying::new(Failing {
        rest,
        kind,
        failures,
    })
}

/// The part of a run that failed.
#[derive(Clone, Copy, Debug, PartialEq, Eq)]
enum Failed {
    File(ReadVrpsError),
    Run(RunError),
}

/// Returns whether all routes are answered if so many first reads of the file, and of the routes, fail.
fn answers(heap: Global, kind: ErrorKind, of_file: u64, of_routes: u64) -> Result<bool, Failed> {
    let mut buffer = [0u8; BUFFER_LEN];
    let mut vrps = UntilEnd::new(as_read(FILES[0], kind, of_file));
    let mut routes = FromRead::new(as_read(ROUTES, kind, of_routes));
    let mut sink = SliceSink::new(&mut buffer, Habits::GOOD);
    let listed = match read_file(heap, &mut vrps) {
        Ok(listed) => listed,
        Err(error) => return Err(Failed::File(error)),
    };
    match answer_by(heap, listed, Form::Words, false, &mut routes, &mut sink) {
        Ok(()) => Ok(sink.written() == ANSWERS && sink.is_flushed()),
        Err(error) => Err(Failed::Run(error)),
    }
}

#[test]
fn interrupted_reads_are_retried(rt: HostRuntime) {
    for failures in [0, 1, 5] {
        let of_file = answers(rt.alloc(), ErrorKind::Interrupted, failures, 0);
        assert!(rt; of_file == Ok(true), "{failures} of the file: {of_file:?}");
        let of_routes = answers(rt.alloc(), ErrorKind::Interrupted, 0, failures);
        assert!(rt;
            of_routes == Ok(true),
            "{failures} of the routes: {of_routes:?}"
        );
    }
}

#[test]
fn other_failed_reads_are_not_retried(rt: HostRuntime) {
    for kind in [ErrorKind::WouldBlock, ErrorKind::TimedOut, ErrorKind::Other] {
        let of_file = answers(rt.alloc(), kind, 1, 0);
        assert!(rt;
            of_file == Err(Failed::File(ReadVrpsError::Read)),
            "{of_file:?}"
        );
        let of_routes = answers(rt.alloc(), kind, 0, 1);
        assert!(rt;
            of_routes == Err(Failed::Run(RunError::Read)),
            "{of_routes:?}"
        );
    }
}

/// Passes an error up, as code does that knows no type of error.
fn passed_up<E: std::error::Error + Drop>(error: E) -> anyhow::Result<()> {
    let failed: Result<(), E> = Err(error);
    failed?;
    Ok(())
}

#[test]
fn errors_are_passed_up(rt: HostRuntime) {
    assert!(rt; passed_up(ReadVrpsError::Read).is_err());
    assert!(rt; passed_up(OriginsError::Run(RunError::Read)).is_err());
    assert!(rt; passed_up(ChangesError::New(ReadVrpsError::Read)).is_err());
}

#[test]
fn errors_are_printed(rt: HostRuntime) {
    let vrps = [
        (ReadVrpsError::Read, "read failed"),
        (ReadVrpsError::File(FileFault::NoVrp), "no VRP"),
        (ReadVrpsError::Memory, "out of memory"),
    ];
    assert!(rt; all_print(rt.alloc(), &vrps) == Ok(true));
    let file = ReadUnexpiredError::File(ExpiryFault::Line(7));
    let left = InputsError::NoVrpLeft(Numbers {
        unexpired: 0,
        expired: 2,
    });
    let origins = [
        (
            OriginsError::Inputs(InputsError::NotOpened(2)),
            "file 2: can't be opened",
        ),
        (
            OriginsError::Inputs(InputsError::File(3, file)),
            "file 3: line 7: expires: not a whole number below 2^64",
        ),
        (
            OriginsError::Inputs(InputsError::Slurm(4, ReadSlurmError::Read)),
            "file 4: read failed",
        ),
        (OriginsError::Inputs(left), "no VRP left"),
        (OriginsError::Inputs(InputsError::Memory), "out of memory"),
        (OriginsError::Run(RunError::Write), "write failed"),
    ];
    assert!(rt; all_print(rt.alloc(), &origins) == Ok(true));
    let changes = [
        (
            ChangesError::Old(ReadVrpsError::Read),
            "old VRP file: read failed",
        ),
        (
            ChangesError::New(ReadVrpsError::Memory),
            "new VRP file: out of memory",
        ),
        (ChangesError::Run(RunError::Write), "write failed"),
    ];
    assert!(rt; all_print(rt.alloc(), &changes) == Ok(true));
}
