//! Runs of the engine of `origins` with memory refused.
use crate::observed_run::BUFFER_LEN;
use crate::slices::{Habits, SliceSink, SliceSource};
use lines_engine::error::RunError;
use origins_lines::error::ReadVrpsError;
use origins_lines::explanation::Form;
use origins_lines::file::read_file;
use origins_lines::routes::answer_by;
use origins_lines::text::answer_text;
use std::alloc::Global;
use test_support::{Outcome, Refusing, refuse_in_turn};

/// The same two VRPs in both forms.
pub const FILES: [&[u8]; 2] = [
    b"ASN,IP Prefix,Max Length\nAS64496,192.0.2.0/24,24\nAS64497,2001:db8::/32,48\n",
    b"{\"roas\": [{\"asn\": 64496, \"prefix\": \"192.0.2.0/24\", \"maxLength\": 24}, \
        {\"asn\": \"AS64497\", \"prefix\": \"2001:db8::/32\", \"maxLength\": 48}]}",
];

pub const ROUTES: &[u8] =
    b"192.0.2.0/24 AS64496\n192.0.2.0/25 AS64496\n2001:db8::/32 AS1\n10.0.0.0/8 AS1";

pub const ANSWERS: &[u8] = b"valid\ninvalid-length\ninvalid-as\nnot-found\n";

/// Returns the way in which a run ended that may have been refused a request.
///
/// If it was refused after the VRPs were read, nothing was flushed.
fn outcome(refusing: &Refusing<Global>, file: &'static [u8]) -> Outcome {
    let mut buffer = [0u8; BUFFER_LEN];
    let mut vrps = SliceSource::new(file, Habits::GOOD);
    let mut routes = SliceSource::new(ROUTES, Habits::GOOD);
    let mut sink = SliceSink::new(&mut buffer, Habits::GOOD);
    let listed = match read_file(refusing, &mut vrps) {
        Ok(listed) => listed,
        Err(ReadVrpsError::Memory) => return Outcome::OutOfMemory,
        Err(_) => return Outcome::Unexpected,
    };
    match answer_by(refusing, listed, Form::Words, false, &mut routes, &mut sink) {
        Ok(()) if sink.written() == ANSWERS && sink.is_flushed() => Outcome::Expected,
        Err(RunError::Memory) if !sink.is_flushed() => Outcome::OutOfMemory,
        _ => Outcome::Unexpected,
    }
}

#[test]
fn each_request_is_refused_in_turn(rt: HostRuntime) {
    for file in &FILES {
        let refused = refuse_in_turn(
            rt.alloc(),
            1000,
            |refusing: &Refusing<Global>| outcome(refusing, file),
        );
        match refused {
            Ok(requests) => assert!(rt; requests > 5, "{requests} requests"),
            Err(number) => assert!(rt; false, "request {number}"),
        }
    }
}

#[test]
fn a_text_in_memory_has_the_answers_of_a_run(rt: HostRuntime) {
    for file in &FILES {
        match answer_text(rt.alloc(), file, Form::Words, false, ROUTES) {
            Ok(written) => assert!(rt; written.as_slice() == ANSWERS),
            Err(_) => assert!(rt; false, "{file:?}"),
        }
    }
}
