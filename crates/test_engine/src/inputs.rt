//! Runs of the engine of `origins` with several files, one of which can't be opened or read, and with memory refused.
ghost use Rattle.std.specs.Prelude.{◌≡◌, false, None};

use crate::slices::{Habits, SliceSink, SliceSource};
use lines_engine::device::{DeviceFault, Source};
use lines_engine::error::RunError;
use origins_lines::error::{InputsError, OriginsError, ReadUnexpiredError};
use origins_lines::explanation::Form;
use origins_lines::file::Numbers;
use origins_lines::inputs::{Inputs, Selection, read_inputs};
use origins_lines::routes::answer_inputs;
use origins_lines::tables::list_inputs;
use roa_vrps::FileFault;
use roa_vrps::expiry::ExpiryFault;
use std::alloc::Global;
use test_support::{Outcome, Refusing, refuse_in_turn};

/// VRPs of which the first expires at the time 1000, a VRP that never expires, and exceptions that remove the latter.
const FILES: [&[u8]; 3] = [
    b"ASN,IP Prefix,Max Length,Trust Anchor,Expires\nAS64496,192.0.2.0/24,24,x,1000\n\
        AS64497,2001:db8::/32,48,x,2000\n",
    b"{\"roas\": [{\"asn\": 64498, \"prefix\": \"198.51.100.0/24\", \"maxLength\": 24}]}",
    b"{\"slurmVersion\":1,\"validationOutputFilters\":{\"prefixFilters\":[{\"asn\":64498}],\"bgpsecFilters\":[]},\
        \"locallyAddedAssertions\":{\"prefixAssertions\":[{\"asn\":64499,\"prefix\":\"10.0.0.0/8\"}],\
        \"bgpsecAssertions\":[]}}",
];

const ROUTES: &[u8] =
    b"192.0.2.0/24 AS64496\n2001:db8::/32 AS64497\n198.51.100.0/24 AS64498\n10.0.0.0/8 AS64499";

/// Files over slices. At most one of them is open.
#[derive(Drop)]
struct SliceInputs<'a> {
    texts: &'a [&'a [u8]],
    /// The index of the file that can't be opened.
    missing: usize,
    habits: Habits,
    opened: usize,
    is_open: bool,
    failed: bool,
}

impl<'a> SliceInputs<'a> {
    fn new(texts: &'a [&'a [u8]]) -> SliceInputs<'a>
        ensures { result.failed ≡ false }
    {
        SliceInputs {
            texts,
            missing: usize::MAX,
            habits: Habits::GOOD,
            opened: 0,
            is_open: false,
            failed: false,
        }
    }
}

/// A file over a slice. What it holds is not modelled.
#[derive(Drop)]
struct OpenSlice<'a>(SliceSource<'a>);

impl Source for OpenSlice<'_> {
    ghost left = { λ _. None };

    ghost mark = { λ file. file.0.failed };

    fn read(&mut self, piece: &mut [u8]) -> Result<usize, DeviceFault> {
        self.0.read(piece)
    }
}

impl<'a> Inputs for SliceInputs<'a> {
    type File = OpenSlice<'a>;

    ghost text = { λ _ _. None };

    ghost mark = { λ inputs. inputs.failed };

    fn open(&mut self, index: usize) -> Result<OpenSlice<'a>, DeviceFault> {
        let text = self.texts.get(index);
        if index == self.missing || self.is_open {
            self.failed = true;
            return Err(DeviceFault);
        }
        match text {
            Some(text) => {
                self.is_open = true;
                self.opened = self.opened.saturating_add(1);
                Ok(OpenSlice(SliceSource::new(*text, self.habits)))
            }
            None => {
                self.failed = true;
                Err(DeviceFault)
            }
        }
    }

    fn close(&mut self, file: OpenSlice<'a>) {
        self.is_open = false;
        self.failed = file.0.has_failed();
    }
}

/// Returns the selection of two files and of the exceptions, at a time.
fn selection(time: Option<u64>) -> Selection {
    Selection {
        files: 2,
        time,
        slurm: Some(2),
    }
}

/// Answers the routes, and returns the error, whether the answers are these, and the number of opened files.
fn answered(
    heap: Global,
    inputs: &mut SliceInputs<'_>,
    selection: Selection,
    form: Form,
    answers: &[u8],
) -> Option<OriginsError>
    requires { inputs.old.failed ≡ false }
{
    let mut buffer = [0u8; 512];
    let mut routes = SliceSource::new(ROUTES, Habits::GOOD);
    let mut sink = SliceSink::new(&mut buffer, Habits::GOOD);
    match answer_inputs(heap, inputs, selection, form, false, &mut routes, &mut sink) {
        Ok(_) if sink.written() == answers && sink.is_flushed() && !inputs.is_open => None,
        Err(error) if routes.calls() == 0 && sink.calls() == 0 => Some(error),
        _ => Some(OriginsError::Run(RunError::Write)),
    }
}

#[test]
fn answers_are_by_all_files(rt: HostRuntime) {
    let mut inputs = SliceInputs::new(&FILES);
    let ended = answered(
        rt.alloc(),
        &mut inputs,
        selection(None),
        Form::Words,
        b"valid\nvalid\nnot-found\nvalid\n",
    );
    assert!(rt; ended == None, "{ended:?}");
    assert!(rt; inputs.opened == 3);
    let mut inputs = SliceInputs::new(&FILES);
    let ended = answered(
        rt.alloc(),
        &mut inputs,
        selection(Some(1001)),
        Form::Words,
        b"not-found\nvalid\nnot-found\nvalid\n",
    );
    assert!(rt; ended == None, "{ended:?}");
    let mut inputs = SliceInputs::new(&FILES);
    let one = Selection {
        files: 1,
        time: Some(1001),
        slurm: None,
    };
    let ended = answered(
        rt.alloc(),
        &mut inputs,
        one,
        Form::Json,
        b"{\"state\":\"not-found\",\"prefix\":\"192.0.2.0/24\",\"origin_asn\":\"AS64496\"}\n\
            {\"state\":\"valid\",\"prefix\":\"2001:db8::/32\",\"origin_asn\":\"AS64497\"}\n\
            {\"state\":\"not-found\",\"prefix\":\"198.51.100.0/24\",\"origin_asn\":\"AS64498\"}\n\
            {\"state\":\"not-found\",\"prefix\":\"10.0.0.0/8\",\"origin_asn\":\"AS64499\"}\n",
    );
    assert!(rt; ended == None, "{ended:?}");
    assert!(rt; inputs.opened == 1);
}

#[test]
fn table_is_of_all_files(rt: HostRuntime) {
    let mut buffer = [0u8; 512];
    let mut sink = SliceSink::new(&mut buffer, Habits::GOOD);
    let mut inputs = SliceInputs::new(&FILES);
    let ended = list_inputs(
        rt.alloc(),
        &mut inputs,
        selection(Some(1001)),
        None,
        &mut sink,
    );
    let Ok(report) = ended else {
        assert!(rt; false);
        return;
    };
    assert!(rt; sink.written() == b"10.0.0.0/8-8 AS64499\n2001:db8::/32-48 AS64497\n".as_slice());
    let all = Numbers {
        unexpired: 2,
        expired: 1,
    };
    assert!(rt; report.all == all && report.used == 2 && report.files.len() == 2);
}

#[test]
fn file_with_a_fault_is_named(rt: HostRuntime) {
    for missing in 0..3 {
        let mut inputs = SliceInputs::new(&FILES);
        inputs.missing = missing;
        let ended = answered(rt.alloc(), &mut inputs, selection(None), Form::Words, b"");
        let wanted = OriginsError::Inputs(InputsError::NotOpened(missing));
        assert!(rt; ended == Some(wanted), "{ended:?}");
        assert!(rt; inputs.opened == missing);
    }
    let mut inputs = SliceInputs::new(&FILES);
    inputs.habits = Habits::failing_at(100);
    let ended = answered(rt.alloc(), &mut inputs, selection(None), Form::Words, b"");
    let wanted = OriginsError::Inputs(InputsError::File(0, ReadUnexpiredError::Read));
    assert!(rt; ended == Some(wanted), "{ended:?}");
    let texts: [&[u8]; 2] = [FILES[0], b"AS1,10.0.0.0/8"];
    for time in [None, Some(0)] {
        let mut inputs = SliceInputs::new(&texts);
        let ended = answered(rt.alloc(), &mut inputs, selection(time), Form::Words, b"");
        assert!(rt;
            matches!(
                ended,
                Some(OriginsError::Inputs(InputsError::File(
                    1,
                    ReadUnexpiredError::File(ExpiryFault::File(FileFault::Line(_, _)))
                )))
            ),
            "{ended:?}"
        );
    }
}

#[test]
fn no_vrp_left_is_an_error(rt: HostRuntime) {
    let one = Selection {
        files: 1,
        time: Some(2001),
        slurm: None,
    };
    let mut inputs = SliceInputs::new(&FILES);
    let ended = answered(rt.alloc(), &mut inputs, one, Form::Words, b"");
    let numbers = Numbers {
        unexpired: 0,
        expired: 2,
    };
    let wanted = OriginsError::Inputs(InputsError::NoVrpLeft(numbers));
    assert!(rt; ended == Some(wanted), "{ended:?}");
}

/// Returns the way in which the reading of all files ended that may have been refused a request.
fn outcome(refusing: &Refusing<Global>) -> Outcome {
    let mut inputs = SliceInputs::new(&FILES);
    match read_inputs(refusing, &mut inputs, selection(Some(1001))) {
        Ok(read) if read.vrps.len() == 2 && !inputs.is_open => Outcome::Expected,
        Err(InputsError::Memory | InputsError::File(_, ReadUnexpiredError::Memory)) => {
            Outcome::OutOfMemory
        }
        Err(InputsError::Slurm(2, origins_lines::error::ReadSlurmError::Memory)) => {
            Outcome::OutOfMemory
        }
        _ => Outcome::Unexpected,
    }
}

#[test]
fn each_request_for_files_is_refused_in_turn(rt: HostRuntime) {
    match refuse_in_turn(
        rt.alloc(),
        1000,
        |refusing: &Refusing<Global>| outcome(refusing),
    ) {
        Ok(requests) => assert!(rt; requests > 5, "{requests} requests"),
        Err(number) => assert!(rt; false, "request {number}"),
    }
}
