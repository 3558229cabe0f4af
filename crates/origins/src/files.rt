//! The files that a task reads.
ghost use Rattle.std.specs.Prelude.{◌≡◌, false, None};

use crate::options::{Input, STANDARD_INPUT};
use lines_engine::device::{DeviceFault, Source};
use lines_engine::retrying::Retrying;
use origins_lines::inputs::{Inputs, Selection};
use std::fs;
use std::fs::File;
use std::io::{Read, Stdin};

/// The files of a task by their indices: the VRP files in the order of the arguments, and then the SLURM file.
#[derive(Drop)]
pub struct NamedFiles<'a> {
    rt: &'a HostRuntime,
    input: &'a Input<'a>,
    failed: bool,
}

impl<'a> NamedFiles<'a> {
    /// Returns the files of `input`. None of them is open.
    pub fn new(rt: &'a HostRuntime, input: &'a Input<'a>) -> NamedFiles<'a>
        ensures { ⟦<NamedFiles<'a> as Inputs>⟧.mark result ≡ false }
    {
        NamedFiles {
            rt,
            input,
            failed: false,
        }
    }
}

impl Inputs for NamedFiles<'_> {
    type File = OpenFile;

    /// The content of files is not modelled.
    ghost text = { λ _ _. None };

    ghost mark = { λ files. files.failed };

    fn open(&mut self, index: usize) -> Result<OpenFile, DeviceFault> {
        match open(self.rt, self.input.name_of(index)) {
            Some(reader) => Ok(OpenFile {
                reader,
                failed: false,
            }),
            None => {
                self.failed = true;
                Err(DeviceFault)
            }
        }
    }

    fn close(&mut self, file: OpenFile) {
        self.failed = file.failed;
    }
}

/// An open file, or the standard input.
#[derive(Debug, Drop)]
pub struct OpenFile {
    reader: Reader,
    failed: bool,
}

/// The reader of an open file.
#[derive(Debug, Drop)]
enum Reader {
    File(Retrying<File>),
    StandardInput(Retrying<Stdin>),
}

/// Opens a file, or returns None if it can't be opened.
fn open(rt: &HostRuntime, name: &str) -> Option<Reader> {
    if name == STANDARD_INPUT {
        return Some(Reader::StandardInput(Retrying::new(rt.stdin())));
    }
    match fs::open(rt, name) {
        Ok(file) => Some(Reader::File(Retrying::new(file))),
        Err(_) => None,
    }
}

impl Source for OpenFile {
    ghost left = { λ _. None };

    ghost mark = { λ file. file.failed };

    fn read(&mut self, piece: &mut [u8]) -> Result<usize, DeviceFault> {
        let read = match &mut self.reader {
            Reader::File(file) => file.read(piece),
            Reader::StandardInput(input) => input.read(piece),
        };
        match read {
            Ok(count) => Ok(count),
            Err(_) => {
                self.failed = true;
                Err(DeviceFault)
            }
        }
    }
}

/// Returns which files of `input` are read.
pub fn selection_of(input: &Input<'_>) -> Selection {
    let files = input.files.len();
    Selection {
        files,
        time: input.time,
        slurm: input.slurm.map(|_| files),
    }
}
