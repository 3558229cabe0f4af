//! The errors of a run.
ghost use Rattle.std.specs.Prelude.{◌≡◌};
ghost use Rattle.origins_lines.specs.declared.error.InputsError.TheVariants.{Memory};

use crate::file::Numbers;
use lines_engine::error::RunError;
use roa_slurm::SlurmFault;
use roa_vrps::FileFault;
use roa_vrps::expiry::ExpiryFault;
use std::alloc::AllocError;
use std::{error, fmt};
use thiserror::Error;

/// The reason why a file could not be read. `F` has the faults of such a file.
#[derive(Clone, Copy, Debug, PartialEq, Eq, Drop)]
pub enum ReadFileError<F> {
    /// A read failed.
    Read,
    /// The file is invalid. The field is its first fault.
    File(F),
    /// An allocation failed.
    Memory,
}

/// Prints a fault in its own form.
impl<F: fmt::Display> fmt::Display for ReadFileError<F> {
    ghost use Rattle.origins_lines.specs.FileResult.{file_error_text};

    ghost output = { file_error_text F.output };

    fn fmt<W: fmt::Write>(&self, f: &mut fmt::Formatter<W>) -> fmt::Result {
        match self {
            ReadFileError::Read => f.write_str("read failed"),
            ReadFileError::File(fault) => fault.fmt(f),
            ReadFileError::Memory => f.write_str("out of memory"),
        }
    }
}

impl<F: error::Error> error::Error for ReadFileError<F> {}

/// The reason why the VRPs of a file could not be read.
pub type ReadVrpsError = ReadFileError<FileFault>;

/// The reason why the VRPs of a file that have not expired could not be read.
pub type ReadUnexpiredError = ReadFileError<ExpiryFault>;

/// The reason why the local exceptions of a SLURM file could not be read.
pub type ReadSlurmError = ReadFileError<SlurmFault>;

/// The reason why files give a run no VRPs. A file is named by its index in [`Inputs`](crate::inputs::Inputs).
///
/// Each VRP file before the named one was read, and is valid.
#[derive(Clone, Copy, Debug, PartialEq, Eq, Error)]
pub enum InputsError {
    /// The file at this index, a VRP file or the SLURM file, can't be opened.
    #[error("file {0}: can't be opened")]
    NotOpened(usize),
    /// The VRPs of the file at this index could not be read.
    #[error("file {0}: {1}")]
    File(usize, ReadUnexpiredError),
    /// The local exceptions of the SLURM file, at this index, could not be read.
    #[error("file {0}: {1}")]
    Slurm(usize, ReadSlurmError),
    /// All files are valid, but each VRP has expired or is removed by the local exceptions. The field has the numbers
    /// of VRPs before the local exceptions.
    #[error("no VRP left")]
    NoVrpLeft(Numbers),
    /// An allocation failed.
    #[error("out of memory")]
    Memory,
}

impl From<AllocError> for InputsError {
    ghost from_gives = { λ _ error. error ≡ Memory };

    fn from(_error: AllocError) -> InputsError {
        InputsError::Memory
    }
}

/// The reason why a run with the VRPs of files ended early.
#[derive(Clone, Copy, Debug, PartialEq, Eq, Error)]
pub enum OriginsError {
    /// The files give no VRPs. Nothing was written.
    #[error("{0}")]
    Inputs(InputsError),
    /// A step after reading the files failed.
    #[error("{0}")]
    Run(RunError),
}

/// The reason why a run with two VRP files ended early.
#[derive(Clone, Copy, Debug, PartialEq, Eq, Error)]
pub enum ChangesError {
    /// The old VRPs could not be read. Nothing was written.
    #[error("old VRP file: {0}")]
    Old(ReadVrpsError),
    /// The new VRPs could not be read. Nothing was written.
    #[error("new VRP file: {0}")]
    New(ReadVrpsError),
    /// A step after reading the VRPs failed.
    #[error("{0}")]
    Run(RunError),
}
