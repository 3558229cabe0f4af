//! The error messages of the program.
use crate::options::{Input, shown};
use crate::report::count_of;
use lines_engine::error::RunError;
use origins_lines::error::{
    InputsError, OriginsError, ReadFileError, ReadSlurmError, ReadUnexpiredError, ReadVrpsError,
};
use origins_lines::file::Numbers;
use std::fmt;

/// The reason why the program prints no answers, or not all of them.
#[derive(Clone, Copy, Debug)]
pub enum Failure<'a> {
    /// A command-line argument is not UTF-8, or memory ran out.
    Words,
    /// A file can't be opened.
    NotOpened(&'a str),
    /// The VRPs of a file could not be read.
    Vrps(&'a str, ReadVrpsError),
    /// The VRPs of a file could not be read, or the expiries of its VRPs.
    Unexpired(&'a str, ReadUnexpiredError),
    /// The local exceptions of a SLURM file could not be read.
    Slurm(&'a str, ReadSlurmError),
    /// Each VRP has expired, or is removed by the local exceptions of the SLURM file.
    NoVrpLeft(Option<&'a str>, Option<Numbers>),
    /// A step after reading the files failed.
    Run(RunError),
}

impl<'a> Failure<'a> {
    /// Returns the failure of a run with the files of `input`.
    pub fn of(input: &Input<'a>, error: OriginsError) -> Failure<'a> {
        match error {
            OriginsError::Inputs(InputsError::NotOpened(index)) => {
                Failure::NotOpened(input.shown_name(index))
            }
            OriginsError::Inputs(InputsError::File(index, error)) => {
                Failure::Unexpired(input.shown_name(index), error)
            }
            OriginsError::Inputs(InputsError::Slurm(index, error)) => {
                Failure::Slurm(input.shown_name(index), error)
            }
            OriginsError::Inputs(InputsError::NoVrpLeft(all)) => {
                Failure::NoVrpLeft(input.slurm.map(shown), input.time.map(|_| all))
            }
            OriginsError::Inputs(InputsError::Memory) => Failure::Run(RunError::Memory),
            OriginsError::Run(error) => Failure::Run(error),
        }
    }
}

impl fmt::Display for Failure<'_> {
    fn fmt<W: fmt::Write>(&self, f: &mut fmt::Formatter<W>) -> fmt::Result {
        match self {
            Failure::Words => f.write_str("an argument is not UTF-8, or memory ran out"),
            Failure::NotOpened(name) => write!(f, "{name}: can't be opened"),
            Failure::Vrps(name, error) => write_not_read(f, name, error),
            Failure::Unexpired(name, error) => write_not_read(f, name, error),
            Failure::Slurm(name, error) => write_not_read(f, name, error),
            Failure::NoVrpLeft(slurm, numbers) => write_no_vrp_left(f, *slurm, *numbers),
            Failure::Run(error) => write!(f, "{error}"),
        }
    }
}

/// Writes why a file could not be read, after its name. If memory ran out, the name is left out.
fn write_not_read<W: fmt::Write, F: fmt::Display>(
    f: &mut fmt::Formatter<W>,
    name: &str,
    error: &ReadFileError<F>,
) -> fmt::Result {
    match error {
        ReadFileError::Read | ReadFileError::File(_) => write!(f, "{name}: {error}"),
        ReadFileError::Memory => f.write_str("out of memory"),
    }
}

/// Writes that no VRP is left, for example `no VRP left after slurm.json: 3 of 5 expired`. `numbers` are those of all
/// files, if a time was passed.
fn write_no_vrp_left<W: fmt::Write>(
    f: &mut fmt::Formatter<W>,
    slurm: Option<&str>,
    numbers: Option<Numbers>,
) -> fmt::Result {
    f.write_str("no VRP left")?;
    if let Some(name) = slurm {
        write!(f, " after {name}")?;
    }
    if let Some(numbers) = numbers {
        write!(f, ": {} of {} expired", numbers.expired, count_of(numbers))?;
    }
    Ok(())
}
