//! The error messages of the program.
use lines_engine::error::RunError;
use std::fmt;

/// The reason why the lines of a file, or all lines, are not answered.
#[derive(Clone, Copy, Debug)]
pub enum Failure<'a> {
    /// A command-line argument is not UTF-8, or memory ran out.
    Words,
    /// A file can't be opened.
    NotOpened(&'a str),
    /// A run over a file failed; None for the standard input.
    Run(Option<&'a str>, RunError),
}

impl Failure<'_> {
    /// Returns whether no other file can be answered after this failure: the standard output failed.
    pub fn is_of_output(&self) -> bool {
        matches!(self, Failure::Run(_, RunError::Write))
    }
}

impl fmt::Display for Failure<'_> {
    fn fmt<W: fmt::Write>(&self, f: &mut fmt::Formatter<W>) -> fmt::Result {
        match self {
            Failure::Words => f.write_str("an argument is not UTF-8, or memory ran out"),
            Failure::NotOpened(name) => write!(f, "{name}: can't be opened"),
            Failure::Run(_, RunError::Write) => f.write_str("write failed"),
            Failure::Run(Some(name), error) => write!(f, "{name}: {error}"),
            Failure::Run(None, error) => write!(f, "{error}"),
        }
    }
}
