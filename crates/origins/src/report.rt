//! The numbers of VRPs that the program reports.
use crate::options::{Input, shown};
use origins_lines::file::Numbers;
use origins_lines::inputs::Report;
use std::fmt;

/// A number of VRPs, printed as `1 VRP` or `2 VRPs`.
#[derive(Clone, Copy, Debug)]
pub struct Counted(pub usize);

impl fmt::Display for Counted {
    fn fmt<W: fmt::Write>(&self, f: &mut fmt::Formatter<W>) -> fmt::Result {
        match self.0 {
            1 => f.write_str("1 VRP"),
            count => write!(f, "{count} VRPs"),
        }
    }
}

/// Returns the number of the VRPs of files, with the expired ones.
pub fn count_of(numbers: Numbers) -> usize {
    numbers.unexpired.saturating_add(numbers.expired)
}

/// The numbers of VRPs that were read and used, printed as
/// `3 VRPs: 1 in a.csv, 2 in b.csv; 1 expired; 4 after slurm.json`.
///
/// The files are left out if there is one, the number of expired VRPs if no time was passed, and the last part if there
/// is no SLURM file.
#[derive(Drop)]
pub struct Summary<'input, 'names, 'report> {
    /// The files.
    pub input: &'input Input<'names>,
    /// The numbers.
    pub report: &'report Report,
}

impl fmt::Display for Summary<'_, '_, '_> {
    fn fmt<W: fmt::Write>(&self, f: &mut fmt::Formatter<W>) -> fmt::Result {
        write!(f, "{}", Counted(count_of(self.report.all)))?;
        if self.report.files.len() > 1 {
            let mut separator = ": ";
            for (index, numbers) in self.report.files.iter().enumerate() {
                let count = count_of(*numbers);
                write!(f, "{separator}{count} in {}", self.input.shown_name(index))?;
                separator = ", ";
            }
        }
        if self.input.time.is_some() {
            write!(f, "; {} expired", self.report.all.expired)?;
        }
        if let Some(name) = self.input.slurm {
            write!(f, "; {} after {}", self.report.used, shown(name))?;
        }
        Ok(())
    }
}
