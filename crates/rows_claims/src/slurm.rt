//! VRPs after the filters and assertions of a SLURM file.
use crate::elements;
use crate::vrps::{listed, with_line_ends};
use roa_origin::Vrp;
use roa_slurm::read_slurm;
use std::alloc::{AllocError, Allocator};
use test_support::print::{cut_at, refused};

/// Answers `slurm PREFIX[-MAX] AS | .. ; TEXT`. In the text `|` is the end of a line.
pub fn answer<A: Allocator + Copy>(alloc: A, operands: &str) -> Result<String<A>, AllocError> {
    let (list, text) = cut_at(operands, ';');
    match elements::read::<Vrp, A>(alloc, list)? {
        Some(vrps) => applied(alloc, &vrps, text),
        None => String::from_str(alloc, "no such VRP"),
    }
}

fn applied<A: Allocator + Copy>(
    alloc: A,
    vrps: &[Vrp],
    text: &str,
) -> Result<String<A>, AllocError> {
    let file = with_line_ends(alloc, text)?;
    match read_slurm(alloc, &file) {
        Ok(slurm) => listed(alloc, &slurm.apply(alloc, vrps)?),
        Err(fault) => refused(alloc, fault),
    }
}
