//! The changes that a router receives to get from one table of VRPs to the next.
use crate::elements;
use crate::vrps::listed;
use roa_origin::{Vrp, VrpTable};
use std::alloc::{AllocError, Allocator};
use test_support::print::cut_at;

/// Answers `sent PREFIX[-MAX] AS | .. ; PREFIX[-MAX] AS | ..`.
pub fn answer<A: Allocator + Copy>(alloc: A, operands: &str) -> Result<String<A>, AllocError> {
    let (sent, next) = cut_at(operands, ';');
    match table(alloc, sent)? {
        Some(sent) => changes_from(alloc, &sent, next),
        None => String::from_str(alloc, "no such VRP"),
    }
}

/// Returns the table of a list, or `None` if an element is not a VRP.
fn table<A: Allocator + Copy>(alloc: A, list: &str) -> Result<Option<VrpTable<A>>, AllocError> {
    match elements::read::<Vrp, A>(alloc, list)? {
        Some(vrps) => Ok(Some(VrpTable::new(alloc, &vrps)?)),
        None => Ok(None),
    }
}

fn changes_from<A: Allocator + Copy>(
    alloc: A,
    sent: &VrpTable<A>,
    next: &str,
) -> Result<String<A>, AllocError> {
    match table(alloc, next)? {
        Some(next) => changes_between(alloc, sent, &next),
        None => String::from_str(alloc, "no such VRP"),
    }
}

fn changes_between<A: Allocator + Copy>(
    alloc: A,
    sent: &VrpTable<A>,
    next: &VrpTable<A>,
) -> Result<String<A>, AllocError> {
    let changes = sent.changes_to(alloc, next)?;
    changes_text(
        alloc,
        changes.announced.as_slice(),
        changes.withdrawn.as_slice(),
    )
}

fn changes_text<A: Allocator + Copy>(
    alloc: A,
    announced: &[Vrp],
    withdrawn: &[Vrp],
) -> Result<String<A>, AllocError> {
    let announced = listed(alloc, announced)?;
    let withdrawn = listed(alloc, withdrawn)?;
    format!(in alloc; "announced {announced} withdrawn {withdrawn}")
}
