//! Separates a refusal from an out-of-memory error.
ghost use Rattle.std.specs.Prelude.{IfOk, MatchOption};
ghost use Rattle.rpki_chain.specs.Runs.{Runs};
ghost use Rattle.rpki_as.specs.ListText.{HasAsListFault, IsAsListText};

use rpki_resources::OrMemory;
use rpki_resources::repository::resources::AsBlocks;
use rpki_resources::repository::resources::asres::FromStrError;
use std::alloc::{AllocError, Allocator};

/// Returns the fault of a list of AS blocks, or None if the list is valid.
///
/// # Errors
///
/// [`AllocError`] if an allocation fails.
pub fn fault_of<A: Allocator + Copy>(
    alloc: A,
    list: &str,
) -> Result<Option<FromStrError>, AllocError>
    ensures { IfOk result (λ fault.
        MatchOption fault ((set : Runs) × IsAsListText list.now set) (HasAsListFault list.now)) }
{
    match AsBlocks::from_str(alloc, list) {
        Ok(_) => Ok(None),
        Err(OrMemory::Refused(fault)) => Ok(Some(fault)),
        Err(OrMemory::Memory(error)) => Err(error),
    }
}
