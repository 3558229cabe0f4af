//! Joins sets.
ghost use Rattle.std.specs.Prelude.{◌⊎◌, IfOk};
ghost use Rattle.rpki_chain.specs.Runs.{Holds, IsRunsOf};

use rpki_resources::repository::resources::Ipv4Blocks;
use std::alloc::{AllocError, Allocator};

/// Returns the union of three sets of IPv4 addresses.
///
/// # Errors
///
/// [`AllocError`] if an allocation fails.
pub fn union_of_three<A: Allocator + Copy>(
    alloc: A,
    one: &Ipv4Blocks<A>,
    two: &Ipv4Blocks<A>,
    three: &Ipv4Blocks<A>,
) -> Result<Ipv4Blocks<A>, AllocError>
    ensures { IfOk result
        (IsRunsOf (λ n. (Holds one.now n ⊎ Holds two.now n) ⊎ Holds three.now n)) }
{
    let both = one.union(alloc, two)?;
    both.union(alloc, three)
}
