//! Turns a set of addresses into the fewest prefixes, for route origin authorizations and router filters.
ghost use Rattle.std.specs.Prelude.{IfOk};
ghost use Rattle.rpki_chain.specs.Runs.{Holds};
ghost use Rattle.rpki_cover.specs.Covers.{IsShortestCover, IsV4CoverList};
ghost use Rattle.rpki_family.specs.Families.{Ipv4Of};

use rpki_resources::repository::resources::{Ipv4Blocks, Prefix};
use std::alloc::{AllocError, Allocator};

/// Returns the fewest prefixes that have exactly the addresses of a set of IPv4, ascending.
///
/// Their lengths are at most 32.
///
/// # Errors
///
/// [`AllocError`] if an allocation fails.
pub fn v4_filter<A: Allocator>(alloc: A, set: &Ipv4Blocks<A>) -> Result<Vec<Prefix, A>, AllocError>
    ensures cover { IfOk result (λ list. IsShortestCover 128 (Holds set.now) list.items) }
    ensures v4 { IfOk result (λ list. IsV4CoverList (Ipv4Of set.now) list.items) }
{
    let mut list = Vec::new(alloc);
    for prefix in set.prefixes() {
        list.push(prefix)?;
    }
    Ok(list)
}
