//! Indices at which a search in a table begins: those of the first VRPs whose addresses have the same first bits.
ghost use Rattle.std.specs.Prelude.{◌^◌, ◌<◌, ◌≤◌, IfOk, length, slice_index_or};
ghost use Rattle.std.specs.List.Sorted.{IsNonDecreasingBy};
ghost use Rattle.roa_origin.specs.Links.{AreFamilyPrefixes};
ghost use Rattle.roa_origin.specs.Vrps.{Vrp};
ghost use Rattle.roa_origin.specs.Places.{vrp_place};
ghost use Rattle.roa_origin.specs.Starts.{AreStarts, IsStart, first_bits};

use crate::packed_vrp::PackedVrp;
use std::alloc::{AllocError, Allocator};

/// Returns how many first bits the starts for this many VRPs use, 1 to 20.
///
/// There is about one start for two or three VRPs, and there are at most a million starts for each family.
pub(crate) fn bits_for(vrps: usize) -> u8
    ensures some { 1 ≤ result }
    ensures few { result ≤ 20 }
{
    let mut bits = 1;
    while bits < 20 && (vrps >> (bits + 2)) > 0 {
        bits += 1;
    }
    bits
}

/// Returns the index of the first VRP whose first `bits` bits write `number` or more, or the length of the list.
///
/// # Preconditions
///
/// `bits` is 1 to 20. The bits of the VRPs before index `from` write less than `number`.
fn start_from(vrps: &[PackedVrp], bits: u8, number: usize, from: usize) -> usize
    requires ordered { IsNonDecreasingBy vrp_place vrps.now }
    requires prefixes { AreFamilyPrefixes vrps.now (length vrps.now) }
    requires some { 1 ≤ bits }
    requires few { bits ≤ 20 }
    requires from { from ≤ length vrps.now }
    requires before { (k : _) (d : Vrp) → k < from
        → first_bits bits (slice_index_or vrps.now k d).0.prefix < number }
    ensures { IsStart bits vrps.now number result }
{
    let mut at = from;
    while at < vrps.len() && vrps[at].route_key().first_bits(bits) < number {
        at += 1;
    }
    at
}

/// Returns the starts of all numbers that the first bits of an address write, and the end, in one pass over the VRPs.
///
/// # Errors
///
/// [`AllocError`] if an allocation fails.
pub(crate) fn starts<A: Allocator>(
    alloc: A,
    vrps: &[PackedVrp],
    bits: u8,
) -> Result<Vec<u32, A>, AllocError>
    requires ordered { IsNonDecreasingBy vrp_place vrps.now }
    requires prefixes { AreFamilyPrefixes vrps.now (length vrps.now) }
    requires vrps { length vrps.now < 2 ^ 32 }
    requires some { 1 ≤ bits }
    requires few { bits ≤ 20 }
    ensures { IfOk result (λ starts. AreStarts bits vrps.now starts.items) }
{
    let numbers = (2 << bits) + 1;
    let mut starts = Vec::with_capacity(alloc, numbers)?;
    let mut at = 0;
    for number in 0..numbers {
        at = start_from(vrps, bits, number, at);
        starts.push(at as u32)?;
    }
    Ok(starts)
}
