//! Sorts the VRPs of a table. VRPs that are nearly in a table's order take one pass.
ghost use Rattle.std.specs.Prelude.{◌≡◌, ◌+◌, ◌<◌, ◌≤◌, All, IsTrue, length};
ghost use Rattle.std.specs.List.Sorted.{IsNonDecreasingBy, IsPermutation};
ghost use Rattle.std.specs.Ordering.{nat_cmp};
ghost use Rattle.roa_origin.specs.Insertions.{RisesTo};
ghost use Rattle.roa_origin.specs.Links.{IsInOrder};
ghost use Rattle.roa_origin.specs.Places.{table_place};
ghost use Rattle.roa_origin.specs.Vrps.{IsLawfulVrp};

use crate::packed_vrp::PackedVrp;
use std::alloc::Allocator;
use std::cmp::Ordering;

/// How many VRPs a VRP passes at most in [`sort_nearly`], on average.
const FEW: usize = 4;

/// Moves the VRP at index `at` to its place among the VRPs before it, which are in order. Returns the index of that
/// place.
fn insert(vrps: &mut [PackedVrp], at: usize) -> usize
    requires within { at < length vrps.old }
    requires ordered { RisesTo at vrps.old }
    ensures permutation { IsPermutation vrps.old vrps.new }
    ensures ordered { RisesTo (at + 1) vrps.new }
    ensures place { result ≤ at }
{
    let mut place = at;
    while place > 0 {
        if vrps[place - 1].is_up_to(&vrps[place]) {
            return place;
        }
        vrps.swap(place - 1, place);
        place -= 1;
    }
    0
}

/// Sorts VRPs that are nearly in a table's order, and returns whether they are in order then.
///
/// The call moves each VRP to its place among the VRPs before it. A VRP then passes the VRPs between its two places.
/// The call gives up as soon as the VRPs pass more than [`FEW`] others on average.
///
/// Validators write VRPs in such orders. In some files the VRPs of one prefix are in another order than in a table. In
/// others a prefix comes after the longer prefixes in it.
#[tactic(auto, using(crate::proofs::Insertions::moved_on))]
fn sort_nearly(vrps: &mut [PackedVrp]) -> bool
    ensures permutation { IsPermutation vrps.old vrps.new }
    ensures ordered { IsTrue result → IsNonDecreasingBy table_place vrps.new }
{
    let mut left: usize = 0;
    for at in 1..vrps.len() {
        let place = insert(vrps, at);
        let passed = at - place;
        left = left.saturating_add(FEW);
        if passed > left {
            return false;
        }
        left -= passed;
    }
    true
}

/// Sorts VRPs in any order into a table's order.
fn sort_any(vrps: &mut [PackedVrp])
    ensures permutation { IsPermutation vrps.old vrps.new }
    ensures ordered { IsNonDecreasingBy table_place vrps.new }
{
    vrps.sort_unstable_by(
        |one: &PackedVrp, other: &PackedVrp| -> Ordering
            ensures { result ≡ nat_cmp (table_place one.now) (table_place other.now) }
        { one.cmp_place(other) },
    );
}

/// Sorts VRPs into a table's order.
#[tactic(auto, using(crate::proofs::Insertions::moved_on))]
fn sort_slice(vrps: &mut [PackedVrp])
    ensures permutation { IsPermutation vrps.old vrps.new }
    ensures ordered { IsNonDecreasingBy table_place vrps.new }
{
    if sort_nearly(vrps) {
        return;
    }
    sort_any(vrps);
}

/// Sorts VRPs into the table's order.
pub(crate) fn sort<A: Allocator>(vrps: &mut Vec<PackedVrp, A>)
    requires { All IsLawfulVrp vrps.old.items }
    ensures permutation { IsPermutation vrps.old.items vrps.new.items }
    ensures in_order { IsInOrder vrps.new.items }
{
    sort_slice(vrps.as_mut_slice());
}
