//! The VRPs that are announced and withdrawn from one table to the next.
ghost use Rattle.std.specs.Prelude.{◌≡◌, ◌≤◌, ◌<◌, ◌≢◌, ◌↔◌, IsTrue, IfOk, length, slice_index_or};
ghost use Rattle.std.specs.declared.cmp.Ordering.TheVariants.{Less};
ghost use Rattle.roa_origin.specs.Vrps.{Vrp};
ghost use Rattle.roa_origin.specs.Changes.{AreVrpChanges};
ghost use Rattle.roa_origin.specs.Tables.{IsAscending, IsWithout, vrp_cmp};

use crate::vrp::Vrp;
use crate::vrp_table::VrpTable;
use std::alloc::{AllocError, Allocator, Global};

/// The VRPs that a cache announces and withdraws from one table to the next (RFC 8210, 5.6 and 8.2).
#[derive(Drop)]
#[derive_where(Debug)]
pub struct VrpChanges<A: Allocator = Global> {
    /// The VRPs that are in the next table and not in the previous one.
    pub announced: VrpTable<A>,
    /// The VRPs that are in the previous table and not in the next one.
    pub withdrawn: VrpTable<A>,
}

impl<A: Allocator> VrpTable<A> {
    /// Returns the VRPs to announce and to withdraw from this table to `next`, both ascending (RFC 8210, 5.6 and 8.2).
    ///
    /// The call makes two passes over each table. It finds the changes between two tables, as a cache does.
    /// [`crate::OriginTable::with_changes`] applies changes to a table, as a router does. [`crate::changed_routes`]
    /// finds the routes whose validity differs.
    ///
    /// # Errors
    ///
    /// [`AllocError`] if an allocation for the two lists fails.
    pub fn changes_to(&self, alloc: A, next: &VrpTable<A>) -> Result<VrpChanges<A>, AllocError>
    where
        A: Copy,
        ensures { IfOk result (AreVrpChanges self.now next.now) }
    {
        let announced = without(alloc, next, self)?;
        let withdrawn = without(alloc, self, next)?;
        Ok(VrpChanges {
            announced,
            withdrawn,
        })
    }
}

/// Returns the table of the VRPs of `one` that `other` doesn't have.
fn without<A: Allocator>(
    alloc: A,
    one: &VrpTable<A>,
    other: &VrpTable<A>,
) -> Result<VrpTable<A>, AllocError>
    ensures { IfOk result (IsWithout one.now other.now) }
{
    let left = left_of(alloc, one.as_slice(), other.as_slice())?;
    Ok(VrpTable::of(left))
}

/// Returns the VRPs of `one` that `other` doesn't have, in one pass over both. Both are ascending.
///
/// A VRP of `other` that is less than a VRP of `one` is less than all later VRPs of `one`.
fn left_of<A: Allocator>(alloc: A, one: &[Vrp], other: &[Vrp]) -> Result<Vec<Vrp, A>, AllocError>
    requires one { IsAscending one.now }
    requires other { IsAscending other.now }
    ensures { IfOk result (λ left. IsWithout one.now other.now left.items) }
{
    let mut left = Vec::new(alloc);
    let mut at = 0;
    for vrp in one {
        at = not_less(other, at, vrp);
        if !stands_at(other, at, vrp) {
            left.push(*vrp)?;
        }
    }
    Ok(left)
}

/// Returns the first index, from `from` on, whose VRP isn't less than `vrp`, or the length of the list.
fn not_less(vrps: &[Vrp], from: usize, vrp: &Vrp) -> usize
    requires { from ≤ length vrps.now }
    ensures behind { from ≤ result }
    ensures within { result ≤ length vrps.now }
    ensures less { (k : _) (d : Vrp) → from ≤ k → k < result
        → vrp_cmp (slice_index_or vrps.now k d) vrp.now ≡ Less }
    ensures not_less { (d : Vrp) → result < length vrps.now
        → vrp_cmp (slice_index_or vrps.now result d) vrp.now ≢ Less }
{
    let mut at = from;
    while at < vrps.len() && vrps[at].cmp(vrp).is_lt() {
        at += 1;
    }
    at
}

/// Returns whether `vrp` is the VRP at index `at`.
#[tactic(auto, using(crate::proofs::VrpOrder::equal_of, crate::proofs::VrpOrder::ties))]
fn stands_at(vrps: &[Vrp], at: usize, vrp: &Vrp) -> bool
    ensures { IsTrue result ↔ ((at < length vrps.now)
        × (slice_index_or vrps.now at vrp.now ≡ vrp.now)) }
{
    at < vrps.len() && vrps[at].cmp(vrp).is_eq()
}
