//! A router's table after the changes that a cache sends (RFC 8210, 5.3, 5.6 and 5.7).
ghost use Rattle.std.specs.Prelude.{◌≡◌, ◌^◌, ◌<◌, ◌≤◌, ◌⊎◌, ◌↔◌, ℕ, false, List, All, Any, IfOk, IsTrue, MatchOption, MatchResult, length, nat_le, nat_lt, slice_index_or};
ghost use Rattle.std.specs.List.Sorted.{IsPermutation};
ghost use Rattle.std.specs.Ordering.{nat_cmp};
ghost use Rattle.rpki_text.specs.Memory.{IfRefused};
ghost use Rattle.roa_origin.specs.Links.{IsInOrder};
ghost use Rattle.roa_origin.specs.Vrps.{Vrp};
ghost use Rattle.roa_origin.specs.Places.{sent_place, table_place};
ghost use Rattle.roa_origin.specs.Tables.{as_sent};
ghost use Rattle.roa_origin.specs.Updates.{AreChangesOf, AreSorted, AreUpdates, HasChangeFault, IsDuplicateAnnouncement, IsFirst, IsFirstPlace, IsLawfulChange, IsMergedOf, IsOf, IsOfBefore, IsSearched, IsSentIn, IsUnknownWithdrawal, IsUpdated, change_place, sent_change};

use crate::packed_vrp::PackedVrp;
use crate::vrp::Vrp;
use crate::vrp_table::with_max_len;
use rpki_text::memory::OrMemory;
use std::alloc::{AllocError, Allocator};
use std::cmp::Ordering;
use thiserror::Error;

/// The reason why changes don't apply to a table. A router reports it to its cache (RFC 8210, 5.11 and 12).
///
/// Withdrawals are checked first, each list in its order. The field is the index of the first faulty VRP in its list,
/// counted from 0.
#[derive(Clone, Copy, Debug, PartialEq, Eq, Error)]
pub enum ChangeFault {
    /// A withdrawn VRP isn't in the table, or is withdrawn before in the same list (RFC 8210, 12: error 6).
    #[error("withdrawal of unknown record at {0}")]
    UnknownWithdrawal(usize),
    /// An announced VRP is in the table and isn't withdrawn, or is announced before in the same list (RFC 8210, 12:
    /// error 7).
    #[error("duplicate announcement received at {0}")]
    DuplicateAnnouncement(usize),
}

/// A VRP that is announced or withdrawn, as it is sent, with its index in its list.
#[derive(Clone, Copy)]
pub(crate) struct Change {
    pub(crate) vrp: PackedVrp,
    pub(crate) place: usize,
}

impl Change {
    /// Returns the change of the VRP at an index of a list.
    fn new(vrp: &Vrp, place: usize) -> Change
        ensures vrp { result.vrp ≡ as_sent vrp.now }
        ensures place { result.place ≡ place }
        ensures lawful { IsLawfulChange result }
    {
        Change {
            vrp: PackedVrp::new(with_max_len(vrp)),
            place,
        }
    }

    /// Compares changes by their VRPs, and those of one VRP by their indices.
    fn cmp_place(&self, other: &Change) -> Ordering
        ensures { result ≡ nat_cmp (change_place self.now) (change_place other.now) }
    {
        let by_place = cmp_numbers(self.place, other.place);
        self.vrp.cmp_sent(&other.vrp).then(by_place)
    }
}

/// Compares two indices.
fn cmp_numbers(one: usize, other: usize) -> Ordering
    ensures order { result ≡ nat_cmp one other }
    ensures one { one < 2 ^ 64 }
    ensures other { other < 2 ^ 64 }
{
    one.cmp(&other)
}

/// Returns the changes of a list of VRPs, in its order.
fn listed_changes<A: Allocator>(alloc: A, vrps: &[Vrp]) -> Result<Vec<Change, A>, AllocError>
    ensures { IfOk result (λ changes. AreChangesOf vrps.now changes.items) }
{
    let mut changes = Vec::with_capacity(alloc, vrps.len())?;
    for (place, vrp) in vrps.iter().enumerate() {
        changes.push(Change::new(vrp, place))?;
    }
    Ok(changes)
}

/// Returns the changes of a list of VRPs, in the order of the VRPs.
fn sorted_changes<A: Allocator>(alloc: A, vrps: &[Vrp]) -> Result<Vec<Change, A>, AllocError>
    ensures changes { IfOk result (λ changes. AreChangesOf vrps.now changes.items) }
    ensures in_order { IfOk result (λ changes. AreSorted changes.items) }
{
    let mut changes = listed_changes(alloc, vrps)?;
    sort_changes(&mut changes);
    Ok(changes)
}

/// Sorts changes by their VRPs.
fn sort_changes<A: Allocator>(changes: &mut Vec<Change, A>)
    requires { All IsLawfulChange changes.old.items }
    ensures permutation { IsPermutation changes.old.items changes.new.items }
    ensures in_order { AreSorted changes.new.items }
{
    changes.sort_unstable_by(
        |one: &Change, other: &Change| -> Ordering
            ensures { result ≡ nat_cmp (change_place one.now) (change_place other.now) }
        { one.cmp_place(other) },
    );
}

/// Returns whether the change at index `at` is one of the VRP, compared as VRPs are sent.
fn stands_at(changes: &[Change], at: usize, vrp: &PackedVrp) -> bool
    ensures { IsTrue result ↔ ((at < length changes.now)
        × ((d : Change) → IsOf vrp.now (slice_index_or changes.now at d))) }
{
    at < changes.len() && changes[at].vrp.is_sent_as(vrp)
}

/// Returns the index of the first change whose VRP doesn't come before `vrp`, by a binary search.
fn place_of(changes: &[Change], vrp: &PackedVrp) -> usize
    requires { AreSorted changes.now }
    ensures within { result ≤ length changes.now }
    ensures searched { IsSearched sent_change changes.now (sent_place vrp.now) result }
{
    changes.partition_point(
        |change: &Change| -> bool
            ensures { result ≡ nat_lt (sent_place change.now.vrp) (sent_place vrp.entry.now) }
        { change.vrp.is_sent_before(vrp) },
    )
}

/// Returns the lowest index at which a list has the VRP, or None if the list doesn't have it, by the changes of the
/// list.
#[tactic(auto, using(crate::proofs::ChangesAsListed::first_of, crate::proofs::ChangesAsListed::none_of))]
fn first_place(changes: &[Change], vrp: &PackedVrp) -> Option<usize>
    requires { AreSorted changes.now }
    ensures { MatchOption result (All (λ change. ¬ IsOf vrp.now change) changes.now)
        (IsFirstPlace changes.now vrp.now) }
{
    let at = place_of(changes, vrp);
    if stands_at(changes, at, vrp) {
        return Some(changes[at].place);
    }
    None
}

/// Returns whether a list has the VRP before an index, by the changes of the list.
fn is_listed_before(changes: &[Change], vrp: &PackedVrp, place: usize) -> bool
    requires { AreSorted changes.now }
    ensures { IsTrue result ↔ Any (IsOfBefore vrp.now place) changes.now }
{
    match first_place(changes, vrp) {
        Some(first) => first < place,
        None => false,
    }
}

/// Returns whether a list has the VRP, by the changes of the list.
fn is_listed(changes: &[Change], vrp: &PackedVrp) -> bool
    requires { AreSorted changes.now }
    ensures { IsTrue result ↔ Any (IsOf vrp.now) changes.now }
{
    first_place(changes, vrp).is_some()
}

/// Returns the index of the first VRP of a table that, as it is sent, doesn't come before `vrp`, by a binary search.
fn place_in(table: &[PackedVrp], vrp: &PackedVrp) -> usize
    requires { IsInOrder table.now }
    ensures within { result ≤ length table.now }
    ensures searched { IsSearched sent_place table.now (sent_place vrp.now) result }
{
    table.partition_point(
        |other: &PackedVrp| -> bool
            ensures { result ≡ nat_lt (sent_place other.now) (sent_place vrp.entry.now) }
        { other.is_sent_before(vrp) },
    )
}

/// Returns whether a table has the VRP, compared as VRPs are sent.
#[tactic(auto, using(crate::proofs::SentVrps::sent_there, crate::proofs::SentVrps::same_sent))]
fn has(table: &[PackedVrp], vrp: &PackedVrp) -> bool
    requires { IsInOrder table.now }
    ensures { IsTrue result ↔ IsSentIn table.now vrp.now }
{
    let at = place_in(table, vrp);
    at < table.len() && table[at].is_sent_as(vrp)
}

/// Returns whether a table doesn't have the VRP, or the list of the changes has it before index `place`.
fn is_unknown(table: &[PackedVrp], changes: &[Change], vrp: &PackedVrp, place: usize) -> bool
    requires table { IsInOrder table.now }
    requires changes { AreSorted changes.now }
    ensures { IsTrue result ↔ ((¬ IsSentIn table.now vrp.now)
        ⊎ Any (IsOfBefore vrp.now place) changes.now) }
{
    if has(table, vrp) {
        return is_listed_before(changes, vrp, place);
    }
    true
}

/// Returns whether a table has the VRP and it isn't withdrawn, or the list of the changes has it before index `place`.
fn is_duplicate(
    table: &[PackedVrp],
    withdrawn: &[Change],
    changes: &[Change],
    vrp: &PackedVrp,
    place: usize,
) -> bool
    requires table { IsInOrder table.now }
    requires withdrawn { AreSorted withdrawn.now }
    requires changes { AreSorted changes.now }
    ensures { IsTrue result ↔ ((IsSentIn table.now vrp.now × ¬ Any (IsOf vrp.now) withdrawn.now)
        ⊎ Any (IsOfBefore vrp.now place) changes.now) }
{
    if has(table, vrp) && !is_listed(withdrawn, vrp) {
        return true;
    }
    is_listed_before(changes, vrp, place)
}

/// Returns the first index at which a VRP is withdrawn that isn't in the table, or that is withdrawn before.
fn first_unknown(table: &[PackedVrp], withdrawn: &[Vrp], changes: &[Change]) -> Option<usize>
    requires table { IsInOrder table.now }
    requires changes { AreChangesOf withdrawn.now changes.now }
    requires in_order { AreSorted changes.now }
    ensures { MatchOption result ((n : ℕ) → ¬ IsUnknownWithdrawal table.now withdrawn.now n)
        (IsFirst (IsUnknownWithdrawal table.now withdrawn.now)) }
{
    for (place, vrp) in withdrawn.iter().enumerate() {
        let packed = PackedVrp::new(*vrp);
        if is_unknown(table, changes, &packed, place) {
            return Some(place);
        }
    }
    None
}

/// Returns the first index at which a VRP is announced that is in the table and isn't withdrawn, or that is announced
/// before.
fn first_duplicate(
    table: &[PackedVrp],
    withdrawn: &[Change],
    announced: &[Vrp],
    changes: &[Change],
) -> Option<usize>
    requires table { IsInOrder table.now }
    requires withdrawn { AreSorted withdrawn.now }
    requires changes { AreChangesOf announced.now changes.now }
    requires in_order { AreSorted changes.now }
    ensures { (gone : List Vrp) → AreChangesOf gone withdrawn.now
        → MatchOption result ((n : ℕ) → ¬ IsDuplicateAnnouncement table.now announced.now gone n)
        (IsFirst (IsDuplicateAnnouncement table.now announced.now gone)) }
{
    for (place, vrp) in announced.iter().enumerate() {
        let packed = PackedVrp::new(*vrp);
        if is_duplicate(table, withdrawn, changes, &packed, place) {
            return Some(place);
        }
    }
    None
}

/// Returns whether the next VRP to list is an announced one: it comes before the table's next VRP, or the table has no
/// VRP left.
fn announced_is_next(table: &[PackedVrp], at: usize, announced: &[Change], come: usize) -> bool
    requires at { at ≤ length table.now }
    requires come { come ≤ length announced.now }
    requires some { (at < length table.now) ⊎ (come < length announced.now) }
    ensures announced { IsTrue result → (come < length announced.now) × ((d : Change) (e : Vrp) → at < length table.now
        → table_place (slice_index_or announced.now come d).vrp ≤ table_place (slice_index_or table.now at e)) }
    ensures table { result ≡ false → (at < length table.now) × ((d : Change) (e : Vrp) → come < length announced.now
        → table_place (slice_index_or table.now at e) ≤ table_place (slice_index_or announced.now come d).vrp) }
{
    if at == table.len() {
        return true;
    }
    if come == announced.len() {
        return false;
    }
    announced[come].vrp.cmp_place(&table[at]).is_lt()
}

/// Returns the first index, from `from` on, whose change is not of a VRP that comes before `vrp`.
fn passed(changes: &[Change], from: usize, vrp: &PackedVrp) -> usize
    requires from { from ≤ length changes.now }
    requires in_order { AreSorted changes.now }
    requires passed { (k : _) (d : Change) → k < from
        → sent_place (slice_index_or changes.now k d).vrp < sent_place vrp.now }
    ensures within { result ≤ length changes.now }
    ensures searched { IsSearched sent_change changes.now (sent_place vrp.now) result }
{
    let mut at = from;
    while at < changes.len() && changes[at].vrp.is_sent_before(vrp) {
        at += 1;
    }
    at
}

/// Returns the index up to which a table's VRPs, as they are sent, come before the VRP of the change at `next`.
///
/// Without such a change it is the length of the table.
fn end_before(table: &[PackedVrp], changes: &[Change], next: usize) -> usize
    requires { IsInOrder table.now }
    ensures within { result ≤ length table.now }
    ensures before { (k : _) (d : Vrp) (e : Change) → k < result → next < length changes.now
        → sent_place (slice_index_or table.now k d) < sent_change (slice_index_or changes.now next e) }
    ensures from { (k : _) (d : Vrp) (e : Change) → result ≤ k → k < length table.now
        → (next < length changes.now)
        × (sent_change (slice_index_or changes.now next e) ≤ sent_place (slice_index_or table.now k d)) }
{
    if next < changes.len() {
        return place_in(table, &changes[next].vrp);
    }
    table.len()
}

/// Returns how many of a table's VRPs come no later than another VRP, by a binary search.
fn count_up_to(table: &[PackedVrp], vrp: &PackedVrp) -> usize
    requires { IsInOrder table.now }
    ensures within { result ≤ length table.now }
    ensures up_to { (k : _) (d : Vrp) → k < result
        → table_place (slice_index_or table.now k d) ≤ table_place vrp.now }
    ensures later { (k : _) (d : Vrp) → result ≤ k → k < length table.now
        → table_place vrp.now < table_place (slice_index_or table.now k d) }
{
    table.partition_point(
        |other: &PackedVrp| -> bool
            ensures { result ≡ nat_le (table_place other.now) (table_place vrp.entry.now) }
        { other.is_up_to(vrp) },
    )
}

/// Returns the index up to which a table's VRPs come no later than the VRP of the change at `next`.
///
/// Without such a change it is the length of the table.
fn end_up_to(table: &[PackedVrp], changes: &[Change], next: usize) -> usize
    requires { IsInOrder table.now }
    ensures within { result ≤ length table.now }
    ensures up_to { (k : _) (d : Vrp) (e : Change) → k < result → next < length changes.now
        → table_place (slice_index_or table.now k d) ≤ table_place (slice_index_or changes.now next e).vrp }
    ensures later { (k : _) (d : Vrp) (e : Change) → result ≤ k → k < length table.now
        → (next < length changes.now)
        × (table_place (slice_index_or changes.now next e).vrp < table_place (slice_index_or table.now k d)) }
{
    if next < changes.len() {
        return count_up_to(table, &changes[next].vrp);
    }
    table.len()
}

/// Returns the index up to which a table's VRPs, from index `at` on, stay and are next to be listed. They come before
/// the next withdrawn VRP, and no later than the next announced one.
fn run_end(
    table: &[PackedVrp],
    at: usize,
    withdrawn: &[Change],
    gone: usize,
    announced: &[Change],
    come: usize,
) -> usize
    requires table { IsInOrder table.now }
    requires at { at < length table.now }
    requires before { (d : Vrp) (e : Change) → gone < length withdrawn.now
        → sent_place (slice_index_or table.now at d) < sent_change (slice_index_or withdrawn.now gone e) }
    requires up_to { (d : Vrp) (e : Change) → come < length announced.now
        → table_place (slice_index_or table.now at d) ≤ table_place (slice_index_or announced.now come e).vrp }
    ensures some { at < result }
    ensures within { result ≤ length table.now }
    ensures before { (k : _) (d : Vrp) (e : Change) → k < result → gone < length withdrawn.now
        → sent_place (slice_index_or table.now k d) < sent_change (slice_index_or withdrawn.now gone e) }
    ensures up_to { (k : _) (d : Vrp) (e : Change) → k < result → come < length announced.now
        → table_place (slice_index_or table.now k d) ≤ table_place (slice_index_or announced.now come e).vrp }
{
    let before = end_before(table, withdrawn, gone);
    let up_to = end_up_to(table, announced, come);
    before.min(up_to)
}

/// Returns the VRPs of a table that aren't withdrawn, and the announced VRPs, in a table's order.
///
/// The call makes one pass over the changes, and copies the VRPs between them as whole runs.
fn updated<A: Allocator>(
    alloc: A,
    table: &[PackedVrp],
    withdrawn: &[Change],
    announced: &[Change],
) -> Result<Vec<PackedVrp, A>, AllocError>
    requires table { IsInOrder table.now }
    requires withdrawn { AreSorted withdrawn.now }
    requires announced { AreSorted announced.now }
    ensures in_order { IfOk result (λ next. IsInOrder next.items) }
    ensures updated { IfOk result (λ next. IsMergedOf table.now withdrawn.now announced.now next.items) }
{
    let mut next = Vec::with_capacity(alloc, table.len() + announced.len())?;
    let mut at = 0;
    let mut gone = 0;
    let mut come = 0;
    while at < table.len() || come < announced.len() {
        if announced_is_next(table, at, announced, come) {
            next.push(announced[come].vrp)?;
            come += 1;
        } else {
            let vrp = &table[at];
            gone = passed(withdrawn, gone, vrp);
            if stands_at(withdrawn, gone, vrp) {
                at += 1;
            } else {
                let end = run_end(table, at, withdrawn, gone, announced, come);
                next.extend_from_slice(&table[at..end])?;
                at = end;
            }
        }
    }
    Ok(next)
}

/// Returns the VRPs of a table after changes, in a table's order, or the first fault of the changes.
pub(crate) fn after_changes<A: Allocator>(
    alloc: A,
    table: &[PackedVrp],
    announced: &[Vrp],
    withdrawn: &[Vrp],
) -> Result<Vec<PackedVrp, A>, OrMemory<ChangeFault>>
where
    A: Copy,
    requires { IsInOrder table.now }
    ensures in_order { IfOk result (λ next. IsInOrder next.items) }
    ensures updated { IfOk result (λ next. IsUpdated table.now announced.now withdrawn.now next.items) }
    ensures faults { MatchResult result (λ _. AreUpdates table.now announced.now withdrawn.now)
        (IfRefused (HasChangeFault table.now announced.now withdrawn.now)) }
{
    let gone = sorted_changes(alloc, withdrawn)?;
    if let Some(place) = first_unknown(table, withdrawn, gone.as_slice()) {
        return Err(OrMemory::Refused(ChangeFault::UnknownWithdrawal(place)));
    }
    let come = sorted_changes(alloc, announced)?;
    if let Some(place) = first_duplicate(table, gone.as_slice(), announced, come.as_slice()) {
        return Err(OrMemory::Refused(ChangeFault::DuplicateAnnouncement(place)));
    }
    let next = updated(alloc, table, gone.as_slice(), come.as_slice())?;
    Ok(next)
}
