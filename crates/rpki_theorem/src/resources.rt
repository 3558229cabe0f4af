//! Operations and changes of sets of resources of all three kinds.
ghost use Rattle.std.specs.Prelude.{◌≡◌, ◌↔◌, IfOk, IsTrue};
ghost use Rattle.rpki_resources.specs.Triples.{AreChanges, HasEachOf, IsDifferenceOf, IsIntersectionOf, IsUnionOf, Triple};

use rpki_resources::laws::laws_of_changes;
use rpki_resources::{ResourceDiff, ResourceSet};
use std::alloc::{AllocError, Allocator};

/// Returns the union, the intersection and the difference of two sets, and whether the first contains the second.
///
/// # Errors
///
/// [`AllocError`]: out of memory.
pub fn operations<A: Allocator + Copy>(
    alloc: A,
    a: &ResourceSet<A>,
    b: &ResourceSet<A>,
) -> Result<(ResourceSet<A>, ResourceSet<A>, ResourceSet<A>, bool), AllocError>
    ensures union { IfOk result (λ made. IsUnionOf a.now b.now made.0) }
    ensures intersection { IfOk result (λ made. IsIntersectionOf a.now b.now made.1) }
    ensures difference { IfOk result (λ made. IsDifferenceOf a.now b.now made.2) }
    ensures contains { IfOk result (λ made. IsTrue made.3 ↔ HasEachOf a.now b.now) }
{
    let union = a.union(alloc, b)?;
    let intersection = a.intersection(alloc, b)?;
    let difference = a.minus(alloc, b)?;
    let contains = a.contains(b);
    Ok((union, intersection, difference, contains))
}

/// Returns the changes from `b` to `a`, and `b` after them.
///
/// # Errors
///
/// [`AllocError`]: out of memory.
pub fn restored<A: Allocator + Copy>(
    alloc: A,
    a: &ResourceSet<A>,
    b: &ResourceSet<A>,
) -> Result<(ResourceDiff<A>, ResourceSet<A>), AllocError>
    ensures changes { IfOk result (λ made. AreChanges a.now b.now made.0) }
    ensures restored { IfOk result (λ made. made.1 ≡ a.now) }
{
    laws_of_changes(); // so that the proof sees that changes lead from the second set to the first
    a.recall_invariant();
    let changes = a.difference(alloc, b)?;
    let set = changed(alloc, b, changes.removed(), changes.added())?;
    Ok((changes, set))
}

/// Returns the changes from `b` to `a`, and `a` after them in the opposite direction.
///
/// # Errors
///
/// [`AllocError`]: out of memory.
pub fn undone<A: Allocator + Copy>(
    alloc: A,
    a: &ResourceSet<A>,
    b: &ResourceSet<A>,
) -> Result<(ResourceDiff<A>, ResourceSet<A>), AllocError>
    ensures changes { IfOk result (λ made. AreChanges a.now b.now made.0) }
    ensures undone { IfOk result (λ made. made.1 ≡ b.now) }
{
    laws_of_changes(); // so that the proof sees that exchanged changes lead back
    b.recall_invariant();
    let diff = a.difference(alloc, b)?;
    let set = changed(alloc, a, diff.added(), diff.removed())?;
    Ok((diff, set))
}

/// Returns a set without some resources and with others.
fn changed<A: Allocator + Copy>(
    alloc: A,
    set: &ResourceSet<A>,
    without: &ResourceSet<A>,
    with: &ResourceSet<A>,
) -> Result<ResourceSet<A>, AllocError>
    ensures { IfOk result (λ made. (kept : Triple) × IsDifferenceOf set.now without.now kept
        × IsUnionOf kept with.now made) }
{
    let kept = set.minus(alloc, without)?;
    kept.union(alloc, with)
}
