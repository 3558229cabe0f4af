//! The changes between two sets of resources.
ghost use Rattle.std.specs.Prelude.{◌≡◌, ◌↔◌, IsTrue, IfOk, Ok, Err, MatchResult};
ghost use Rattle.rpki_resources.specs.Triples.{Changes, are_same_changes, no_changes};
ghost use Rattle.rpki_resources.specs.TripleLaws.{changes_equiv, changes_per};

use crate::set::ResourceSet;
use std::alloc::{AllocError, Allocator, Global};
use std::fmt;
use std::marker::Model;

/// The changes between two sets: the resources that only the first one has, and those that only the second one has.
#[derive(Drop)]
pub struct ResourceDiff<A: Allocator = Global> {
    added: ResourceSet<A>,
    removed: ResourceSet<A>,
}

impl<A: Allocator> Model for ResourceDiff<A> {
    ghost use Rattle.rpki_resources.specs.Triples.{Changes};

    ghost Value = { Changes };

    ghost view = { λ d. record { added = d.added; removed = d.removed } };
}

impl<A: Allocator> ResourceDiff<A> {
    /// Returns the changes of added and removed resources, or the error of `removed`.
    pub(crate) fn of_two(
        added: ResourceSet<A>,
        removed: Result<ResourceSet<A>, AllocError>,
    ) -> Result<ResourceDiff<A>, AllocError>
        ensures { MatchResult removed (λ set. result ≡ Ok (record { added = added; removed = set }))
            (λ error. result ≡ Err error) }
    {
        match removed {
            Ok(removed) => Ok(ResourceDiff { added, removed }),
            Err(error) => Err(error),
        }
    }

    /// Returns whether nothing is added and nothing is removed.
    pub fn is_empty(&self) -> bool
        ensures { IsTrue result ↔ (self.now ≡ no_changes) }
    {
        self.added.is_empty() && self.removed.is_empty()
    }

    /// Returns the resources of the first set that the second one doesn't have.
    pub fn added(&self) -> &ResourceSet<A>
        ensures { result.now ≡ self.now.added }
    {
        &self.added
    }

    /// Returns the resources of the second set that the first one doesn't have.
    pub fn removed(&self) -> &ResourceSet<A>
        ensures { result.now ≡ self.now.removed }
    {
        &self.removed
    }

    /// Returns the same changes, which share the memory of `self` (reference count + 1 for each set).
    ///
    /// # Errors
    ///
    /// [`AllocError`] if `std` refuses an additional reference.
    pub fn clone(&self) -> Result<ResourceDiff<A>, AllocError>
        ensures { IfOk result (λ diff. diff ≡ self.now) }
    {
        let added = self.added.clone()?;
        ResourceDiff::of_two(added, self.removed.clone())
    }
}

impl<A: Allocator> fmt::Debug for ResourceDiff<A> {
    fn fmt<W: fmt::Write>(&self, f: &mut fmt::Formatter<W>) -> fmt::Result {
        f.debug_struct("ResourceDiff")
            .field("added", &self.added)
            .field("removed", &self.removed)
            .finish()
    }
}

/// Changes are equal if and only if they add the same resources and remove the same resources.
impl<A: Allocator> PartialEq for ResourceDiff<A> {
    ghost eq = { are_same_changes };

    ghost laws = { changes_per };

    fn eq(&self, other: &ResourceDiff<A>) -> bool
        ensures value { result ≡ are_same_changes self.now other.now }
        ensures same { IsTrue result ↔ (self.now ≡ other.now) }
    {
        self.added == other.added && self.removed == other.removed
    }
}

impl<A: Allocator> Eq for ResourceDiff<A> {
    ghost laws = { changes_equiv };
}
