//! The changes for a holder of resources.
ghost use Rattle.std.specs.Prelude.{◌≡◌, ℕ, List, Some, IfOk};
ghost use Rattle.std.specs.String.{string_bytes};
ghost use Rattle.rpki_resources.specs.TripleText.{changes_text};
ghost use Rattle.rpki_resources.specs.Triples.{AreChanges, Changes};
ghost use Rattle.example_holdings.specs.Changes.{LeadsTo};

use rpki_resources::laws::laws_of_changes;
use rpki_resources::repository::resources::{ResourceDiff, ResourceSet};
use std::alloc::{AllocError, Allocator};
use std::fmt;

/// Returns the text of the changes from `had` to `gets`, the resources of a holder before and after.
///
/// # Errors
///
/// [`AllocError`] if an allocation fails.
pub fn printed<A: Allocator + Copy>(
    alloc: A,
    had: &ResourceSet<A>,
    gets: &ResourceSet<A>,
) -> Result<String<A>, AllocError>
    ensures { IfOk result (λ text. (changes : Changes) × AreChanges gets.now had.now changes
        × LeadsTo had.now changes gets.now × (string_bytes text ≡ changes_text changes)) }
{
    text(alloc, between(alloc, had, gets)?)
}

/// Returns the resources that are added and removed if a holder of `had` gets `gets`.
///
/// # Errors
///
/// [`AllocError`] if an allocation fails.
fn between<A: Allocator + Copy>(
    alloc: A,
    had: &ResourceSet<A>,
    gets: &ResourceSet<A>,
) -> Result<ResourceDiff<A>, AllocError>
    ensures changes { IfOk result (AreChanges gets.now had.now) }
    ensures leads { IfOk result (λ changes. LeadsTo had.now changes gets.now) }
{
    gets.recall_invariant();
    laws_of_changes();
    gets.difference(alloc, had)
}

/// Returns the printed text of a value.
fn text<T: fmt::Display + Drop, A: Allocator>(alloc: A, value: T) -> Result<String<A>, AllocError>
    ensures { (written : List ℕ) → T.output value ≡ Some written
        → IfOk result (λ text. string_bytes text ≡ written) }
{
    format!(in alloc; "{value}")
}
