//! Lemmas about the results of calls on sets of resources. Each lemma holds for any results that meet the calls'
//! contracts.
ghost use Rattle.std.specs.Prelude.{◌≡◌, ◌↔◌};
ghost use Rattle.rpki_resources.specs.Triples.{AreChanges, Changes, IsDifferenceOf, IsTriple, IsUnionOf, Triple, no_changes};

/// States that the changes between two sets lead from the second set to the first.
///
/// - The second set without the removed resources, and with the added ones, is the first set.
/// - In the opposite direction, added and removed resources are exchanged.
/// - Nothing changes if and only if the sets are equal.
pub fn laws_of_changes()
    ensures restores { (a b : Triple) (d : Changes) (kept set : Triple) → IsTriple a
        → AreChanges a b d →
        IsDifferenceOf b d.removed kept → IsUnionOf kept d.added set → set ≡ a }
    ensures exchanged { (a b : Triple) (d e : Changes) → AreChanges a b d → AreChanges b a e →
        e ≡ record { added = d.removed; removed = d.added } }
    ensures none { (a b : Triple) (d : Changes) → IsTriple a → IsTriple b → AreChanges a b d →
        (d ≡ no_changes) ↔ (a ≡ b) }
{}
