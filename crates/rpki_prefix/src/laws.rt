//! Lemmas for callers about several calls. Each is the contract of a function that does nothing when it runs.
ghost use Rattle.std.specs.Prelude.{◌≡◌, ◌↔◌, IsTrue};
ghost use Rattle.std.specs.Cmp.{IsTotalOrder};
ghost use Rattle.std.specs.declared.cmp.Ordering.TheVariants.{Equal};
ghost use Rattle.rpki_prefix.specs.MaxLen.{MaxLenValue};
ghost use Rattle.rpki_prefix.specs.Nesting.{LiesRound};
ghost use Rattle.rpki_prefix.specs.Values.{CoversPrefix, FamilyPrefix};

use crate::max_len::MaxLenPrefix;
use crate::prefix::Prefix;

/// Prefixes are equal if and only if their addresses and their lengths are the same. Prefixes with maximum lengths are
/// equal if and only if the prefixes and the maximum lengths are the same.
pub fn equal_where_the_same()
    ensures prefix { (p q : FamilyPrefix) → IsTrue (⟦<Prefix as PartialEq>⟧.eq p q) ↔ (p ≡ q) }
    ensures max_len { (m n : MaxLenValue)
        → IsTrue (⟦<MaxLenPrefix as PartialEq>⟧.eq m n) ↔ (m ≡ n) }
{}

/// The order of prefixes is total, and two prefixes tie if and only if they are the same. The same holds with maximum
/// lengths.
#[tactic(auto, using(crate::proofs::PrefixOrderLemmas::max_len_one_place, crate::proofs::PrefixOrderLemmas::max_len_total, crate::proofs::PrefixOrderLemmas::prefix_total))]
pub fn total_order()
    ensures total { IsTotalOrder ⟦<Prefix as Ord>⟧.cmp }
    ensures ties { (p q : FamilyPrefix) → (⟦<Prefix as Ord>⟧.cmp p q ≡ Equal) ↔ (p ≡ q) }
    ensures max_len_total { IsTotalOrder ⟦<MaxLenPrefix as Ord>⟧.cmp }
    ensures max_len_ties { (m n : MaxLenValue)
        → (⟦<MaxLenPrefix as Ord>⟧.cmp m n ≡ Equal) ↔ (m ≡ n) }
{}

/// A prefix covers another if and only if both are of one family, and its bounds enclose those of the other.
///
/// The bounds of a prefix are its lowest and its highest address.
pub fn covers_by_bounds()
    ensures { (p q : FamilyPrefix) → CoversPrefix p q ↔ LiesRound p q }
{}
