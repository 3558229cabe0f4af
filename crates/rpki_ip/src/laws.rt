//! Lemmas about the order and the equality of addresses, prefixes and ranges, for the proofs of callers.
ghost use Rattle.std.specs.Prelude.{◌≡◌, ◌↔◌, ℕ, IsTrue};
ghost use Rattle.std.specs.Ordering.{nat_cmp};
ghost use Rattle.rpki_cover.specs.Prefixes.{PrefixValue};
ghost use Rattle.rpki_ip.specs.Ranges.{RangeValue};

use crate::addr::Addr;
use crate::prefix::Prefix;
use crate::range::AddressRange;

/// States the order of addresses, and the equality of addresses, prefixes and ranges.
///
/// Addresses have the order of their numbers. Two addresses are equal if and only if their numbers are the same. Two
/// prefixes are equal if and only if their first addresses and lengths are the same. Two ranges are equal if and only
/// if their bounds are the same.
pub fn orders_and_equality()
    ensures order { (a b : ℕ) → ⟦<Addr as Ord>⟧.cmp a b ≡ nat_cmp a b }
    ensures addr { (a b : ℕ) → IsTrue (⟦<Addr as PartialEq>⟧.eq a b) ↔ (a ≡ b) }
    ensures prefix { (p q : PrefixValue) → IsTrue (⟦<Prefix as PartialEq>⟧.eq p q) ↔ (p ≡ q) }
    ensures range { (r s : RangeValue) → IsTrue (⟦<AddressRange as PartialEq>⟧.eq r s) ↔ (r ≡ s) }
{}
