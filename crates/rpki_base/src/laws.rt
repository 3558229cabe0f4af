//! Lemmas for callers about several calls. Each is the contract of a function.
ghost use Rattle.std.specs.Prelude.{◌≡◌, ◌≢◌, ◌↔◌, ℕ, ◌-◌, ◌^◌, List, Err, true, Contains, IsOk, IsTrue};
ghost use Rattle.std.specs.Ordering.{nat_cmp};
ghost use Rattle.rpki_der.specs.declared.error.DerError.TheVariants.{NotCanonical};
ghost use Rattle.rpki_der.specs.Reading.{bit_string_at, bit_string_by, value_at};
ghost use Rattle.rpki_base.specs.AsnDer.{as_number_at};
ghost use Rattle.rpki_der.specs.FamilyDer.{family_at};
ghost use Rattle.rpki_base.specs.SmallSet.{IsSmallSet};

use crate::asn::Asn;
use crate::small_set::SmallAsnSet;
use std::alloc::Allocator;

/// Returns `Asn::MIN` and `Asn::MAX`: the lowest and the highest AS number, 0 and 4294967295 (RFC 6793).
pub fn ends_of_asns() -> (Asn, Asn)
    ensures min { result.0 ≡ 0 }
    ensures max { result.1 ≡ 2 ^ 32 - 1 }
{
    (Asn::MIN, Asn::MAX)
}

/// AS numbers sort as their values.
pub fn orders_are_of_numbers()
    ensures { (a b : ℕ) → ⟦<Asn as Ord>⟧.cmp a b ≡ nat_cmp a b }
{}

/// AS numbers are equal if and only if they have the same value.
pub fn equal_where_the_same()
    ensures { (a b : ℕ) → IsTrue (⟦<Asn as PartialEq>⟧.eq a b) ↔ (a ≡ b) }
{}

/// Small sets are equal if and only if they have the same AS numbers.
pub fn equal_small_sets<A: Allocator>()
    ensures { (a b : List ℕ) → IsSmallSet a → IsSmallSet b
        → IsTrue (⟦<SmallAsnSet<A> as PartialEq>⟧.eq a b)
        ↔ ((n : ℕ) → (Contains a n) ↔ (Contains b n)) }
{}

/// Small sets with the same AS numbers are the same list. They are therefore equal, and they hash and compare alike.
#[tactic(auto, using(crate::proofs::SmallSetLemmas::one_set))]
pub fn one_small_set()
    ensures { (a b : List ℕ) → IsSmallSet a → IsSmallSet b
        → ((n : ℕ) → (Contains a n) ↔ (Contains b n)) → a ≡ b }
{}

/// Only a strict cursor refuses octets as not canonical.
///
/// Neither mode refuses a value of any tag, an AS number or a family as not canonical. A strict cursor refuses a BIT
/// STRING as not canonical only if a lenient cursor accepts the octets: every other fault is reported first.
#[tactic(auto, using(rpki_der::proofs::SequenceFaults::value_faults, rpki_der::proofs::FamilyDerLemmas::family_names, rpki_der::proofs::ReadingSteps::ok_or_err), unfolding(rpki_der::specs::Reading::refined, rpki_der::specs::Reading::bits_by))]
pub fn not_canonical()
    ensures value { (bytes : List ℕ) → value_at bytes ≢ Err NotCanonical }
    ensures number { (bytes : List ℕ) → as_number_at bytes ≢ Err NotCanonical }
    ensures family { (bytes : List ℕ) → family_at bytes ≢ Err NotCanonical }
    ensures bit_string { (bytes : List ℕ) → bit_string_at bytes ≢ Err NotCanonical }
    ensures last { (bytes : List ℕ) → bit_string_by true bytes ≡ Err NotCanonical
        → IsOk (bit_string_at bytes) }
{}
