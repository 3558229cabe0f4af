//! Lemmas about the encodings of families, prefixes and ranges, each as the contract of a function that does nothing.
ghost use Rattle.std.specs.Prelude.{◌≡◌, ◌≢◌, ◌↔◌, ℕ, ◌<◌, ◌≤◌, ◌^◌, List, Err, true, IsOk};
ghost use Rattle.rpki_der.specs.SequenceFaults.{BeginsWithTwo};
ghost use Rattle.rpki_cover.specs.Prefixes.{IsPrefix, PrefixValue, last_of};
ghost use Rattle.rpki_der.specs.Der.{Bits, IsBytes, OneFront};
ghost use Rattle.rpki_der.specs.declared.error.DerError.TheVariants.{NotCanonical, ReversedRange};
ghost use Rattle.rpki_der.specs.declared.family.AddressFamily.{AddressFamily};
ghost use Rattle.rpki_der.specs.FamilyDer.{IsFamilyDer, family_der};
ghost use Rattle.rpki_ip.specs.PrefixDer.{IsPrefixDer, SaysPrefix, prefix_at, prefix_by, prefix_der};
ghost use Rattle.rpki_ip.specs.RangeDer.{IsRangeDer, IsRangeWithin, IsShortestFrom, IsShortestTo, range_der, range_in, without_end_ones, without_end_zeros};
ghost use Rattle.rpki_ip.specs.Ranges.{RangeValue};

/// States that octets begin with at most one value of each kind: a family, a prefix or a range.
pub fn one_value()
    ensures family { OneFront IsFamilyDer }
    ensures prefix { (limit : ℕ) → OneFront (IsPrefixDer limit) }
    ensures range { (limit : ℕ) → OneFront (IsRangeDer limit) }
{}

/// States that the octets that `encode` appends conform to the grammar.
///
/// This holds for a family, for a prefix that isn't longer than the limit, and for a range whose bounds need no more
/// bits than the limit. For a range the limit is at most 128.
pub fn written()
    ensures family { (family : AddressFamily) → IsFamilyDer (family_der family) family }
    ensures prefix { (limit : ℕ) (p : PrefixValue) → IsPrefix 128 p → p.len ≤ limit
        → IsPrefixDer limit (prefix_der p) p }
    ensures range { (limit : ℕ) (r : RangeValue) → limit ≤ 128 → IsRangeWithin limit r
        → IsRangeDer limit (range_der r) r }
{}

/// States that a value that a bit string denotes, by `SaysPrefix`, is a prefix. The limit is at most 128.
#[tactic(auto, using(crate::proofs::PrefixBits::said_prefix))]
pub fn is_prefix()
    ensures { (limit : ℕ) (b : Bits) (p : PrefixValue) → limit ≤ 128 → IsBytes b.octets
        → SaysPrefix limit b p → IsPrefix 128 p }
{}

/// States that the prefixes in the encoding of a range are the shortest possible.
///
/// An address without the zeros at its end is the shortest prefix that begins with this address. An address without the
/// ones at its end is the shortest prefix that ends with it.
#[tactic(auto, using(crate::proofs::ShortestPrefixes::shortest_from_is, crate::proofs::ShortestPrefixes::shortest_to_is))]
pub fn shortest()
    ensures zeros { (a : ℕ) → a < 2 ^ 128 → IsShortestFrom a (without_end_zeros a) }
    ensures ones { (a : ℕ) → a < 2 ^ 128 → IsShortestTo a (without_end_ones a) }
{}

/// States when a range has the fault `ReversedRange`.
///
/// It has the fault if and only if its content begins with two prefixes, and the second ends before the first begins.
/// Any octets may follow the two prefixes.
#[tactic(auto, using(crate::proofs::PrefixDerFaults::range_fails))]
pub fn reversed()
    ensures { (limit : ℕ) (content : List ℕ) → (range_in limit content ≡ Err ReversedRange)
        ↔ BeginsWithTwo (prefix_at limit) (λ p q. last_of 128 q < p.first) content }
{}

/// States that a lenient cursor never returns `NotCanonical` for a prefix or a range.
///
/// A strict cursor returns `NotCanonical` for a prefix only if a lenient cursor accepts the prefix. Each other fault is
/// reported first, such as `BadPrefix` for too many bits.
#[tactic(auto, using(crate::proofs::PrefixDerFaults::prefix_names, crate::proofs::PrefixDerFaults::range_names, crate::proofs::PrefixDerFaults::prefix_last))]
pub fn not_canonical()
    ensures prefix { (limit : ℕ) (bytes : List ℕ) → prefix_at limit bytes ≢ Err NotCanonical }
    ensures range { (limit : ℕ) (content : List ℕ) → range_in limit content ≢ Err NotCanonical }
    ensures last { (limit : ℕ) (bytes : List ℕ) → prefix_by true limit bytes ≡ Err NotCanonical
        → IsOk (prefix_at limit bytes) }
{}
