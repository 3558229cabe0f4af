//! Lemmas about values. Each is the contract of a function that does nothing when it runs.

ghost use Rattle.std.specs.Prelude.{◌≡◌, ℕ, List, Ok, ◌<◌, ◌^◌, ◌∷◌, ◌++◌, length};
ghost use Rattle.rpki_der.specs.Der.{Bits, IsBitString, IsBits, IsBytes, IsLength, IsNull, IsOctetString, IsSequence, IsTag, IsTlv, IsU32, IsUnsigned, IsValue, OneFront, bit_string_value, integer, length_octets, null_value, octet_string_value, sequence_value, tag_octet, u32_value};
ghost use Rattle.rpki_der.specs.Reading.{bit_string_at, null_at, tagged_at, u32_at};

use crate::tag::{BIT_STRING, CONTEXT_0, INTEGER, NULL, OCTET_STRING, SEQUENCE};

/// Each tag octet is that of its type: the class, the form (X.690, 8.1.2), and the tag number (X.680, 8.6, table 1).
pub fn tags()
    ensures integer { INTEGER ≡ tag_octet 0 0 2 }
    ensures bit_string { BIT_STRING ≡ tag_octet 0 0 3 }
    ensures octet_string { OCTET_STRING ≡ tag_octet 0 0 4 }
    ensures null { NULL ≡ tag_octet 0 0 5 }
    ensures sequence { SEQUENCE ≡ tag_octet 0 1 16 }
    ensures context_0 { CONTEXT_0 ≡ tag_octet 2 1 0 }
{}

/// Octets begin with at most one value of each type.
pub fn one_value()
    ensures value { OneFront IsTlv }
    ensures number { OneFront IsU32 }
    ensures bit_string { OneFront IsBitString }
    ensures octet_string { OneFront IsOctetString }
    ensures null { OneFront IsNull }
    ensures sequence { OneFront IsSequence }
{}

/// The octets that the writers append are values.
#[tactic(auto, using(crate::proofs::WrittenValues::value_is, crate::proofs::WrittenValues::u32_is, crate::proofs::WrittenValues::bit_string_is))]
pub fn written()
    ensures number { (n : ℕ) → n < 2 ^ 32 → IsU32 (u32_value n) n }
    ensures bit_string { (b : Bits) → IsBits b → length b.octets < 2 ^ 63
        → IsBitString (bit_string_value b) b }
    ensures octet_string { (o : List ℕ) → length o < 2 ^ 64
        → IsOctetString (octet_string_value o) o }
    ensures null { IsNull null_value tt }
    ensures sequence { (o : List ℕ) → length o < 2 ^ 64 → IsSequence (sequence_value o) o }
{}

/// An encoded value is read back, and the octets after it are left.
#[tactic(auto, using(crate::proofs::ValueReadings::u32_reading, crate::proofs::ValueReadings::bit_string_reading, crate::proofs::ValueReadings::octet_string_reading, crate::proofs::ValueReadings::sequence_reading, crate::proofs::WrittenValues::value_is, crate::proofs::WrittenValues::u32_is, crate::proofs::WrittenValues::bit_string_is))]
pub fn read_back()
    ensures number { (n : ℕ) (rest : List ℕ) → n < 2 ^ 32
        → u32_at (u32_value n ++ rest) ≡ Ok (n, rest) }
    ensures bit_string { (b : Bits) (rest : List ℕ) → IsBits b → length b.octets < 2 ^ 63
        → bit_string_at (bit_string_value b ++ rest) ≡ Ok (b, rest) }
    ensures octet_string { (o rest : List ℕ) → length o < 2 ^ 64
        → tagged_at 4 (octet_string_value o ++ rest) ≡ Ok (o, rest) }
    ensures null { (rest : List ℕ) → null_at (null_value ++ rest) ≡ Ok (tt, rest) }
    ensures sequence { (o rest : List ℕ) → length o < 2 ^ 64
        → tagged_at 48 (sequence_value o ++ rest) ≡ Ok (o, rest) }
{}

/// Values, lengths and integers are encoded as X.690 (8.1.2, 8.1.3, 8.3 and 10.1) requires, and in no other way.
#[tactic(auto, using(crate::proofs::WrittenValues::value_spelled, crate::proofs::WrittenValues::spelled_value, crate::proofs::ContentReadings::unsigned_spelled, crate::proofs::LengthReadings::length_spelled, crate::proofs::LengthReadings::spelled_length))]
pub fn spelled()
    ensures value { (tag : ℕ) (len content : List ℕ) → IsTag tag → IsBytes len
        → IsLength len (length content) → IsValue (tag ∷ (len ++ content)) tag content }
    ensures value_again { (bytes : List ℕ) (tag : ℕ) (content : List ℕ)
        → IsValue bytes tag content
        → (len : List ℕ) × IsLength len (length content) × (bytes ≡ tag ∷ (len ++ content)) }
    ensures integer { (content : List ℕ) (n : ℕ) → IsBytes content → IsUnsigned content n
        → content ≡ integer n }
    ensures integer_again { (n : ℕ) → n < 2 ^ 32 → IsUnsigned (integer n) n }
    ensures len { (bytes : List ℕ) (n : ℕ) → IsBytes bytes → IsLength bytes n
        → (bytes ≡ length_octets n) × (n < 2 ^ 64) }
    ensures len_again { (n : ℕ) → n < 2 ^ 64 → IsLength (length_octets n) n }
{}
