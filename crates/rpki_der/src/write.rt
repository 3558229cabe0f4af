//! Writers that append values to a vector, and the lengths of what they append.
//!
//! Each `put` reserves the whole length first, so after an error the octets in the vector are unchanged. It succeeds
//! if the capacity suffices. Each `append` is for callers that reserved the capacity for several values: it allocates
//! nothing.

ghost use Rattle.std.specs.Prelude.{◌≡◌, ◌≤◌, ◌<◌, ◌+◌, ◌^◌, ◌++◌, length, vec_len, OnOk, OnErr, IsOk};
ghost use Rattle.std.specs.Vec.{vec_capacity};
ghost use Rattle.rpki_der.specs.Der.{IsBits, IsTag, bit_string_value, bits_with, header, integer, length_octets, null_value, octet_string_value, u32_value, with_sign, without_zeros};

use crate::tag;
use std::alloc::{AllocError, Allocator};

/// Returns the octets without leading zeros.
fn significant(octets: &[u8]) -> &[u8]
    ensures digits { result.now ≡ without_zeros octets.now }
    ensures short { length result.now ≤ length octets.now }
{
    let mut rest = octets;
    while let [0, tail @ ..] = rest {
        rest = tail;
    }
    rest
}

/// Returns the number of octets that `put_header` appends: at most 10.
#[tactic(auto, unfolding(crate::specs::Der::header, crate::specs::Der::length_octets, crate::specs::Der::octets))]
pub fn header_len(tag: u8, content_len: usize) -> usize
    ensures len { result ≡ length (header tag content_len) }
    ensures short { result ≤ 10 }
{
    if content_len < 128 {
        2
    } else {
        2 + significant(&(content_len as u64).to_be_bytes()).len()
    }
}

/// Appends the tag octet and the length octets of a value with `content_len` octets of content (X.690, 8.1.2, 8.1.3,
/// 10.1).
///
/// # Preconditions
///
/// The low five bits of `tag` are not all ones.
///
/// # Errors
///
/// `AllocError`: out of memory. The octets in `out` are unchanged.
pub fn put_header<A: Allocator>(
    out: &mut Vec<u8, A>,
    tag: u8,
    content_len: usize,
) -> Result<(), AllocError>
    requires { IsTag tag }
    ensures ok { OnOk result (out.new.items ≡ out.old.items ++ header tag content_len) }
    ensures err { OnErr result (out.new.items ≡ out.old.items) }
    ensures succeeds { vec_len out.old + length (header tag content_len) ≤ vec_capacity out.old
        → IsOk result }
    ensures capacity { vec_capacity out.old ≤ vec_capacity out.new }
{
    out.reserve(header_len(tag, content_len))?;
    append_header(out, tag, content_len);
    Ok(())
}

/// Appends the octets of `put_header`, without allocation.
///
/// # Preconditions
///
/// - The low five bits of `tag` are not all ones.
/// - The capacity of `out` suffices for these octets.
#[tactic(auto, unfolding(crate::specs::Der::header, crate::specs::Der::length_octets))]
pub fn append_header<A: Allocator>(out: &mut Vec<u8, A>, tag: u8, content_len: usize)
    requires has_tag { IsTag tag }
    requires fits { vec_len out.old + length (header tag content_len) ≤ vec_capacity out.old }
    ensures items { out.new.items ≡ out.old.items ++ header tag content_len }
    ensures capacity { vec_capacity out.old ≤ vec_capacity out.new }
{
    out.push_reserved(tag);
    if content_len < 128 {
        out.push_reserved(content_len as u8);
    } else {
        append_long_length(out, content_len);
    }
}

/// Appends the octets of a length of 128 or more, which few values have.
///
/// # Preconditions
///
/// - `content_len` is at least 128.
/// - The capacity of `out` suffices for these octets.
#[cold]
#[tactic(auto, unfolding(crate::specs::Der::length_octets, crate::specs::Der::octets))]
fn append_long_length<A: Allocator>(out: &mut Vec<u8, A>, content_len: usize)
    requires long { 128 ≤ content_len }
    requires fits { vec_len out.old + length (length_octets content_len) ≤ vec_capacity out.old }
    ensures items { out.new.items ≡ out.old.items ++ length_octets content_len }
    ensures capacity { vec_capacity out.old ≤ vec_capacity out.new }
{
    let octets = (content_len as u64).to_be_bytes();
    let digits = significant(&octets);
    out.push_reserved(128 + digits.len() as u8);
    append(out, digits);
}

/// Appends `octets`, without allocation. The capacity of `out` must suffice for them.
fn append<A: Allocator>(out: &mut Vec<u8, A>, octets: &[u8])
    requires fits { vec_len out.old + length octets.now ≤ vec_capacity out.old }
    ensures items { out.new.items ≡ out.old.items ++ octets.now }
    ensures capacity { vec_capacity out.old ≤ vec_capacity out.new }
{
    // The capacity suffices, so this call can't fail.
    let _appended = out.extend_from_slice(octets);
}

/// Returns the octets to put before `digits` so that there is an octet and the first bit is 0.
fn sign_of(digits: &[u8]) -> &'static [u8]
    ensures sign { result.now ++ digits.now ≡ with_sign digits.now }
    ensures short { length result.now ≤ 1 }
{
    match digits {
        [first, ..] if *first < 128 => &[],
        _ => &[0],
    }
}

/// Returns the number of octets of a value with `content_len` octets of content, which is below 2^63 + 16.
fn value_len(tag: u8, content_len: usize) -> usize
    requires { content_len < 2 ^ 63 + 16 }
    ensures len { result ≡ length (header tag content_len) + content_len }
    ensures short { result ≤ content_len + 10 }
{
    header_len(tag, content_len) + content_len
}

/// Returns the number of octets in the content of an INTEGER.
#[tactic(auto, unfolding(crate::specs::Der::integer, crate::specs::Der::octets))]
fn integer_len(number: u32) -> usize
    ensures len { result ≡ length (integer number) }
    ensures short { result ≤ 5 }
{
    let octets = (number as u64).to_be_bytes();
    let digits = significant(&octets);
    sign_of(digits).len() + digits.len()
}

/// Returns the number of octets that `put_u32` appends: at most 7.
#[tactic(auto, using(crate::proofs::WrittenValues::short_integer))]
pub fn u32_len(number: u32) -> usize
    ensures len { result ≡ length (u32_value number) }
    ensures short { result ≤ 7 }
{
    value_len(tag::INTEGER, integer_len(number))
}

/// Appends the INTEGER `number` (X.690, 8.3).
///
/// # Errors
///
/// `AllocError`: out of memory. The octets in `out` are unchanged.
pub fn put_u32<A: Allocator>(out: &mut Vec<u8, A>, number: u32) -> Result<(), AllocError>
    ensures ok { OnOk result (out.new.items ≡ out.old.items ++ u32_value number) }
    ensures err { OnErr result (out.new.items ≡ out.old.items) }
    ensures succeeds { vec_len out.old + length (u32_value number) ≤ vec_capacity out.old
        → IsOk result }
    ensures capacity { vec_capacity out.old ≤ vec_capacity out.new }
{
    out.reserve(u32_len(number))?;
    append_u32(out, number);
    Ok(())
}

/// Appends the octets of `put_u32`, without allocation.
///
/// # Preconditions
///
/// The capacity of `out` suffices for these octets.
#[tactic(auto, using(crate::proofs::ContentReadings::integer_octets, std::proofs::lemmas::Grind::common_steps))]
pub fn append_u32<A: Allocator>(out: &mut Vec<u8, A>, number: u32)
    requires fits { vec_len out.old + length (u32_value number) ≤ vec_capacity out.old }
    ensures items { out.new.items ≡ out.old.items ++ u32_value number }
    ensures capacity { vec_capacity out.old ≤ vec_capacity out.new }
{
    let content_len = integer_len(number);
    let octets = (number as u64).to_be_bytes();
    append_header(out, tag::INTEGER, content_len);
    append(out, &octets[8 - content_len..]);
}

/// Returns the number of octets that `put_bit_string` appends.
pub fn bit_string_len(unused: u8, octets: &[u8]) -> usize
    ensures len { result ≡ length (bit_string_value (bits_with unused octets.now)) }
{
    value_len(tag::BIT_STRING, 1 + octets.len())
}

/// Appends a BIT STRING (X.690, 8.6.2) with these octets, unchanged.
///
/// `unused` is the number of unused bits in the last octet. The call does not clear unused bits that are set.
///
/// # Preconditions
///
/// `unused` is at most 7, and 0 if there is no octet.
///
/// # Errors
///
/// `AllocError`: out of memory. The octets in `out` are unchanged.
pub fn put_bit_string<A: Allocator>(
    out: &mut Vec<u8, A>,
    unused: u8,
    octets: &[u8],
) -> Result<(), AllocError>
    requires { IsBits (bits_with unused octets.now) }
    ensures ok { OnOk result
        (out.new.items ≡ out.old.items ++ bit_string_value (bits_with unused octets.now)) }
    ensures err { OnErr result (out.new.items ≡ out.old.items) }
    ensures succeeds { vec_len out.old + length (bit_string_value (bits_with unused octets.now))
        ≤ vec_capacity out.old → IsOk result }
    ensures capacity { vec_capacity out.old ≤ vec_capacity out.new }
{
    out.reserve(bit_string_len(unused, octets))?;
    append_bit_string(out, unused, octets);
    Ok(())
}

/// Appends the octets of `put_bit_string`, without allocation.
///
/// # Preconditions
///
/// - `unused` is at most 7, and 0 if there is no octet.
/// - The capacity of `out` suffices for these octets.
pub fn append_bit_string<A: Allocator>(out: &mut Vec<u8, A>, unused: u8, octets: &[u8])
    requires bits { IsBits (bits_with unused octets.now) }
    requires fits { vec_len out.old + length (bit_string_value (bits_with unused octets.now))
        ≤ vec_capacity out.old }
    ensures items { out.new.items
        ≡ out.old.items ++ bit_string_value (bits_with unused octets.now) }
    ensures capacity { vec_capacity out.old ≤ vec_capacity out.new }
{
    append_header(out, tag::BIT_STRING, 1 + octets.len());
    out.push_reserved(unused);
    append(out, octets);
}

/// Returns the number of octets that `put_octets` appends.
pub fn octets_len(octets: &[u8]) -> usize
    ensures len { result ≡ length (octet_string_value octets.now) }
{
    value_len(tag::OCTET_STRING, octets.len())
}

/// Appends an OCTET STRING with these octets (X.690, 8.7).
///
/// # Errors
///
/// `AllocError`: out of memory. The octets in `out` are unchanged.
pub fn put_octets<A: Allocator>(out: &mut Vec<u8, A>, octets: &[u8]) -> Result<(), AllocError>
    ensures ok { OnOk result (out.new.items ≡ out.old.items ++ octet_string_value octets.now) }
    ensures err { OnErr result (out.new.items ≡ out.old.items) }
    ensures succeeds { vec_len out.old + length (octet_string_value octets.now)
        ≤ vec_capacity out.old → IsOk result }
    ensures capacity { vec_capacity out.old ≤ vec_capacity out.new }
{
    out.reserve(octets_len(octets))?;
    append_octets(out, octets);
    Ok(())
}

/// Appends the octets of `put_octets`, without allocation.
///
/// # Preconditions
///
/// The capacity of `out` suffices for these octets.
pub fn append_octets<A: Allocator>(out: &mut Vec<u8, A>, octets: &[u8])
    requires fits { vec_len out.old + length (octet_string_value octets.now)
        ≤ vec_capacity out.old }
    ensures items { out.new.items ≡ out.old.items ++ octet_string_value octets.now }
    ensures capacity { vec_capacity out.old ≤ vec_capacity out.new }
{
    append_header(out, tag::OCTET_STRING, octets.len());
    append(out, octets);
}

/// Returns the number of octets that `put_null` appends.
pub fn null_len() -> usize
    ensures len { result ≡ length null_value }
{
    value_len(tag::NULL, 0)
}

/// Appends a NULL (X.690, 8.8).
///
/// # Errors
///
/// `AllocError`: out of memory. The octets in `out` are unchanged.
pub fn put_null<A: Allocator>(out: &mut Vec<u8, A>) -> Result<(), AllocError>
    ensures ok { OnOk result (out.new.items ≡ out.old.items ++ null_value) }
    ensures err { OnErr result (out.new.items ≡ out.old.items) }
    ensures succeeds { vec_len out.old + length null_value ≤ vec_capacity out.old → IsOk result }
    ensures capacity { vec_capacity out.old ≤ vec_capacity out.new }
{
    out.reserve(null_len())?;
    append_null(out);
    Ok(())
}

/// Appends the octets of `put_null`, without allocation.
///
/// # Preconditions
///
/// The capacity of `out` suffices for these octets.
pub fn append_null<A: Allocator>(out: &mut Vec<u8, A>)
    requires fits { vec_len out.old + length null_value ≤ vec_capacity out.old }
    ensures items { out.new.items ≡ out.old.items ++ null_value }
    ensures capacity { vec_capacity out.old ≤ vec_capacity out.new }
{
    append_header(out, tag::NULL, 0);
}
