//! Writes VRPs, routes and their parts into a buffer, and appends a buffer to a text in one call.
//!
//! Each `put` writes into `out` from index `at` on, and leaves the bytes before it unchanged. It returns the index
//! after the last byte that it wrote. Each requires enough bytes from `at` on for the longest text that it may write.
ghost use Rattle.std.specs.Prelude.{◌≡◌, ◌+◌, ◌≤◌, ◌∷◌, ◌++◌, decimal, length, take, OnOk};
ghost use Rattle.std.specs.Str.{IsUtf8};
ghost use Rattle.std.specs.String.{string_bytes};
ghost use Rattle.rpki_base.specs.AsnText.{asn_text};
ghost use Rattle.rpki_prefix.specs.MaxLen.{max_len_text};
ghost use Rattle.rpki_prefix.specs.PrefixText.{prefix_text};
ghost use Rattle.rpki_text.specs.Cuts.{dash};
ghost use Rattle.roa_routes.specs.Texts.{route_text, vrp_text};

use itoa::Buffer;
use rpki_addr::addr::print::{PREFIX_ROOM, put, put_octet, put_with_length};
use rpki_base::Asn;
use rpki_prefix::{MaxLenPrefix, Prefix};
use std::alloc::{AllocError, Allocator};
use std::str;

/// The maximum number of bytes of the text of a prefix.
pub const MAX_PREFIX: usize = PREFIX_ROOM;

/// The maximum number of bytes of an AS number: `AS` and ten digits.
pub const MAX_ASN: usize = 12;

/// The maximum number of bytes of a VRP: a prefix, a dash, a length of three digits, a space and an AS number.
pub const MAX_VRP: usize = MAX_PREFIX + 1 + 3 + 1 + MAX_ASN;

/// The maximum number of bytes of a route: a prefix, a space and an AS number.
pub const MAX_ROUTE: usize = MAX_PREFIX + 1 + MAX_ASN;

/// Writes `bytes`.
pub fn put_all(out: &mut [u8], at: usize, bytes: &[u8]) -> usize
    requires { at + length bytes.now ≤ length out.old }
    ensures text { take result out.new ≡ take at out.old ++ bytes.now }
    ensures end { result ≡ at + length bytes.now }
{
    let end = at + bytes.len();
    out[at..end].copy_from_slice(bytes);
    end
}

/// Writes a prefix: its address, a slash and its length.
pub fn put_prefix(out: &mut [u8], at: usize, prefix: Prefix) -> usize
    requires { at + 44 ≤ length out.old }
    ensures text { take result out.new ≡ take at out.old ++ prefix_text prefix }
    ensures end { result ≤ at + 44 }
{
    put_with_length(out, at, prefix.addr(), prefix.len())
}

/// Writes a prefix, and a dash and the maximum length if there is one.
pub fn put_max_len_prefix(out: &mut [u8], at: usize, prefix: MaxLenPrefix) -> usize
    requires { at + 48 ≤ length out.old }
    ensures text { take result out.new ≡ take at out.old ++ max_len_text prefix }
    ensures end { result ≤ at + 48 }
{
    let end = put_prefix(out, at, prefix.prefix());
    match prefix.max_len() {
        Some(max_len) => put_dash_and_len(out, end, max_len),
        None => end,
    }
}

/// Writes a dash and a maximum length.
pub fn put_dash_and_len(out: &mut [u8], at: usize, max_len: u8) -> usize
    requires { at + 4 ≤ length out.old }
    ensures text { take result out.new ≡ take at out.old ++ dash ∷ decimal max_len }
    ensures end { result ≤ at + 4 }
{
    let end = put(out, at, b'-');
    put_octet(out, end, max_len)
}

/// Writes an AS number: `AS` and its decimal.
pub fn put_asn(out: &mut [u8], at: usize, asn: Asn) -> usize
    requires { at + 12 ≤ length out.old }
    ensures text { take result out.new ≡ take at out.old ++ asn_text asn }
    ensures end { result ≤ at + 12 }
{
    let mut digits = Buffer::new();
    let end = put_all(out, at, b"AS");
    put_all(out, end, digits.format(asn.into_u32()).as_bytes())
}

/// Writes a VRP: its prefix, a dash and the maximum length if it has one, a space and its AS number.
pub fn put_vrp(out: &mut [u8], at: usize, vrp: &(MaxLenPrefix, Asn)) -> usize
    requires { at + 61 ≤ length out.old }
    ensures text { take result out.new ≡ take at out.old ++ vrp_text vrp.now }
    ensures end { result ≤ at + 61 }
{
    let end = put_max_len_prefix(out, at, vrp.0);
    let end = put(out, end, b' ');
    put_asn(out, end, vrp.1)
}

/// Writes a route: its prefix, a space and its AS number.
pub fn put_route(out: &mut [u8], at: usize, prefix: Prefix, asn: Asn) -> usize
    requires { at + 57 ≤ length out.old }
    ensures text { take result out.new ≡ take at out.old ++ route_text prefix asn }
    ensures end { result ≤ at + 57 }
{
    let end = put_prefix(out, at, prefix);
    let end = put(out, end, b' ');
    put_asn(out, end, asn)
}

/// Appends the bytes of `out` before index `end` to a text.
///
/// # Preconditions
///
/// These bytes are UTF-8.
///
/// # Errors
///
/// [`AllocError`]: an allocation failed.
pub fn push_before<A: Allocator>(
    text: &mut String<A>,
    out: &[u8],
    end: usize,
) -> Result<(), AllocError>
    requires within { end ≤ length out.now }
    requires utf8 { IsUtf8 (take end out.now) }
    ensures { OnOk result (string_bytes text.new ≡ string_bytes text.old ++ take end out.now) }
{
    match str::from_utf8(&out[..end]) {
        Ok(front) => text.push_str(front),
        Err(_) => unreachable!(),
    }
}
