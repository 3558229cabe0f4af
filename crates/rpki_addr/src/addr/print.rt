//! Writes addresses into a buffer, each byte once.
//!
//! Each `put` writes into `out` from index `at` on, and leaves the bytes before it unchanged. It returns the index
//! after the last byte that it wrote. Each requires enough bytes from `at` on for the longest text that it may write.
ghost use Rattle.std.specs.Prelude.{◌≡◌, ◌+◌, ◌*◌, ◌<◌, ◌≤◌, [], ◌∷◌, ◌++◌, length, take, codes, decimal, nat_lt};
ghost use Rattle.std.specs.Char.{digit_char};
ghost use Rattle.std.specs.Fmt.{WritesOnOk};
ghost use Rattle.std.specs.Net.Text.{hex, groups_text as std_groups_text, hex_groups_text, longest_zero_run};
ghost use Rattle.rpki_text.specs.Cuts.{slash};
ghost use Rattle.rpki_addr.specs.AddressText.{dotted};
ghost use Rattle.rpki_addr.specs.PrintedAddress.{ipv4_text, ipv6_text, ip_text};

use super::groups::split_groups;
use super::{IpAddr, Ipv4Addr};
use std::{fmt, str};

/// The maximum number of bytes of an IPv4 text.
pub(crate) const IPV4_ROOM: usize = 15;

/// The size of a buffer for the text of an address of either family: five bytes for each of eight groups.
pub const IP_ROOM: usize = 40;

/// The size of a buffer for the text of a prefix: an address, a slash and a length of at most three digits.
pub const PREFIX_ROOM: usize = IP_ROOM + 4;

/// Writes one byte.
///
/// # Preconditions
///
/// `out` has a byte at index `at`.
#[inline(always)]
pub fn put(out: &mut [u8], at: usize, byte: u8) -> usize
    requires { at < length out.old }
    ensures text { take result out.new ≡ take at out.old ++ byte ∷ [] }
    ensures end { result ≡ at + 1 }
{
    out[at] = byte;
    at + 1
}

/// Writes `bytes`.
fn put_all(out: &mut [u8], at: usize, bytes: &[u8]) -> usize
    requires { at + length bytes.now ≤ length out.old }
    ensures text { take result out.new ≡ take at out.old ++ bytes.now }
    ensures end { result ≡ at + length bytes.now }
{
    let mut end = at;
    for byte in bytes {
        end = put(out, end, *byte);
    }
    end
}

/// Writes an octet in decimal.
///
/// # Preconditions
///
/// `out` has at least 3 bytes from index `at` on.
#[tactic(auto, using(std::proofs::lemmas::Fmt::decimal_step, std::proofs::lemmas::Fmt::decimal_digit, std::proofs::lemmas::Grind::common_steps))]
pub fn put_octet(out: &mut [u8], at: usize, octet: u8) -> usize
    requires { at + 3 ≤ length out.old }
    ensures text { take result out.new ≡ take at out.old ++ decimal octet }
    ensures end { result ≤ at + 3 }
{
    if octet >= 100 {
        let at = put(out, at, b'0' + octet / 100);
        let at = put(out, at, b'0' + octet / 10 % 10);
        return put(out, at, b'0' + octet % 10);
    }
    if octet >= 10 {
        let at = put(out, at, b'0' + octet / 10);
        return put(out, at, b'0' + octet % 10);
    }
    put(out, at, b'0' + octet)
}

/// Writes four octets in decimal with dots between them.
///
/// # Preconditions
///
/// `out` has at least 15 bytes from index `at` on.
#[tactic(auto, using(crate::proofs::AddressLemmas::dotted_octets, std::proofs::lemmas::Grind::common_steps))]
pub fn put_ipv4(out: &mut [u8], at: usize, octets: [u8; 4]) -> usize
    requires { at + 15 ≤ length out.old }
    ensures text { take result out.new ≡ take at out.old ++ dotted octets }
    ensures end { result ≤ at + 15 }
{
    let [a, b, c, d] = octets;
    let at = put_octet(out, at, a);
    let at = put(out, at, b'.');
    let at = put_octet(out, at, b);
    let at = put(out, at, b'.');
    let at = put_octet(out, at, c);
    let at = put(out, at, b'.');
    put_octet(out, at, d)
}

/// The hexadecimal digits, in lower case (RFC 5952, 4.3).
static HEX_DIGITS: [u8; 16] = [
    b'0', b'1', b'2', b'3', b'4', b'5', b'6', b'7', b'8', b'9', b'a', b'b', b'c', b'd', b'e', b'f',
];

/// Returns the hexadecimal digit with this value.
#[inline(always)]
fn hex_digit(value: u16) -> u8
    requires { value < 16 }
    ensures { result ≡ digit_char value }
{
    HEX_DIGITS[usize::from(value)]
}

/// Writes a group in hexadecimal without leading zeros (RFC 5952, 4.1).
#[tactic(auto, unfolding(std::specs::Net::Text::hex))]
fn put_group(out: &mut [u8], at: usize, group: u16) -> usize
    requires { at + 4 ≤ length out.old }
    ensures text { take result out.new ≡ take at out.old ++ hex group }
    ensures end { result ≤ at + 4 }
{
    if group >= 0x1000 {
        let at = put(out, at, hex_digit(group / 0x1000));
        let at = put(out, at, hex_digit(group / 0x100 % 16));
        let at = put(out, at, hex_digit(group / 0x10 % 16));
        return put(out, at, hex_digit(group % 16));
    }
    if group >= 0x100 {
        let at = put(out, at, hex_digit(group / 0x100 % 16));
        let at = put(out, at, hex_digit(group / 0x10 % 16));
        return put(out, at, hex_digit(group % 16));
    }
    if group >= 0x10 {
        let at = put(out, at, hex_digit(group / 0x10 % 16));
        return put(out, at, hex_digit(group % 16));
    }
    put(out, at, hex_digit(group % 16))
}

/// Writes groups with colons between them.
fn put_groups(out: &mut [u8], at: usize, groups: &[u16]) -> usize
    requires { at + 5 * length groups.now ≤ length out.old }
    ensures text { take result out.new ≡ take at out.old ++ std_groups_text groups.now }
    ensures end { result ≤ at + 5 * length groups.now }
{
    let [first, rest @ ..] = groups else {
        return at;
    };
    let mut end = put_group(out, at, *first);
    for group in rest {
        end = put(out, end, b':');
        end = put_group(out, end, *group);
    }
    end
}

/// A run of consecutive zero groups.
#[derive(Clone, Copy)]
struct ZeroRun {
    start: usize,
    len: usize,
}

impl ZeroRun {
    /// Returns whether the run is printed as two colons. A single zero group is not (RFC 5952, 4.2.2).
    #[inline(always)]
    fn is_shortened(self) -> bool
        ensures { result ≡ nat_lt 1 self.len }
    {
        self.len > 1
    }
}

/// Returns the longest run of zero groups, the first one if several are equally long (RFC 5952, 4.2.3).
fn longest_run(groups: &[u16]) -> ZeroRun
    ensures value { (result.start, result.len) ≡ longest_zero_run groups.now }
    ensures within { result.start + result.len ≤ length groups.now }
{
    let mut longest = ZeroRun {
        start: groups.len(),
        len: 0,
    };
    let mut start = groups.len();
    let mut len = 0;
    while start > 0 {
        start -= 1;
        len = if groups[start] == 0 { len + 1 } else { 0 };
        // The loop goes from the end to the front, so a run replaces one of equal length after it.
        if len >= longest.len {
            longest = ZeroRun { start, len };
        }
    }
    longest
}

/// Writes groups, with the longest run of two or more zero groups as two colons (RFC 5952, 4.2).
#[tactic(auto, using(std::proofs::lemmas::Bool::Decides::nat_tests, std::proofs::lemmas::Grind::common_steps), unfolding(std::specs::Net::Text::hex_groups_text))]
fn put_shortened(out: &mut [u8], at: usize, groups: &[u16]) -> usize
    requires { at + 5 * length groups.now ≤ length out.old }
    ensures text { take result out.new ≡ take at out.old ++ hex_groups_text groups.now }
    ensures end { result ≤ at + 5 * length groups.now }
{
    let run = longest_run(groups);
    if run.is_shortened() {
        let at = put_groups(out, at, &groups[..run.start]);
        let at = put(out, at, b':');
        let at = put(out, at, b':');
        return put_groups(out, at, &groups[run.start + run.len..]);
    }
    put_groups(out, at, groups)
}

/// Writes the IPv4-mapped address of an IPv4 address (RFC 4291, 2.5.5.2): `::ffff:` and four decimals with dots.
fn put_mapped(out: &mut [u8], at: usize, low: Ipv4Addr) -> usize
    requires { at + 22 ≤ length out.old }
    ensures text { take result out.new ≡ take at out.old ++ codes "::ffff:" ++ ipv4_text low }
    ensures end { result ≤ at + 22 }
{
    let at = put_all(out, at, b"::ffff:");
    put_ipv4(out, at, low.octets())
}

/// Writes the IPv6 address with these bits (RFC 5952, 4). An IPv4-mapped address ends in its IPv4 address (RFC 5952,
/// 5).
///
/// # Preconditions
///
/// `out` has at least 40 bytes from index `at` on.
#[tactic(auto, using(crate::proofs::PrintedAddressLemmas::mapped_is, crate::proofs::PrintedAddressLemmas::unmapped_is, std::proofs::lemmas::Grind::common_steps))]
pub fn put_ipv6(out: &mut [u8], at: usize, bits: u128) -> usize
    requires { at + 40 ≤ length out.old }
    ensures text { take result out.new ≡ take at out.old ++ ipv6_text bits }
    ensures end { result ≤ at + 40 }
{
    if bits / 0x1_0000_0000 == 0xffff {
        return put_mapped(out, at, Ipv4Addr::from_bits((bits % 0x1_0000_0000) as u32));
    }
    put_shortened(out, at, &split_groups(bits))
}

/// Writes an address of either family.
///
/// # Preconditions
///
/// `out` has at least 40 bytes from index `at` on.
#[inline(always)]
pub fn put_ip(out: &mut [u8], at: usize, addr: IpAddr) -> usize
    requires { at + 40 ≤ length out.old }
    ensures text { take result out.new ≡ take at out.old ++ ip_text addr }
    ensures end { result ≤ at + 40 }
{
    match addr {
        IpAddr::V4(addr) => put_ipv4(out, at, addr.octets()),
        IpAddr::V6(addr) => put_ipv6(out, at, addr.to_bits()),
    }
}

/// Writes a slash and the length of a prefix.
///
/// # Preconditions
///
/// `out` has at least 4 bytes from index `at` on.
#[inline(always)]
pub fn put_length(out: &mut [u8], at: usize, len: u8) -> usize
    requires { at + 4 ≤ length out.old }
    ensures text { take result out.new ≡ take at out.old ++ slash ∷ decimal len }
    ensures end { result ≤ at + 4 }
{
    let end = put(out, at, b'/');
    put_octet(out, end, len)
}

/// Writes an address of either family, a slash and the length of a prefix.
///
/// # Preconditions
///
/// `out` has at least 44 bytes from index `at` on.
#[inline(always)]
pub fn put_with_length(out: &mut [u8], at: usize, addr: IpAddr, len: u8) -> usize
    requires { at + 44 ≤ length out.old }
    ensures text { take result out.new ≡ take at out.old ++ ip_text addr ++ slash ∷ decimal len }
    ensures end { result ≤ at + 44 }
{
    let end = put_ip(out, at, addr);
    put_length(out, end, len)
}

/// Writes the bytes of `out` before index `end` to `f`, in one call.
///
/// # Preconditions
///
/// `end` is at most the length of `out`.
///
/// # Errors
///
/// `fmt::Error`: the bytes are not UTF-8, or the writer of `f` failed.
pub fn write_front<W: fmt::Write>(out: &[u8], end: usize, f: &mut fmt::Formatter<W>) -> fmt::Result
    requires { end ≤ length out.now }
    ensures { WritesOnOk W.write_str_gives f.old result (take end out.now) f.new }
{
    // The bytes that a `put` writes are ASCII, so they are a text.
    let text = str::from_utf8(&out[..end]).map_err(|_| fmt::Error)?;
    f.write_str(text)
}
