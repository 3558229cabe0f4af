//! Reads addresses from bytes. Most bytes are read once.
//!
//! Each reader takes bytes from the front of a text. It returns the value that they write, and the text after them.
ghost use Rattle.std.specs.Prelude.{◌≡◌, ◌==◌, true, ◌*◌, ◌^◌, ◌<◌, ◌≤◌, ℕ, List, Some, length, get_or, option_map, option_and_then, IfSome, MatchOption};
ghost use Rattle.std.specs.Char.{digit_value};
ghost use Rattle.std.specs.Net.Reader as Reader;
ghost use Rattle.rpki_text.specs.Digits.{from_octets};
ghost use Rattle.rpki_addr.specs.ReaderResults.{numbered, with_number, with_octets};
ghost use Rattle.rpki_addr.specs.GroupProgress.{IsSoFar, parts};

use super::usual::take_usual_ipv6;
use rpki_text::hexadecimal::hex_value;

/// Returns the value of the decimal digit at an index, or 10 or more if there is no digit.
#[inline(always)]
fn decimal_at(text: &[u8], at: usize) -> u8
    ensures digit { result < 10 → digit_value (get_or text.now at 0) ≡ result }
    ensures some { result < 10 → at < length text.now }
    ensures other { 10 ≤ result → 10 ≤ digit_value (get_or text.now at 0) }
{
    if at < text.len() && text[at] >= b'0' {
        text[at] - b'0'
    } else {
        10
    }
}

/// Takes a decimal from 0 to 255 without leading zeros.
#[inline(always)]
#[tactic(auto, using(crate::proofs::DigitGroupLemmas::octet_read))]
fn take_octet(text: &[u8]) -> Option<(u8, &[u8])>
    ensures { Reader.read_view (λ n. n) result ≡ Reader.read_octet text.now }
{
    let first = decimal_at(text, 0);
    if first >= 10 {
        return None;
    }
    let second = decimal_at(text, 1);
    if second >= 10 {
        return Some((first, &text[1..]));
    }
    if first == 0 {
        return None;
    }
    let third = decimal_at(text, 2);
    if third >= 10 {
        return Some((first * 10 + second, &text[2..]));
    }
    let octet = (u32::from(first) * 10 + u32::from(second)) * 10 + u32::from(third);
    if octet > 255 {
        return None;
    }
    if decimal_at(text, 3) < 10 {
        return None;
    }
    Some((octet as u8, &text[3..]))
}

/// Returns the text after this byte, if the text begins with it.
#[inline(always)]
fn strip_byte(byte: u8, text: &[u8]) -> Option<&[u8]>
    ensures { option_map (λ rest. rest.now) result ≡ Reader.read_byte byte text.now }
{
    let (first, rest) = text.split_first()?;
    if *first == byte { Some(rest) } else { None }
}

/// Takes a dot and an octet.
#[inline(always)]
fn take_next_octet(text: &[u8]) -> Option<(u8, &[u8])>
    ensures { Reader.read_view (λ n. n) result
        ≡ option_and_then Reader.read_octet (Reader.read_byte 46 text.now) }
{
    take_octet(strip_byte(b'.', text)?)
}

/// Takes an IPv4 address and returns its number.
#[tactic(auto, unfolding(std::specs::Net::Reader::read_ipv4))]
pub(super) fn take_ipv4(text: &[u8]) -> Option<(u32, &[u8])>
    ensures { Reader.read_view (λ n. n) result
        ≡ option_map with_octets (Reader.read_ipv4 text.now) }
{
    let (a, text) = take_octet(text)?;
    let (b, text) = take_next_octet(text)?;
    let (c, text) = take_next_octet(text)?;
    let (d, text) = take_next_octet(text)?;
    Some((number_of([a, b, c, d]), text))
}

/// Returns the number of the address with these octets.
#[inline(always)]
fn number_of(octets: [u8; 4]) -> u32
    ensures { result ≡ from_octets octets }
{
    u32::from_be_bytes(octets)
}

/// Returns whether there is a dot at this index.
#[inline(always)]
fn is_dot(text: &[u8], at: usize) -> bool
    ensures { result ≡ (get_or text.now at 0 == 46) }
{
    at < text.len() && text[at] == b'.'
}

/// Takes an IPv4 address in place of the last two groups, if two groups fit (`both_fit`).
///
/// `behind_group` is the text after the group at the front of `text`. It begins with a dot if `text` begins with an
/// IPv4 address.
#[inline(always)]
#[tactic(auto, using(crate::proofs::DigitGroupLemmas::no_last_two))]
fn take_last_two<'a>(text: &'a [u8], behind_group: &[u8], both_fit: bool) -> Option<(u32, &'a [u8])>
    requires { (group : ℕ) × (Reader.read_segment text.now ≡ Some (group, behind_group.now)) }
    ensures { Reader.read_view (λ n. n) result
        ≡ option_map with_octets (Reader.read_ipv4_if both_fit text.now) }
{
    if !both_fit {
        return None;
    }
    if is_dot(behind_group, 0) {
        return take_ipv4(text);
    }
    None
}

/// Returns the value of the hexadecimal digit at an index, or 16 if there is no digit.
#[inline(always)]
#[tactic(auto, unfolding(rpki_text::specs::Digits::hex_value))]
fn hex_at(text: &[u8], at: usize) -> u8
    ensures digit { result < 16 → digit_value (get_or text.now at 0) ≡ result }
    ensures some { result < 16 → at < length text.now }
    ensures other { 16 ≤ result → 16 ≤ digit_value (get_or text.now at 0) }
{
    if at < text.len() {
        hex_value(text[at])
    } else {
        16
    }
}

/// Takes a group: one to four hexadecimal digits.
#[inline(always)]
#[tactic(auto, using(crate::proofs::DigitGroupLemmas::group_read))]
fn take_group(text: &[u8]) -> Option<(u16, &[u8])>
    ensures { Reader.read_view (λ n. n) result ≡ Reader.read_segment text.now }
{
    let first = hex_at(text, 0);
    if first >= 16 {
        return None;
    }
    let second = hex_at(text, 1);
    if second >= 16 {
        return Some((u16::from(first), &text[1..]));
    }
    let two = u16::from(first) * 16 + u16::from(second);
    let third = hex_at(text, 2);
    if third >= 16 {
        return Some((two, &text[2..]));
    }
    let three = two * 16 + u16::from(third);
    let fourth = hex_at(text, 3);
    if fourth >= 16 {
        return Some((three, &text[3..]));
    }
    if hex_at(text, 4) < 16 {
        return None;
    }
    Some((three * 16 + u16::from(fourth), &text[4..]))
}

/// The groups that were read so far.
#[derive(Clone, Copy)]
struct Groups<'a> {
    /// The groups as one number, the first group highest.
    bits: u128,
    /// The number of groups.
    count: usize,
    /// Whether the last two groups are an IPv4 address, which no group can follow.
    closed: bool,
    /// The text after the groups.
    rest: &'a [u8],
}

impl<'a> Groups<'a> {
    /// Returns the text after the colon before the next group. The first group has no colon before it.
    #[inline(always)]
    fn next_text(&self) -> Option<&'a [u8]>
        ensures { option_map (λ rest. rest.now) result
            ≡ Reader.read_separator (self.now.count == 0) self.now.rest.now }
    {
        if self.count == 0 {
            return Some(self.rest);
        }
        strip_byte(b':', self.rest)
    }

    /// Returns the groups with the next group, or with the next two from an IPv4 address. Returns None if no group
    /// follows, or if `max_count` groups were read.
    #[inline(always)]
    #[tactic(auto, using(crate::proofs::GroupLemmas::one_fits, crate::proofs::GroupLemmas::two_fit, crate::proofs::GroupLemmas::with_ipv4, crate::proofs::GroupLemmas::with_group))]
    fn longer(&self, max_count: usize) -> Option<Groups<'a>>
        requires within { self.now.count ≤ max_count }
        requires small { self.now.bits < 0x10000 ^ self.now.count }
        requires at_most { max_count ≤ 8 }
        ensures so_far { (text : List ℕ) → IsSoFar max_count text self.now → MatchOption result
            (parts self.now ≡ numbered (Reader.read_segments max_count true text))
            (λ groups. IsSoFar max_count text groups) }
        ensures more { IfSome result (λ groups. self.now.count < groups.count) }
    {
        if self.closed {
            return None;
        }
        if self.count == max_count {
            return None;
        }
        let Some(text) = self.next_text() else {
            return None;
        };
        let Some((group, rest)) = take_group(text) else {
            return None;
        };
        if let Some((low, rest)) = take_last_two(text, rest, self.count + 1 < max_count) {
            return Some(Groups {
                bits: self.bits * 0x1_0000_0000 + u128::from(low),
                count: self.count + 2,
                closed: true,
                rest,
            });
        }
        Some(Groups {
            bits: self.bits * 0x10000 + u128::from(group),
            count: self.count + 1,
            closed: false,
            rest,
        })
    }
}

/// Takes groups with colons between them, until no group follows or `max_count` groups were read.
fn take_groups(text: &[u8], max_count: usize) -> Groups<'_>
    requires { max_count ≤ 8 }
    ensures value { parts result ≡ numbered (Reader.read_segments max_count true text.now) }
    ensures small { result.bits < 0x10000 ^ result.count }
    ensures within { result.count ≤ max_count }
{
    let mut groups = Groups {
        bits: 0,
        count: 0,
        closed: false,
        rest: text,
    };
    while let Some(longer) = groups.longer(max_count) {
        groups = longer;
    }
    groups
}

/// Returns the text after two colons, if the text begins with them.
#[inline(always)]
fn strip_colons(text: &[u8]) -> Option<&[u8]>
    ensures { option_map (λ rest. rest.now) result
        ≡ option_and_then (Reader.read_byte 58) (Reader.read_byte 58 text.now) }
{
    strip_byte(b':', strip_byte(b':', text)?)
}

/// Returns the number of the groups of `bits` followed by `count` zero groups.
#[inline(always)]
#[tactic(auto, using(crate::proofs::GroupLemmas::shifted, crate::proofs::GroupLemmas::none_before_eight))]
pub(super) fn with_zeros(bits: u128, count: usize) -> u128
    requires few { count ≤ 8 }
    requires fits { bits * 0x10000 ^ count < 2 ^ 128 }
    ensures { result ≡ bits * 0x10000 ^ count }
{
    if count == 8 {
        return 0;
    }
    bits << (16 * count)
}

/// Takes an IPv6 address of any form and returns its number.
#[tactic(auto, using(crate::proofs::GroupLemmas::number_elided, crate::proofs::GroupLemmas::elided_fits), unfolding(std::specs::Net::Reader::read_ipv6))]
fn take_any_ipv6(text: &[u8]) -> Option<(u128, &[u8])>
    ensures { Reader.read_view (λ n. n) result
        ≡ option_map with_number (Reader.read_ipv6 text.now) }
{
    let front = take_groups(text, 8);
    if front.count == 8 {
        return Some((front.bits, front.rest));
    }
    if front.closed {
        return None;
    }
    let Some(text) = strip_colons(front.rest) else {
        return None;
    };
    // Two colons stand for at least one zero group.
    let back = take_groups(text, 7 - front.count);
    let bits = with_zeros(front.bits, 8 - front.count) + back.bits;
    Some((bits, back.rest))
}

/// Takes an IPv6 address and returns its number.
pub(super) fn take_ipv6(text: &[u8]) -> Option<(u128, &[u8])>
    ensures { Reader.read_view (λ n. n) result
        ≡ option_map with_number (Reader.read_ipv6 text.now) }
{
    match take_usual_ipv6(text) {
        Some(read) => Some(read),
        None => take_any_ipv6(text),
    }
}

/// Returns the value, if no text is left after it.
#[inline(always)]
fn if_whole<T: Copy>(read: Option<(T, &[u8])>) -> Option<T>
    ensures { result ≡ Reader.whole_value (Reader.read_view (λ x. x) read.entry) }
{
    let (value, rest) = read?;
    if rest.is_empty() { Some(value) } else { None }
}

/// Returns the number of the IPv4 address, if the whole text is one.
pub(crate) fn ipv4_of(text: &[u8]) -> Option<u32>
    ensures { result ≡ Reader.whole_value (option_map with_octets (Reader.read_ipv4 text.now)) }
{
    if_whole(take_ipv4(text))
}

/// Returns the number of the IPv6 address, if the whole text is one.
pub(crate) fn ipv6_of(text: &[u8]) -> Option<u128>
    ensures { result ≡ Reader.whole_value (option_map with_number (Reader.read_ipv6 text.now)) }
{
    if_whole(take_ipv6(text))
}
