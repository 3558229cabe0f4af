//! Reads IPv6 addresses of the usual form, which lists mostly have.
//!
//! An address of this form has no IPv4 address at its end, and the text has at least [`ROOM`] bytes from its first byte
//! on. The text's length is therefore compared once for an address, and not for each digit.
ghost use Rattle.std.specs.Prelude.{◌≡◌, ◌+◌, ◌-◌, ◌*◌, ◌^◌, ◌<◌, ◌≤◌, true, false, IsTrue, Some, length, drop, get_or, option_map, IfSome, MatchOption};
ghost use Rattle.std.specs.Char.{digit_value};
ghost use Rattle.std.specs.Net.Reader as Reader;
ghost use Rattle.rpki_addr.specs.ReaderResults.{numbered, with_number};
ghost use Rattle.rpki_addr.specs.GroupProgress.{EndsGroupAt, IsGroupAt};

use super::read::with_zeros;
use rpki_text::hexadecimal::hex_value;

/// The number of bytes of the longest text of eight groups, and one more.
const ROOM: usize = 40;

/// Returns the value of the hexadecimal digit at an index, or 16 if another byte is there.
#[inline(always)]
#[tactic(auto, unfolding(rpki_text::specs::Digits::hex_value))]
fn digit_at(text: &[u8], at: usize) -> u32
    requires { at < length text.now }
    ensures digit { result < 16 → digit_value (get_or text.now at 0) ≡ result }
    ensures other { 16 ≤ result → 16 ≤ digit_value (get_or text.now at 0) }
{
    u32::from(hex_value(text[at]))
}

/// Returns whether a group ends before an index: neither a hexadecimal digit nor a dot is there.
#[inline(always)]
fn ends_group(text: &[u8], at: usize) -> bool
    requires { at < length text.now }
    ensures { IsTrue result → EndsGroupAt text.now at }
{
    digit_at(text, at) >= 16 && text[at] != b'.'
}

/// Returns the number that the hexadecimal digits from an index on write, and the index after them.
///
/// Reads four digits at most. Returns None if the first octet is no digit.
#[inline(always)]
fn group_at(text: &[u8], at: usize) -> Option<(u32, usize)>
    requires { at + 5 ≤ length text.now }
    ensures { MatchOption result (16 ≤ digit_value (get_or text.now at 0))
        (λ group. IsGroupAt text.now at group.0 group.1) }
{
    let first = digit_at(text, at);
    if first >= 16 {
        return None;
    }
    let second = digit_at(text, at + 1);
    if second >= 16 {
        return Some((first, at + 1));
    }
    let two = first * 16 + second;
    let third = digit_at(text, at + 2);
    if third >= 16 {
        return Some((two, at + 2));
    }
    let three = two * 16 + third;
    let fourth = digit_at(text, at + 3);
    if fourth >= 16 {
        return Some((three, at + 3));
    }
    Some((three * 16 + fourth, at + 4))
}

/// Groups at the front of a text.
#[derive(Clone, Copy)]
struct UsualGroups {
    /// The groups as one number, the first group highest.
    bits: u128,
    /// The number of groups.
    count: usize,
    /// The index after the groups.
    end: usize,
}

/// Takes groups with colons between them, until no group follows or `max_count` groups were read.
///
/// The caller looks at the byte after the last group: if a fifth digit or a dot is there, the result has no meaning.
#[inline(always)]
#[tactic(auto, using(crate::proofs::UsualGroups::usual_step, crate::proofs::UsualGroups::usual_end))]
fn usual_groups(text: &[u8], max_count: usize) -> UsualGroups
    requires at_most { max_count ≤ 8 }
    requires room { 5 * max_count ≤ length text.now }
    ensures value { EndsGroupAt text.now result.end
        → (result.bits, result.count, false, drop result.end text.now)
        ≡ numbered (Reader.read_segments max_count true text.now) }
    ensures small { result.bits < 0x10000 ^ result.count }
    ensures within { result.count ≤ max_count }
    ensures end { result.end ≤ 5 * result.count - 1 }
{
    let mut groups = UsualGroups {
        bits: 0,
        count: 0,
        end: 0,
    };
    let mut at = 0;
    while groups.count < max_count {
        let Some((group, end)) = group_at(text, at) else {
            return groups;
        };
        groups = UsualGroups {
            bits: groups.bits * 0x10000 + u128::from(group),
            count: groups.count + 1,
            end,
        };
        if text[end] != b':' {
            return groups;
        }
        at = end + 1;
    }
    groups
}

/// Takes an IPv6 address of the usual form and returns its number. It returns None for some addresses of other forms.
#[tactic(auto, using(crate::proofs::UsualGroups::usual_read))]
pub(super) fn take_usual_ipv6(text: &[u8]) -> Option<(u128, &[u8])>
    ensures { IfSome result
        (λ read. Some (read.0, read.1.now) ≡ option_map with_number (Reader.read_ipv6 text.now)) }
{
    if text.len() < ROOM {
        return None;
    }
    let front = usual_groups(text, 8);
    if front.count == 8 {
        if !ends_group(text, front.end) {
            return None;
        }
        return Some((front.bits, &text[front.end..]));
    }
    if text[front.end] != b':' || text[front.end + 1] != b':' {
        return None;
    }
    // Two colons stand for at least one zero group.
    let text = &text[front.end + 2..];
    let back = usual_groups(text, 7 - front.count);
    if !ends_group(text, back.end) {
        return None;
    }
    let bits = with_zeros(front.bits, 8 - front.count) + back.bits;
    Some((bits, &text[back.end..]))
}
