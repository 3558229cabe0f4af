//! Reads AS numbers of the usual form at an index of a text.
ghost use Rattle.std.specs.Prelude.{◌≡◌, ℕ, ◌≤◌, length, Some, IfSome};
ghost use Rattle.rpki_base.specs.AsnPlaces.{IsAfterLetters, IsAsnAt, IsAsnBetween};

use super::Asn;
use rpki_text::number::digits_from;

/// Returns the index after `as`, in any case of letters, if the text has `as` at `start`. Otherwise returns `start`.
fn after_letters(text: &[u8], start: usize) -> usize
    requires { start ≤ length text.now }
    ensures { IsAfterLetters start result text.now }
{
    if text.len() - start < 2 {
        return start;
    }
    let first = text[start];
    if first != b'A' && first != b'a' {
        return start;
    }
    let second = text[start + 1];
    if second != b'S' && second != b's' {
        return start;
    }
    start + 2
}

/// Reads an AS number of the usual form at index `start`, and returns it with the index after it.
///
/// The usual form is an optional `as`, in any case of letters, and then digits. The call reads the digits that follow,
/// but at most ten. [`Asn::from_str`] also reads texts with a plus sign or more digits.
///
/// Returns None if no digit follows, or if the digits exceed 4294967295.
///
/// # Preconditions
///
/// `start` is at most the length of `text`.
pub fn asn_at(text: &[u8], start: usize) -> Option<(Asn, usize)>
    requires { start ≤ length text.now }
    // The result is a number of the usual form, and any such number at `start` is found.
    ensures found { IfSome result (λ found. IsAsnAt start found.1 text.now found.0) }
    ensures each { (n end : ℕ) → IsAsnAt start end text.now n → result ≡ Some (n, end) }
    // The number is the one that its text writes.
    ensures number { IfSome result (λ found. IsAsnBetween start found.1 text.now found.0) }
{
    let first = after_letters(text, start);
    let (value, end) = digits_from(text, first);
    if end == first || value > u64::from(u32::MAX) {
        return None;
    }
    Some((Asn(value as u32), end))
}
