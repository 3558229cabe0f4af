//! Reads the parts at the front of a text in the usual form: a byte, an AS number, a prefix and a number.
//!
//! Each call returns None for a text of another form.
ghost use Rattle.std.specs.Prelude.{◌≡◌, ◌∷◌, IfSome};
ghost use Rattle.rpki_addr.specs.AddressFronts.{IsAtFront};
ghost use Rattle.rpki_addr.specs.AddressText.{IsIpText};
ghost use Rattle.roa_vrps.specs.UsualRows.{IsAsnWord, IsDigitText, IsPrefixWord};

use rpki_base::addr::IpAddr;
use rpki_base::addr::front::{ipv4_at_front, ipv6_at_front};
use rpki_base::asn::at_index::asn_at;
use rpki_base::number::digits_from;

/// Returns the text after `byte` if the byte is at the front.
#[inline(always)]
pub fn strip_byte(byte: u8, text: &[u8]) -> Option<&[u8]>
    ensures { IfSome result (λ rest. text.now ≡ byte ∷ rest.now) }
{
    let (first, rest) = text.split_first()?;
    if *first == byte { Some(rest) } else { None }
}

/// Returns the value of the AS number at the front, and the text after it.
#[inline(always)]
#[tactic(auto, using(crate::proofs::UsualRowLemmas::asn_first))]
pub fn take_asn(text: &[u8]) -> Option<(u32, &[u8])>
    ensures { IfSome result (λ found. IsAtFront IsAsnWord text.now found.0 found.1.now) }
{
    let (asn, end) = asn_at(text, 0)?;
    Some((asn.into_u32(), &text[end..]))
}

/// Returns the address and the length of the prefix at the front, and the text after it.
#[inline(always)]
pub fn take_prefix(text: &[u8]) -> Option<(IpAddr, u8, &[u8])>
    ensures { IfSome result (λ found. IsAtFront IsPrefixWord text.now (found.0, found.1) found.2.now) }
{
    let Some((addr, after)) = take_addr(text) else {
        return None;
    };
    let digits = strip_byte(b'/', after)?;
    let (len, rest) = take_number(digits)?;
    Some((addr, len, rest))
}

/// Returns the address at the front, and the text after it.
#[inline(always)]
fn take_addr(text: &[u8]) -> Option<(IpAddr, &[u8])>
    ensures { IfSome result (λ found. IsAtFront IsIpText text.now found.0 found.1.now) }
{
    if let Some((addr, rest)) = ipv4_at_front(text) {
        return Some((IpAddr::V4(addr), rest));
    }
    match ipv6_at_front(text) {
        Some((addr, rest)) => Some((IpAddr::V6(addr), rest)),
        None => None,
    }
}

/// Returns the number of 8 bits that digits at the front write, and the text after the digits.
#[inline(always)]
#[tactic(auto, using(crate::proofs::UsualRowLemmas::number_first))]
pub fn take_number(text: &[u8]) -> Option<(u8, &[u8])>
    ensures { IfSome result (λ found. IsAtFront IsDigitText text.now found.0 found.1.now) }
{
    let (value, end) = digits_from(text, 0);
    if end == 0 || value > u64::from(u8::MAX) {
        return None;
    }
    Some((value as u8, &text[end..]))
}
