//! Parsing of an address, and of the text after it, at the front of a text. Lists are parsed so in one pass.
//!
//! Each call accepts only the usual form. It returns None for any other text, even for one that a call of
//! [`crate::text`] accepts.
ghost use Rattle.std.specs.Prelude.{◌≡◌, Some, IfSome};
ghost use Rattle.std.specs.Str.Parse.{AllDigits};
ghost use Rattle.rpki_addr.specs.AddressFronts.{IsAtFront};
ghost use Rattle.rpki_ip.specs.BlockText.{IsAddressText, IsPrefixAt, IsRangeFrom, WithAddress};

use crate::addr::Addr;
use crate::prefix::Prefix;
use crate::range::AddressRange;
use rpki_addr::addr::front::{ipv4_at_front, ipv6_at_front};
use rpki_addr::addr::{Ipv4Addr, Ipv6Addr};
use rpki_text::number::digits_from;

/// An address whose type is its family. A reader of many addresses then checks the family once.
pub trait FamilyAddr: Copy {
    ghost use Rattle.std.specs.Prelude.{ℕ};
    ghost use Rattle.rpki_addr.specs.Widths.{width};
    ghost use Rattle.rpki_ip.specs.AddrText.{family_of, first_of, greatest_of};
    ghost use Rattle.rpki_addr.specs.declared.addr.IpAddr.{IpAddr};
    ghost use Rattle.rpki_der.specs.declared.family.AddressFamily.{AddressFamily};

    // The family.
    ghost family: { AddressFamily };

    // The address, as an address of either family.
    ghost ip: { Self → IpAddr };

    ghost BITS: { ℕ };

    /// The number of bits of the family's addresses.
    const BITS: u8;

    /// Returns the address at the front of the text, and the rest of the text.
    ///
    /// It returns None if the text doesn't begin with an address of the usual form.
    fn addr_at_front(text: &[u8]) -> Option<(Self, &[u8])>
        ensures { IfSome result
            (λ found. IsAtFront (IsAddressText (Some family)) text.now (ip found.0) found.1.now) };

    /// Returns the least number of the address.
    fn least(self) -> Addr
        ensures { result ≡ first_of (ip self) };

    /// Returns the greatest number of the address.
    fn greatest(self) -> Addr
        ensures { result ≡ greatest_of (ip self) };

    // Each address is of the family.
    ghost has_family: { (a : Self) → family_of (ip a) ≡ family };

    // Each address has this number of bits.
    ghost has_width: { (a : Self) → width (ip a) ≡ BITS };
}

impl FamilyAddr for Ipv4Addr {
    ghost use Rattle.std.specs.Prelude.{refl};
    ghost use Rattle.rpki_addr.specs.declared.addr.IpAddr.TheVariants.{V4};
    ghost use Rattle.rpki_der.specs.declared.family.AddressFamily.TheVariants.{Ipv4};

    ghost family = { Ipv4 };

    ghost ip = { V4 };

    ghost BITS = { 32 };

    ghost has_family = { λ a. refl };

    ghost has_width = { λ a. refl };

    const BITS: u8 = 32;

    #[inline(always)]
    fn addr_at_front(text: &[u8]) -> Option<(Ipv4Addr, &[u8])> {
        ipv4_at_front(text)
    }

    #[inline(always)]
    fn least(self) -> Addr {
        Addr::from_v4(self)
    }

    #[inline(always)]
    fn greatest(self) -> Addr {
        Addr::from_v4(self).to_max(32)
    }
}

impl FamilyAddr for Ipv6Addr {
    ghost use Rattle.std.specs.Prelude.{refl};
    ghost use Rattle.rpki_addr.specs.declared.addr.IpAddr.TheVariants.{V6};
    ghost use Rattle.rpki_der.specs.declared.family.AddressFamily.TheVariants.{Ipv6};

    ghost family = { Ipv6 };

    ghost ip = { V6 };

    ghost BITS = { 128 };

    ghost has_family = { λ a. refl };

    ghost has_width = { λ a. refl };

    const BITS: u8 = 128;

    #[inline(always)]
    fn addr_at_front(text: &[u8]) -> Option<(Ipv6Addr, &[u8])> {
        ipv6_at_front(text)
    }

    #[inline(always)]
    fn least(self) -> Addr {
        Addr::from_v6(self)
    }

    #[inline(always)]
    fn greatest(self) -> Addr {
        Addr::from_v6(self)
    }
}

/// Returns the range from `first` to the address at the front of the text, and the rest of the text.
///
/// It returns None if the text doesn't begin with an address of the family, or if that address is below `first`.
#[inline(always)]
pub fn range_end_at_front<A: FamilyAddr>(first: A, text: &[u8]) -> Option<(AddressRange, &[u8])>
    ensures { IfSome result (λ found. IsAtFront
        (λ t r. WithAddress (Some A.family) t (λ last. IsRangeFrom (A.ip first) last r))
        text.now found.0 found.1.now) }
{
    let Some((last, rest)) = A::addr_at_front(text) else {
        return None;
    };
    let (min, max) = (first.least(), last.greatest());
    if min > max {
        return None;
    }
    Some((AddressRange::new(min, max), rest))
}

/// Returns the prefix at `first` whose length in digits is at the front of the text, and the rest of the text.
///
/// The bits after the length are cleared. It returns None if the text doesn't begin with a digit, or if the length is
/// above the number of bits of the address.
#[inline(always)]
pub fn prefix_len_at_front<A: FamilyAddr>(first: A, text: &[u8]) -> Option<(Prefix, &[u8])>
    ensures { IfSome result
        (λ found. IsAtFront (λ t p. AllDigits 10 t × IsPrefixAt (A.ip first) t p)
        text.now found.0 found.1.now) }
{
    let (len, end) = digits_from(text, 0);
    if end == 0 || len > u64::from(A::BITS) {
        return None;
    }
    Some((Prefix::new(first.least(), len as u8), &text[end..]))
}

/// Returns the range of the numbers of one address, from its least to its greatest.
#[inline(always)]
pub fn range_of<A: FamilyAddr>(addr: A) -> AddressRange
    ensures { IsRangeFrom (A.ip addr) (A.ip addr) result }
{
    AddressRange::new(addr.least(), addr.greatest())
}
