//! Ranges of addresses.
ghost use Rattle.std.specs.Prelude.{◌≡◌, ◌≤◌, ◌↔◌, IsTrue, Ok, IfOk, IfErr, IfSome, IfNone};
ghost use Rattle.rpki_cover.specs.Prefixes.{PrefixValue, IsPrefix};
ghost use Rattle.rpki_block.specs.Bounds.{IsWithin};
ghost use Rattle.rpki_ip.specs.Ranges.{IsRange, IsRangeOf, range_bounds};
ghost use Rattle.rpki_ip.specs.Whole.{IsWhole, HasWholeBounds};

use crate::addr::Addr;
use crate::prefix::Prefix;
use rpki_block::block::Block;
use std::marker::Model;

/// The addresses from a least to a greatest address, which may be the same (RFC 3779, 2.2.3.9).
#[derive(Clone, Copy, Debug, PartialEq, Eq, Hash)]
pub struct AddressRange {
    min: Addr,
    max: Addr,
}

impl Model for AddressRange {
    ghost use Rattle.rpki_ip.specs.Ranges.{RangeValue, IsRange};

    ghost Value = { RangeValue };

    ghost view = { λ r. record { min = r.min; max = r.max } };

    ghost invariant = { λ r. IsRange (record { min = r.min; max = r.max }) };

    ghost inverse = { λ r. record { min = r.min; max = r.max } };
}

impl AddressRange {
    /// Returns the range from `min` to `max`.
    ///
    /// # Preconditions
    ///
    /// `min` isn't above `max`.
    pub fn new(min: Addr, max: Addr) -> AddressRange
        requires { min ≤ max }
        ensures { result ≡ record { min = min; max = max } }
    {
        AddressRange { min, max }
    }

    /// Returns the range from the first address of the pair to the second.
    ///
    /// # Preconditions
    ///
    /// The first address isn't above the second.
    pub fn from_pair(pair: (Addr, Addr)) -> AddressRange
        requires { pair.0 ≤ pair.1 }
        ensures { result ≡ record { min = pair.0; max = pair.1 } }
    {
        AddressRange::new(pair.0, pair.1)
    }

    /// Returns the least address.
    pub fn min(&self) -> Addr
        ensures value { result ≡ self.now.min }
        ensures ordered { self.now.min ≤ self.now.max }
    {
        self.min
    }

    /// Returns the greatest address.
    pub fn max(&self) -> Addr
        ensures value { result ≡ self.now.max }
        ensures ordered { self.now.min ≤ self.now.max }
    {
        self.max
    }

    /// Replaces the least address.
    ///
    /// # Preconditions
    ///
    /// `min` isn't above the greatest address.
    pub fn set_min(&mut self, min: Addr)
        requires { min ≤ self.old.max }
        ensures { self.new ≡ record { min = min; max = self.old.max } }
    {
        self.min = min;
    }

    /// Replaces the greatest address.
    ///
    /// # Preconditions
    ///
    /// `max` isn't below the least address.
    pub fn set_max(&mut self, max: Addr)
        requires { self.old.min ≤ max }
        ensures { self.new ≡ record { min = self.old.min; max = max } }
    {
        self.max = max;
    }

    /// Returns whether the range consists of whole IPv4 addresses.
    ///
    /// The last 96 bits of its least address are then zeros, and those of its greatest are ones. The range between two
    /// IPv4 addresses is an example.
    pub fn is_whole_v4(&self) -> bool
        ensures bounds { IsTrue result ↔ HasWholeBounds (range_bounds self.now) }
        ensures set { IsTrue result ↔ IsWhole (IsWithin (range_bounds self.now)) }
    {
        self.min.to_min(32) == self.min && self.max.to_max(32) == self.max
    }

    /// Returns the prefix with exactly the range's addresses.
    ///
    /// # Errors
    ///
    /// The range itself if no prefix has exactly these addresses.
    pub fn into_prefix(self) -> Result<Prefix, AddressRange>
        ensures prefix { IfOk result (λ p. IsPrefix 128 p × IsRangeOf p self) }
        ensures found { (p : PrefixValue) → IsPrefix 128 p → IsRangeOf p self → result ≡ Ok p }
        ensures none { IfErr result (λ range. range ≡ self) }
        ensures range { IsRange self }
    {
        match self.prefix_len() {
            Some(len) => Ok(Prefix::from_parts_unchecked(self.min, len)),
            None => Err(self),
        }
    }

    /// Returns the length of the prefix with exactly the range's addresses, or `None` if there is no such prefix.
    ///
    /// In a prefix's least address the bits after the length are clear, and in its greatest address they are set. So
    /// the difference of the two addresses has exactly these bits.
    #[tactic(auto, using(crate::proofs::RangeLemmas::bits_of_prefix))]
    fn prefix_len(&self) -> Option<u8>
        ensures some { IfSome result (λ len. IsPrefix 128
            (record { first = self.now.min; len = len })
            × IsRangeOf (record { first = self.now.min; len = len }) self.now) }
        ensures none { IfNone result ((p : PrefixValue) → IsPrefix 128 p → IsRangeOf p self.now
            → ⊥) }
    {
        let min = self.min.to_bits();
        let host_bits = self.max.to_bits() - min;
        if host_bits & host_bits.wrapping_add(1) == 0 && min & host_bits == 0 {
            Some(host_bits.leading_zeros() as u8)
        } else {
            None
        }
    }
}

/// Returns the range of the prefix's addresses.
impl From<Prefix> for AddressRange {
    ghost from_gives = { λ p r. IsRangeOf p r };

    fn from(prefix: Prefix) -> AddressRange {
        AddressRange::new(prefix.min(), prefix.max())
    }
}

/// A range is a block of the numbers 0 to 2^128 - 1, and has one form.
impl Block for AddressRange {
    ghost use Rattle.std.specs.Prelude.{refl};
    ghost use Rattle.rpki_block.specs.Ranges.{range_bounds, new_range};

    type Item = Addr;

    ghost first = { 0 };

    ghost last = { 340282366920938463463374607431768211455 };

    ghost number = { λ n. n };

    ghost item_at = { λ n. n };

    ghost bounds = { range_bounds };

    ghost form = { new_range };

    ghost in_order = { λ x y. refl };

    ghost no_gaps = { λ n low high. refl };

    ghost one_item = { λ x y same. same };

    ghost form_bounds = { λ b from ordered to. refl };

    fn new(min: Addr, max: Addr) -> AddressRange {
        AddressRange::new(min, max)
    }

    fn min(&self) -> Addr {
        self.min
    }

    fn max(&self) -> Addr {
        self.max
    }

    fn next(item: Addr) -> Option<Addr> {
        item.to_bits().checked_add(1).map(Addr::from_bits)
    }

    fn previous(item: Addr) -> Option<Addr> {
        item.to_bits().checked_sub(1).map(Addr::from_bits)
    }

    fn bounds(&self) -> (Addr, Addr) {
        (self.min, self.max)
    }
}
