//! The shortest covers of ranges of addresses by prefixes.
ghost use Rattle.std.specs.Prelude.{◌≡◌, ◌/◌, ◌^◌, ◌≤◌, [], length};
ghost use Rattle.std.specs.Iterator.{YieldsFirst, item_count};
ghost use Rattle.rpki_block.specs.Bounds.{IsWithin};
ghost use Rattle.rpki_cover.specs.Covers.{IsShortestCover, IsV4CoverList};
ghost use Rattle.rpki_ip.specs.Ranges.{range_bounds};
ghost use Rattle.rpki_ip.specs.Whole.{HasWholeBounds};

use crate::addr::Addr;
use crate::prefix::Prefix;
use crate::range::AddressRange;
use rpki_cover::cover::Cover;
use std::marker::Model;

/// Iterates over the prefixes of the shortest cover of a range, ascending.
///
/// In contracts its value is the list of the prefixes that are left.
#[derive(Debug, Drop)]
pub struct V6Prefixes {
    cover: Cover,
}

impl Model for V6Prefixes {
    ghost use Rattle.std.specs.Prelude.{List, All};
    ghost use Rattle.rpki_cover.specs.Prefixes.{PrefixValue, IsPrefix};

    ghost Value = { List PrefixValue };

    ghost view = { λ p. p.cover };

    ghost invariant = { λ p. All (IsPrefix 128) p.cover };
}

/// Returns an iterator without prefixes.
impl Default for V6Prefixes {
    ghost is_default = { λ prefixes. prefixes ≡ [] };

    fn default() -> V6Prefixes {
        V6Prefixes {
            cover: Cover::default(),
        }
    }
}

impl Iterator for V6Prefixes {
    type Item = Prefix;

    ghost next_gives = { YieldsFirst (λ prefixes. prefixes) };

    ghost remaining = { item_count (λ prefixes. prefixes) };

    fn next(&mut self) -> Option<Prefix> {
        let prefix = self.cover.next()?;
        Some(Prefix::new(Addr::from_bits(prefix.first()), prefix.len()))
    }
}

/// Iterates over the prefixes of the shortest cover of a range of IPv4 addresses, ascending.
///
/// In contracts its value is the list of the prefixes that are left, as prefixes of 128 bits.
#[derive(Debug, Drop)]
pub struct V4Prefixes {
    cover: Cover,
}

impl Model for V4Prefixes {
    ghost use Rattle.std.specs.Prelude.{List, All, map};
    ghost use Rattle.rpki_cover.specs.Prefixes.{PrefixValue, IsPrefix};
    ghost use Rattle.rpki_cover.specs.Covers.{widened};

    ghost Value = { List PrefixValue };

    ghost view = { λ p. map widened p.cover };

    ghost invariant = { λ p. All (IsPrefix 32) p.cover };
}

/// Returns an iterator without prefixes.
impl Default for V4Prefixes {
    ghost is_default = { λ prefixes. prefixes ≡ [] };

    fn default() -> V4Prefixes {
        V4Prefixes {
            cover: Cover::default(),
        }
    }
}

impl Iterator for V4Prefixes {
    type Item = Prefix;

    ghost next_gives = { YieldsFirst (λ prefixes. prefixes) };

    ghost remaining = { item_count (λ prefixes. prefixes) };

    fn next(&mut self) -> Option<Prefix> {
        let prefix = self.cover.next()?;
        Some(Prefix::new(Addr::from_bits(prefix.first() << 96), prefix.len()))
    }
}

impl AddressRange {
    /// Returns the prefixes of the shortest list that covers the range, ascending.
    ///
    /// The list has all prefixes inside the range that have length 0 or whose parent (one bit shorter) isn't inside. It
    /// has at most 254 prefixes. The call allocates nothing.
    pub fn to_v6_prefixes(self) -> V6Prefixes
        ensures cover { IsShortestCover 128 (IsWithin (range_bounds self)) result }
        ensures few { length result ≤ 254 }
    {
        let (min, max) = (self.min(), self.max());
        V6Prefixes {
            cover: Cover::new(128, min.to_bits(), max.to_bits()),
        }
    }

    /// Returns the prefixes of the shortest list for the IPv4 addresses from the range's first to its last, ascending.
    ///
    /// These addresses are the first 32 bits of the bounds. The lengths are at most 32, and the list has at most 62
    /// prefixes. If the range consists of whole IPv4 addresses ([`AddressRange::is_whole_v4`]), the list is that of
    /// [`AddressRange::to_v6_prefixes`]. The call allocates nothing.
    pub fn to_v4_prefixes(self) -> V4Prefixes
        ensures cover { IsV4CoverList (IsWithin (self.min / 2 ^ 96, self.max / 2 ^ 96)) result }
        ensures whole { HasWholeBounds (range_bounds self)
            → IsShortestCover 128 (IsWithin (range_bounds self)) result }
        ensures few { length result ≤ 62 }
    {
        let (min, max) = (self.min().to_v4(), self.max().to_v4());
        V4Prefixes {
            cover: Cover::new(32, u128::from(min.to_bits()), u128::from(max.to_bits())),
        }
    }
}
