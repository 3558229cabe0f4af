//! The shortest covers of blocks of addresses by prefixes.
ghost use Rattle.std.specs.Prelude.{◌≡◌};
ghost use Rattle.std.specs.Iterator.{YieldsFirst, item_count};
ghost use Rattle.rpki_ip_block.specs.BlockCovers.{blocks_cover};

use crate::block::IpBlock;
use rpki_ip::cover::V6Prefixes;
use rpki_ip::prefix::Prefix;
use rpki_ip::range::AddressRange;
use std::marker::Model;
use std::slice::Iter;

/// Iterates over the prefixes of the shortest covers of blocks, one block after the other.
///
/// For the blocks of a set these prefixes are the set's shortest cover, ascending. In contracts its value is the list
/// of the prefixes that are left.
#[derive(Debug, Drop)]
pub struct SetPrefixes<'a> {
    current: V6Prefixes, // in whole IPv4 addresses all lengths are at most 32
    later: Iter<'a, IpBlock>,
}

impl<'a> Model for SetPrefixes<'a> {
    ghost use Rattle.std.specs.Prelude.{List, ◌++◌};
    ghost use Rattle.std.specs.Slice.Iter.{iter_rest};
    ghost use Rattle.rpki_cover.specs.Prefixes.{PrefixValue};
    ghost use Rattle.rpki_ip_block.specs.BlockCovers.{blocks_cover};

    ghost Value = { List PrefixValue };

    ghost view = { λ p. p.current ++ blocks_cover (iter_rest p.later) };
}

impl<'a> SetPrefixes<'a> {
    /// Iterates over the prefixes of the shortest cover of each block, one block after the other.
    pub fn over(blocks: &'a [IpBlock]) -> SetPrefixes<'a>
        ensures { result ≡ blocks_cover blocks.now }
    {
        SetPrefixes {
            current: V6Prefixes::default(),
            later: blocks.iter(),
        }
    }
}

impl Iterator for SetPrefixes<'_> {
    type Item = Prefix;

    ghost next_gives = { YieldsFirst (λ prefixes. prefixes) };

    ghost remaining = { item_count (λ prefixes. prefixes) };

    fn next(&mut self) -> Option<Prefix> {
        if let Some(prefix) = self.current.next() {
            return Some(prefix);
        }
        let Some(block) = self.later.next() else {
            return None;
        };
        self.current = AddressRange::new(block.min(), block.max()).to_v6_prefixes();
        self.current.next()
    }
}
