//! Sets of addresses for display as sets of a family.
ghost use Rattle.std.specs.Prelude.{◌≡◌, Some};
ghost use Rattle.rpki_der.specs.declared.family.AddressFamily.TheVariants.{Ipv4, Ipv6};
ghost use Rattle.rpki_ipres.specs.SetText.{set_text};

use crate::blocks::IpBlocks;
use rpki_ip::family::AddressFamily;
use rpki_ip_block::list::fmt_blocks;
use std::alloc::{Allocator, Global};
use std::fmt;
use std::marker::Model;

/// A set of addresses that is displayed as a set of a family.
///
/// In contracts its value is the family and the runs of the set.
#[derive(Drop)]
pub struct IpBlocksForFamily<'a, A: Allocator = Global> {
    family: AddressFamily,
    blocks: &'a IpBlocks<A>,
}

impl<'a, A: Allocator> Model for IpBlocksForFamily<'a, A> {
    ghost use Rattle.rpki_chain.specs.Runs.{Runs};
    ghost use Rattle.rpki_der.specs.declared.family.AddressFamily.{AddressFamily};

    ghost Value = { AddressFamily × Runs };

    ghost view = { λ d. (d.family, d.blocks.now) };
}

impl<'a, A: Allocator> IpBlocksForFamily<'a, A> {
    /// Returns the set for display as a set of `family`.
    pub(crate) fn of(family: AddressFamily, blocks: &'a IpBlocks<A>) -> IpBlocksForFamily<'a, A>
        ensures { result ≡ (family, blocks.now) }
    {
        IpBlocksForFamily { family, blocks }
    }

    /// Returns the set for display as an IPv4 set.
    pub fn v4(blocks: &'a IpBlocks<A>) -> IpBlocksForFamily<'a, A>
        ensures { result ≡ (Ipv4, blocks.now) }
    {
        IpBlocksForFamily::of(AddressFamily::Ipv4, blocks)
    }

    /// Returns the set for display as an IPv6 set.
    pub fn v6(blocks: &'a IpBlocks<A>) -> IpBlocksForFamily<'a, A>
        ensures { result ≡ (Ipv6, blocks.now) }
    {
        IpBlocksForFamily::of(AddressFamily::Ipv6, blocks)
    }
}

impl<'a, A: Allocator> fmt::Debug for IpBlocksForFamily<'a, A> {
    fn fmt<W: fmt::Write>(&self, f: &mut fmt::Formatter<W>) -> fmt::Result {
        f.debug_struct("IpBlocksForFamily")
            .field("family", &self.family)
            .field("blocks", self.blocks)
            .finish()
    }
}

/// Prints the blocks of the set, ascending, joined by a comma and a space.
///
/// Each block is printed as by [`IpBlock::fmt_v4`](crate::block::IpBlock::fmt_v4) or `fmt_v6`. The empty set prints
/// nothing.
impl<'a, A: Allocator> fmt::Display for IpBlocksForFamily<'a, A> {
    ghost output = { λ d. Some (set_text d.0 d.1) };

    fn fmt<W: fmt::Write>(&self, f: &mut fmt::Formatter<W>) -> fmt::Result {
        fmt_blocks(self.family, self.blocks.as_slice(), f)
    }
}
