//! Blocks and sets of IPv6 addresses.
ghost use Rattle.std.specs.Prelude.{◌≡◌};
ghost use Rattle.rpki_der.specs.declared.family.AddressFamily.TheVariants.{Ipv6};
ghost use Rattle.rpki_ip_block.specs.Blocks.{ip_bounds};
ghost use Rattle.rpki_ip_block.specs.PrintedBlocks.{IsBlockOf};

use crate::block::FamilyBlock;
use crate::blocks::FamilyBlocks;
use rpki_addr::addr::Ipv6Addr;
pub use rpki_der::family::Ipv6Family;
use rpki_ipres::blocks::IpBlocks;
use std::alloc::{Allocator, Global};

/// The IPv6 addresses of a prefix or of a range (RFC 3779, 2.2.3.7).
pub type Ipv6Block = FamilyBlock<Ipv6Family>;

/// A set of IPv6 addresses.
pub type Ipv6Blocks<A = Global> = FamilyBlocks<Ipv6Family, A>;

impl FamilyBlock<Ipv6Family> {
    /// Returns the lowest address.
    pub fn min(&self) -> Ipv6Addr
        ensures { result ≡ (ip_bounds self.now).0 }
    {
        self.to_block().min().to_v6()
    }

    /// Returns the highest address.
    pub fn max(&self) -> Ipv6Addr
        ensures value { result ≡ (ip_bounds self.now).1 }
        ensures block { IsBlockOf Ipv6 self.now }
    {
        self.to_block().max().to_v6()
    }
}

impl<A: Allocator> FamilyBlocks<Ipv6Family, A> {
    /// Returns a set of addresses of either family as one of IPv6. It is the same set, with the same memory.
    pub fn from_ip_blocks(blocks: IpBlocks<A>) -> Ipv6Blocks<A>
        ensures { result ≡ blocks }
    {
        FamilyBlocks::of(blocks)
    }
}
