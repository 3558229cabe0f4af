//! Blocks and sets of IPv4 addresses.
ghost use Rattle.std.specs.Prelude.{◌≡◌, ◌+◌, ◌-◌, ◌*◌, ◌^◌};
ghost use Rattle.rpki_der.specs.declared.family.AddressFamily.TheVariants.{Ipv4};
ghost use Rattle.rpki_chain.specs.Runs.{Holds};
ghost use Rattle.rpki_ip.specs.Whole.{IsWhole, HasWholeBounds};
ghost use Rattle.rpki_ip_block.specs.Blocks.{ip_bounds};
ghost use Rattle.rpki_ip_block.specs.PrintedBlocks.{IsBlockOf};

use crate::block::FamilyBlock;
use crate::blocks::FamilyBlocks;
use rpki_addr::addr::Ipv4Addr;
pub use rpki_der::family::Ipv4Family;
use rpki_ipres::blocks::IpBlocks;
use std::alloc::{Allocator, Global};

/// The IPv4 addresses of a prefix or of a range (RFC 3779, 2.2.3.7). A block consists of whole IPv4 addresses.
pub type Ipv4Block = FamilyBlock<Ipv4Family>;

/// A set of IPv4 addresses. It consists of whole IPv4 addresses.
pub type Ipv4Blocks<A = Global> = FamilyBlocks<Ipv4Family, A>;

impl FamilyBlock<Ipv4Family> {
    /// Returns the lowest address.
    pub fn min(&self) -> Ipv4Addr
        ensures value { result * 2 ^ 96 ≡ (ip_bounds self.now).0 }
        ensures whole { HasWholeBounds (ip_bounds self.now) }
    {
        self.to_block().min().to_v4()
    }

    /// Returns the highest address.
    pub fn max(&self) -> Ipv4Addr
        ensures value { result * 2 ^ 96 + (2 ^ 96 - 1) ≡ (ip_bounds self.now).1 }
        ensures block { IsBlockOf Ipv4 self.now }
    {
        self.to_block().max().to_v4()
    }
}

impl<A: Allocator> FamilyBlocks<Ipv4Family, A> {
    /// Returns a set of addresses of either family as one of IPv4. It is the same set, with the same memory.
    ///
    /// # Preconditions
    ///
    /// `blocks` consists of whole IPv4 addresses. [`IpBlocks::is_whole_v4`] returns whether it does.
    pub fn from_ip_blocks(blocks: IpBlocks<A>) -> Ipv4Blocks<A>
        requires { IsWhole (Holds blocks) }
        ensures { result ≡ blocks }
    {
        FamilyBlocks::of(blocks)
    }
}
