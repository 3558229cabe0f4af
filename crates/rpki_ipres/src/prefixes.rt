//! The shortest covers of sets of addresses by prefixes.
ghost use Rattle.rpki_chain.specs.Runs.{Holds};
ghost use Rattle.rpki_cover.specs.Covers.{IsShortestCover};

use crate::blocks::IpBlocks;
pub use rpki_ip_block::prefixes::SetPrefixes;
use std::alloc::Allocator;

impl<A: Allocator> IpBlocks<A> {
    /// Returns the prefixes of the shortest list that covers the set, ascending.
    ///
    /// The list has all prefixes inside the set that have length 0 or whose parent (one bit shorter) isn't inside. If
    /// the set consists of whole IPv4 addresses ([`IpBlocks::is_whole_v4`]), the lengths are at most 32. The call
    /// allocates nothing.
    #[tactic(auto, using(crate::proofs::IpSetCoverLemmas::set_covered))]
    pub fn prefixes(&self) -> SetPrefixes<'_>
        ensures { IsShortestCover 128 (Holds self.now) result }
    {
        SetPrefixes::over(self.as_slice())
    }
}
