//! The shortest covers of sets of addresses of a family by prefixes.
ghost use Rattle.std.specs.Iterator.{YieldsFirst, item_count};
ghost use Rattle.rpki_chain.specs.Runs.{Holds};
ghost use Rattle.rpki_cover.specs.Covers.{IsShortestCover};
ghost use Rattle.rpki_family.specs.Families.{IsCoverListIn};

use crate::blocks::FamilyBlocks;
use crate::family::Family;
use rpki_der::family::{Ipv4Family, Ipv6Family};
use rpki_ip::prefix::Prefix;
use rpki_ipres::prefixes::SetPrefixes;
use std::alloc::Allocator;
use std::fmt;
use std::marker::{Model, PhantomData};

/// An iterator over the prefixes of the shortest cover of a set of addresses of one family, ascending.
///
/// In contracts its value is the list of the prefixes that are left.
#[derive(Drop)]
pub struct FamilySetPrefixes<'a, F: Family> {
    left: SetPrefixes<'a>,
    family: PhantomData<F>,
}

/// An iterator over the prefixes of the shortest cover of a set of IPv4 addresses, ascending.
pub type V4SetPrefixes<'a> = FamilySetPrefixes<'a, Ipv4Family>;

/// An iterator over the prefixes of the shortest cover of a set of IPv6 addresses, ascending.
pub type V6SetPrefixes<'a> = FamilySetPrefixes<'a, Ipv6Family>;

impl<'a, F: Family> Model for FamilySetPrefixes<'a, F> {
    ghost use Rattle.std.specs.Prelude.{List};
    ghost use Rattle.rpki_cover.specs.Prefixes.{PrefixValue};

    ghost Value = { List PrefixValue };

    ghost view = { λ p. p.left };
}

impl<F: Family> fmt::Debug for FamilySetPrefixes<'_, F> {
    fn fmt<W: fmt::Write>(&self, f: &mut fmt::Formatter<W>) -> fmt::Result {
        f.debug_tuple("FamilySetPrefixes")
            .field(&self.left)
            .finish()
    }
}

impl<F: Family> Iterator for FamilySetPrefixes<'_, F> {
    type Item = Prefix;

    ghost next_gives = { YieldsFirst (λ prefixes. prefixes) };

    ghost remaining = { item_count (λ prefixes. prefixes) };

    fn next(&mut self) -> Option<Prefix> {
        self.left.next()
    }
}

impl<F: Family, A: Allocator> FamilyBlocks<F, A> {
    /// Returns an iterator over the shortest list of prefixes that covers the set, ascending.
    ///
    /// The list has each prefix inside the set that has length 0, or whose parent isn't inside the set. The parent is
    /// the prefix that is one bit shorter. In IPv4 the lengths are at most 32. The call allocates nothing.
    #[tactic(auto, using(crate::proofs::FamilyLemmas::covered_in))]
    pub fn prefixes(&self) -> FamilySetPrefixes<'_, F>
        ensures cover { IsShortestCover 128 (Holds self.now) result }
        ensures v4 { IsCoverListIn F.FAMILY self.now result }
    {
        FamilySetPrefixes {
            left: self.ip_blocks().prefixes(),
            family: PhantomData,
        }
    }
}
