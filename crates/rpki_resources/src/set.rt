//! Sets of AS numbers, IPv4 addresses and IPv6 addresses.
ghost use Rattle.std.specs.Prelude.{◌≡◌, ◌≢◌, ℕ, ◌↔◌, [], IsTrue, IfOk, Ok, Err, MatchOption, MatchResult};
ghost use Rattle.rpki_chain_core.specs.Sets.{IsWithin};
ghost use Rattle.rpki_chain.specs.Runs.{Holds};
ghost use Rattle.rpki_as.specs.Blocks.{IsAsSet};
ghost use Rattle.rpki_ip.specs.Ranges.{range_bounds};
ghost use Rattle.rpki_der.specs.declared.family.AddressFamily.TheVariants.{Ipv4, Ipv6};
ghost use Rattle.rpki_ipres.specs.SetText.{IsFamilySet};
ghost use Rattle.rpki_resources.specs.Triples.{AreChanges, HasEachOf, HaveSameNumbers, IsDifferenceOf, IsIntersectionOf, IsTriple, IsUnionOf, all_resources, is_no_triple, is_same_triple, no_resources, set_of_family};
ghost use Rattle.rpki_resources.specs.TripleLaws.{triples_equiv, triples_per};

use crate::diff::ResourceDiff;
use rpki_as::AsBlocks;
use rpki_base::Asn;
use rpki_family::{Ipv4Blocks, Ipv6Blocks};
use rpki_ip::{AddressFamily, AddressRange};
use std::alloc::{AllocError, Allocator, Global};
use std::fmt;
use std::marker::Model;

/// A set of AS numbers, a set of IPv4 addresses and a set of IPv6 addresses.
///
/// Sets with the same numbers and addresses are equal and print alike. Several sets may share their memory. Empty sets
/// have no allocated memory.
///
/// In contracts its value is the three ascending lists of runs. The IPv4 list consists of whole addresses.
#[derive(Drop)]
pub struct ResourceSet<A: Allocator = Global> {
    pub(crate) asn: AsBlocks<A>,
    pub(crate) ipv4: Ipv4Blocks<A>,
    pub(crate) ipv6: Ipv6Blocks<A>,
}

impl<A: Allocator> Model for ResourceSet<A> {
    ghost use Rattle.rpki_resources.specs.Triples.{Triple};

    ghost Value = { Triple };

    ghost view = { λ s. record { asn = s.asn; ipv4 = s.ipv4; ipv6 = s.ipv6 } };
}

impl<A: Allocator> ResourceSet<A> {
    /// Returns the set of these AS numbers and addresses.
    pub fn new(asn: AsBlocks<A>, ipv4: Ipv4Blocks<A>, ipv6: Ipv6Blocks<A>) -> ResourceSet<A>
        ensures { result ≡ record { asn = asn; ipv4 = ipv4; ipv6 = ipv6 } }
    {
        ResourceSet { asn, ipv4, ipv6 }
    }

    /// Returns the set of the three sets, or the error of `ipv6`.
    fn of_three(
        asn: AsBlocks<A>,
        ipv4: Ipv4Blocks<A>,
        ipv6: Result<Ipv6Blocks<A>, AllocError>,
    ) -> Result<ResourceSet<A>, AllocError>
        ensures { MatchResult ipv6 (λ set. result
            ≡ Ok (record { asn = asn; ipv4 = ipv4; ipv6 = set })) (λ error. result ≡ Err error) }
    {
        match ipv6 {
            Ok(ipv6) => Ok(ResourceSet::new(asn, ipv4, ipv6)),
            Err(error) => Err(error),
        }
    }

    /// Returns the set of no resources.
    pub fn empty() -> ResourceSet<A>
        ensures { result ≡ no_resources }
    {
        ResourceSet::new(AsBlocks::empty(), Ipv4Blocks::empty(), Ipv6Blocks::empty())
    }

    /// Returns the set of all AS numbers and all addresses.
    ///
    /// # Errors
    ///
    /// [`AllocError`] if an allocation fails.
    pub fn all(alloc: A) -> Result<ResourceSet<A>, AllocError>
    where
        A: Copy,
        ensures { IfOk result (λ set. set ≡ all_resources) }
    {
        let asn = AsBlocks::all(alloc)?;
        let ipv4 = Ipv4Blocks::all(alloc)?;
        ResourceSet::of_three(asn, ipv4, Ipv6Blocks::all(alloc))
    }

    /// Returns the same set, which shares the memory of `self` (reference count + 1 for each kind).
    ///
    /// # Errors
    ///
    /// [`AllocError`] if `std` refuses an additional reference.
    pub fn clone(&self) -> Result<ResourceSet<A>, AllocError>
        ensures { IfOk result (λ set. set ≡ self.now) }
    {
        let asn = self.asn.clone()?;
        let ipv4 = self.ipv4.clone()?;
        ResourceSet::of_three(asn, ipv4, self.ipv6.clone())
    }

    /// States an invariant for the proofs of callers: there is a set of each kind.
    ///
    /// The call checks nothing when it runs, and returns nothing.
    #[doc(hidden)]
    pub fn recall_invariant(&self)
        ensures { IsTriple self.now }
    {
        self.asn.recall_invariant();
        self.ipv4.recall_invariant();
        self.ipv6.recall_invariant();
    }

    /// Returns whether the set has no resources of any kind.
    pub fn is_empty(&self) -> bool
        ensures value { result ≡ is_no_triple self.now }
        ensures none { IsTrue result ↔ (self.now ≡ no_resources) }
        ensures kinds { IsTriple self.now }
    {
        self.recall_invariant();
        self.asn.is_empty() && self.ipv4.is_empty() && self.ipv6.is_empty()
    }

    /// Replaces the AS numbers of the set. The addresses don't change.
    pub fn set_asn(&mut self, asn: AsBlocks<A>)
        ensures { self.new ≡ record { asn = asn; ipv4 = self.old.ipv4; ipv6 = self.old.ipv6 } }
    {
        self.asn = asn;
    }

    /// Replaces the IPv4 addresses of the set. The AS numbers and the IPv6 addresses don't change.
    pub fn set_ipv4(&mut self, ipv4: Ipv4Blocks<A>)
        ensures { self.new ≡ record { asn = self.old.asn; ipv4 = ipv4; ipv6 = self.old.ipv6 } }
    {
        self.ipv4 = ipv4;
    }

    /// Replaces the IPv6 addresses of the set. The AS numbers and the IPv4 addresses don't change.
    pub fn set_ipv6(&mut self, ipv6: Ipv6Blocks<A>)
        ensures { self.new ≡ record { asn = self.old.asn; ipv4 = self.old.ipv4; ipv6 = ipv6 } }
    {
        self.ipv6 = ipv6;
    }

    /// Returns the AS numbers.
    pub fn asn(&self) -> &AsBlocks<A>
        ensures value { result.now ≡ self.now.asn }
        ensures set { IsAsSet self.now.asn }
    {
        self.asn.recall_invariant();
        &self.asn
    }

    /// Returns the IPv4 addresses.
    pub fn ipv4(&self) -> &Ipv4Blocks<A>
        ensures value { result.now ≡ self.now.ipv4 }
        ensures set { IsFamilySet Ipv4 self.now.ipv4 }
    {
        self.ipv4.recall_invariant();
        &self.ipv4
    }

    /// Returns the IPv6 addresses.
    pub fn ipv6(&self) -> &Ipv6Blocks<A>
        ensures value { result.now ≡ self.now.ipv6 }
        ensures set { IsFamilySet Ipv6 self.now.ipv6 }
    {
        self.ipv6.recall_invariant();
        &self.ipv6
    }

    /// Returns the AS numbers, or None if the set has no AS numbers.
    pub fn asn_opt(&self) -> Option<&AsBlocks<A>>
        ensures { MatchOption result (self.now.asn ≡ [])
            (λ set. (set.now ≡ self.now.asn) × (set.now ≢ [])) }
    {
        if self.asn.is_empty() {
            return None;
        }
        Some(&self.asn)
    }

    /// Returns the IPv4 addresses, or None if the set has no IPv4 addresses.
    pub fn ipv4_opt(&self) -> Option<&Ipv4Blocks<A>>
        ensures { MatchOption result (self.now.ipv4 ≡ [])
            (λ set. (set.now ≡ self.now.ipv4) × (set.now ≢ [])) }
    {
        if self.ipv4.is_empty() {
            return None;
        }
        Some(&self.ipv4)
    }

    /// Returns the IPv6 addresses, or None if the set has no IPv6 addresses.
    pub fn ipv6_opt(&self) -> Option<&Ipv6Blocks<A>>
        ensures { MatchOption result (self.now.ipv6 ≡ [])
            (λ set. (set.now ≡ self.now.ipv6) × (set.now ≢ [])) }
    {
        if self.ipv6.is_empty() {
            return None;
        }
        Some(&self.ipv6)
    }

    /// Returns whether the set has each number and each address of `other`.
    pub fn contains(&self, other: &ResourceSet<A>) -> bool
        ensures { IsTrue result ↔ HasEachOf self.now other.now }
    {
        self.asn.contains(&other.asn)
            && self.ipv4.contains(&other.ipv4)
            && self.ipv6.contains(&other.ipv6)
    }

    /// Returns whether the set has the AS number.
    pub fn contains_asn(&self, asn: Asn) -> bool
        ensures { IsTrue result ↔ Holds self.now.asn asn }
    {
        self.asn.contains_asn(asn)
    }

    /// Returns whether the set's addresses of `family` include each address of a range.
    ///
    /// Use it for the addresses of a ROA's prefixes (RFC 9582, 4.3 and 5).
    pub fn contains_roa_address(&self, family: AddressFamily, addresses: AddressRange) -> bool
        ensures { IsTrue result ↔ ((n : ℕ) → IsWithin (range_bounds addresses) n
            → Holds (set_of_family family self.now) n) }
    {
        match family {
            AddressFamily::Ipv4 => self.ipv4.ip_blocks().contains_roa(addresses),
            AddressFamily::Ipv6 => self.ipv6.ip_blocks().contains_roa(addresses),
        }
    }

    /// Returns the union of `self` and `other`: the resources that are in at least one of them.
    ///
    /// # Errors
    ///
    /// [`AllocError`] if an allocation fails.
    #[tactic(auto, using(crate::proofs::TripleLemmas::made))]
    pub fn union(&self, alloc: A, other: &ResourceSet<A>) -> Result<ResourceSet<A>, AllocError>
    where
        A: Copy,
        ensures { IfOk result (IsUnionOf self.now other.now) }
    {
        let asn = self.asn.union(alloc, &other.asn)?;
        let ipv4 = self.ipv4.union(alloc, &other.ipv4)?;
        ResourceSet::of_three(asn, ipv4, self.ipv6.union(alloc, &other.ipv6))
    }

    /// Returns the intersection of `self` and `other`: the resources that are in both.
    ///
    /// # Errors
    ///
    /// [`AllocError`] if an allocation fails, or if a reference count is at its maximum.
    #[tactic(auto, using(crate::proofs::TripleLemmas::made))]
    pub fn intersection(
        &self,
        alloc: A,
        other: &ResourceSet<A>,
    ) -> Result<ResourceSet<A>, AllocError>
    where
        A: Copy,
        ensures { IfOk result (IsIntersectionOf self.now other.now) }
    {
        let asn = self.asn.intersection(alloc, &other.asn)?;
        let ipv4 = self.ipv4.intersection(alloc, &other.ipv4)?;
        ResourceSet::of_three(asn, ipv4, self.ipv6.intersection(alloc, &other.ipv6))
    }

    /// Returns the resources of `self` that `other` doesn't have.
    ///
    /// # Errors
    ///
    /// [`AllocError`] if an allocation fails.
    #[tactic(auto, using(crate::proofs::TripleLemmas::made))]
    pub fn minus(&self, alloc: A, other: &ResourceSet<A>) -> Result<ResourceSet<A>, AllocError>
    where
        A: Copy,
        ensures { IfOk result (IsDifferenceOf self.now other.now) }
    {
        let asn = self.asn.difference(alloc, &other.asn)?;
        let ipv4 = self.ipv4.difference(alloc, &other.ipv4)?;
        ResourceSet::of_three(asn, ipv4, self.ipv6.difference(alloc, &other.ipv6))
    }

    /// Returns the changes from `other` to `self`.
    ///
    /// Added resources are those that only `self` has. Removed resources are those that only `other` has. For the set
    /// of the former alone use [`ResourceSet::minus`].
    ///
    /// # Errors
    ///
    /// [`AllocError`] if an allocation fails.
    pub fn difference(
        &self,
        alloc: A,
        other: &ResourceSet<A>,
    ) -> Result<ResourceDiff<A>, AllocError>
    where
        A: Copy,
        ensures { IfOk result (AreChanges self.now other.now) }
    {
        let added = self.minus(alloc, other)?;
        ResourceDiff::of_two(added, other.minus(alloc, self))
    }
}

impl<A: Allocator> fmt::Debug for ResourceSet<A> {
    fn fmt<W: fmt::Write>(&self, f: &mut fmt::Formatter<W>) -> fmt::Result {
        f.debug_struct("ResourceSet")
            .field("asn", &self.asn)
            .field("ipv4", &self.ipv4)
            .field("ipv6", &self.ipv6)
            .finish()
    }
}

/// Returns the set of no resources.
impl<A: Allocator> Default for ResourceSet<A> {
    ghost is_default = { λ set. set ≡ no_resources };

    fn default() -> ResourceSet<A> {
        ResourceSet::empty()
    }
}

/// Sets are equal if and only if they have the same numbers and addresses of each kind.
impl<A: Allocator> PartialEq for ResourceSet<A> {
    ghost eq = { is_same_triple };

    ghost laws = { triples_per };

    fn eq(&self, other: &ResourceSet<A>) -> bool
        ensures value { result ≡ is_same_triple self.now other.now }
        ensures same { IsTrue result ↔ (self.now ≡ other.now) }
        ensures numbers { IsTrue result ↔ HaveSameNumbers self.now other.now }
    {
        self.asn == other.asn && self.ipv4 == other.ipv4 && self.ipv6 == other.ipv6
    }
}

impl<A: Allocator> Eq for ResourceSet<A> {
    ghost laws = { triples_equiv };
}
