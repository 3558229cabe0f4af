//! Errors for claims of addresses, with the overclaimed addresses.
ghost use Rattle.std.specs.Prelude.{◌≡◌, ◌↔◌, IsTrue, IfOk, Some};
ghost use Rattle.rpki_chain_core.specs.Equality.{same_runs};
ghost use Rattle.rpki_chain_core.specs.EqualityLaws.{runs_per, runs_equiv};
ghost use Rattle.rpki_chain.specs.Runs.{Holds};
ghost use Rattle.rpki_ip.specs.Whole.{IsWhole};
ghost use Rattle.rpki_ipres.specs.Families.{IsWholeIn};
ghost use Rattle.rpki_ipres.specs.SetText.{overclaimed_ip_text};

use crate::blocks::IpBlocks;
use rpki_chain::set::BlockSet;
use rpki_der::family::{AddressFamily, Family, Ipv4Family, Ipv6Family};
use rpki_ip_block::block::IpBlock;
use std::alloc::{AllocError, Allocator, Global};
use std::error::Error;
use std::fmt;
use std::marker::{Model, PhantomData};

/// The error for claimed addresses that the issuer doesn't have.
///
/// It is printed as an error of a family, by [`OverclaimedIpResources::v4`] or [`OverclaimedIpResources::v6`]. In
/// contracts its value is the runs of these addresses.
#[derive(Drop)]
pub struct OverclaimedIpResources<A: Allocator = Global> {
    excess: IpBlocks<A>,
}

impl<A: Allocator> Model for OverclaimedIpResources<A> {
    ghost use Rattle.rpki_chain.specs.Runs.{Runs};

    ghost Value = { Runs };

    ghost view = { λ fault. fault.excess };
}

impl<A: Allocator> OverclaimedIpResources<A> {
    /// Returns the addresses that are claimed and that the issuer doesn't have.
    pub fn excess(&self) -> &IpBlocks<A>
        ensures { result.now ≡ self.now }
    {
        &self.excess
    }

    /// Returns the fault for display as a fault of `family`.
    ///
    /// Unlike [`OverclaimedIpResources::v4`], the call has no precondition. It borrows the fault, and the family is a
    /// value. [`OverclaimedIpResources::into_family`] takes the fault, and the family is a type. The call is internal
    /// API for other crates: a user prints the fault that `v4` or `v6` returns.
    pub fn display_with_family(&self, family: AddressFamily) -> OverclaimedForFamily<'_, A>
        ensures { result ≡ (family, self.now) }
    {
        OverclaimedForFamily {
            family,
            excess: &self.excess,
        }
    }

    /// Returns the same fault, which shares the memory of its addresses with `self` (reference count + 1).
    ///
    /// # Errors
    ///
    /// [`AllocError`] if std refuses the additional reference.
    pub fn clone(&self) -> Result<OverclaimedIpResources<A>, AllocError>
        ensures { IfOk result (λ fault. fault ≡ self.now) }
    {
        let excess = self.excess.clone()?;
        Ok(OverclaimedIpResources { excess })
    }

    /// Returns the fault of overclaimed addresses.
    pub(crate) fn of(excess: BlockSet<IpBlock, A>) -> OverclaimedIpResources<A>
        ensures { result ≡ excess }
    {
        OverclaimedIpResources {
            excess: IpBlocks::from_set(excess),
        }
    }

    /// Returns the fault as a fault of the family `F`.
    ///
    /// This call takes the fault, and the family is a type. [`OverclaimedIpResources::display_with_family`] borrows the
    /// fault, and the family is a value.
    ///
    /// # Preconditions
    ///
    /// In IPv4 the overclaimed addresses are whole IPv4 addresses, as [`IpBlocks::is_whole_v4`] tests. They are if the
    /// set and all claims consist of whole IPv4 addresses.
    pub fn into_family<F: Family>(self) -> OverclaimedFamilyResources<F, A>
        requires { IsWholeIn F.FAMILY self }
        ensures { result ≡ self }
    {
        OverclaimedFamilyResources {
            excess: self.excess,
            family: PhantomData,
        }
    }

    /// Returns the fault as a fault of IPv4.
    ///
    /// # Preconditions
    ///
    /// The overclaimed addresses are whole IPv4 addresses, as [`IpBlocks::is_whole_v4`] tests. They are if the set and
    /// all claims consist of whole IPv4 addresses.
    pub fn v4(self) -> OverclaimedIpv4Resources<A>
        requires { IsWhole (Holds self) }
        ensures { result ≡ self }
    {
        self.into_family()
    }

    /// Returns the fault as a fault of IPv6.
    pub fn v6(self) -> OverclaimedIpv6Resources<A>
        ensures { result ≡ self }
    {
        self.into_family()
    }
}

impl<A: Allocator> fmt::Debug for OverclaimedIpResources<A> {
    fn fmt<W: fmt::Write>(&self, f: &mut fmt::Formatter<W>) -> fmt::Result {
        self.excess.fmt(f)
    }
}

/// Faults are equal if and only if their overclaimed addresses are equal.
impl<A: Allocator> PartialEq for OverclaimedIpResources<A> {
    ghost eq = { λ a b. same_runs a b };

    ghost laws = { runs_per };

    fn eq(&self, other: &OverclaimedIpResources<A>) -> bool
        ensures value { result ≡ same_runs self.now other.now }
        ensures same { IsTrue result ↔ (self.now ≡ other.now) }
    {
        self.excess == other.excess
    }
}

impl<A: Allocator> Eq for OverclaimedIpResources<A> {
    ghost laws = { runs_equiv };
}

/// An error for overclaimed addresses that is displayed as an error of a family.
///
/// In contracts its value is the family and the runs of the overclaimed addresses.
#[derive(Drop)]
pub struct OverclaimedForFamily<'a, A: Allocator = Global> {
    family: AddressFamily,
    excess: &'a IpBlocks<A>,
}

impl<'a, A: Allocator> Model for OverclaimedForFamily<'a, A> {
    ghost use Rattle.rpki_chain.specs.Runs.{Runs};
    ghost use Rattle.rpki_der.specs.declared.family.AddressFamily.{AddressFamily};

    ghost Value = { AddressFamily × Runs };

    ghost view = { λ d. (d.family, d.excess.now) };
}

impl<'a, A: Allocator> fmt::Debug for OverclaimedForFamily<'a, A> {
    fn fmt<W: fmt::Write>(&self, f: &mut fmt::Formatter<W>) -> fmt::Result {
        f.debug_struct("OverclaimedForFamily")
            .field("family", &self.family)
            .field("excess", self.excess)
            .finish()
    }
}

/// Prints `overclaimed IPv4 resources: ` or `overclaimed IPv6 resources: `, and then the blocks of the overclaimed
/// addresses.
///
/// The blocks are printed as blocks of the family, ascending, joined by a comma and a space.
impl<'a, A: Allocator> fmt::Display for OverclaimedForFamily<'a, A> {
    ghost output = { λ d. Some (overclaimed_ip_text d.0 d.1) };

    fn fmt<W: fmt::Write>(&self, f: &mut fmt::Formatter<W>) -> fmt::Result {
        let what = match self.family {
            AddressFamily::Ipv4 => "overclaimed IPv4 resources: ",
            AddressFamily::Ipv6 => "overclaimed IPv6 resources: ",
        };
        f.write_str(what)?;
        fmt::Display::fmt(&self.excess.display_with_family(self.family), f)
    }
}

/// The error for claimed addresses of a family that the issuer doesn't have.
///
/// In contracts its value is the runs of these addresses. In IPv4 they are whole addresses.
#[derive(Drop)]
pub struct OverclaimedFamilyResources<F: Family, A: Allocator = Global> {
    excess: IpBlocks<A>,
    family: PhantomData<F>,
}

/// The error for claimed IPv4 addresses that the issuer doesn't have.
pub type OverclaimedIpv4Resources<A = Global> = OverclaimedFamilyResources<Ipv4Family, A>;

/// The error for claimed IPv6 addresses that the issuer doesn't have.
pub type OverclaimedIpv6Resources<A = Global> = OverclaimedFamilyResources<Ipv6Family, A>;

impl<F: Family, A: Allocator> Model for OverclaimedFamilyResources<F, A> {
    ghost use Rattle.rpki_chain.specs.Runs.{Runs};
    ghost use Rattle.rpki_ipres.specs.Families.{IsWholeIn};

    ghost Value = { Runs };

    ghost view = { λ fault. fault.excess };

    ghost invariant = { λ fault. IsWholeIn F.FAMILY fault.excess };
}

impl<F: Family, A: Allocator> OverclaimedFamilyResources<F, A> {
    /// Returns the addresses that are claimed and that the issuer doesn't have.
    pub fn excess(&self) -> &IpBlocks<A>
        ensures value { result.now ≡ self.now }
        ensures whole { IsWholeIn F.FAMILY self.now }
    {
        &self.excess
    }

    /// Returns the same fault, which shares the memory of its addresses with `self` (reference count + 1).
    ///
    /// # Errors
    ///
    /// [`AllocError`] if std refuses the additional reference.
    pub fn clone(&self) -> Result<OverclaimedFamilyResources<F, A>, AllocError>
        ensures { IfOk result (λ fault. fault ≡ self.now) }
    {
        let excess = self.excess.clone()?;
        Ok(OverclaimedFamilyResources {
            excess,
            family: PhantomData,
        })
    }
}

impl<F: Family, A: Allocator> fmt::Debug for OverclaimedFamilyResources<F, A> {
    fn fmt<W: fmt::Write>(&self, f: &mut fmt::Formatter<W>) -> fmt::Result {
        self.excess.fmt(f)
    }
}

/// Faults are equal if and only if their overclaimed addresses are equal.
impl<F: Family, A: Allocator> PartialEq for OverclaimedFamilyResources<F, A> {
    ghost eq = { λ a b. same_runs a b };

    ghost laws = { runs_per };

    fn eq(&self, other: &OverclaimedFamilyResources<F, A>) -> bool
        ensures value { result ≡ same_runs self.now other.now }
        ensures same { IsTrue result ↔ (self.now ≡ other.now) }
    {
        self.excess == other.excess
    }
}

impl<F: Family, A: Allocator> Eq for OverclaimedFamilyResources<F, A> {
    ghost laws = { runs_equiv };
}

/// Prints the overclaimed addresses as [`OverclaimedForFamily`] does.
impl<F: Family, A: Allocator> fmt::Display for OverclaimedFamilyResources<F, A> {
    ghost output = { λ excess. Some (overclaimed_ip_text F.FAMILY excess) };

    fn fmt<W: fmt::Write>(&self, f: &mut fmt::Formatter<W>) -> fmt::Result {
        let fault = OverclaimedForFamily {
            family: F::FAMILY,
            excess: &self.excess,
        };
        fmt::Display::fmt(&fault, f)
    }
}

impl<F: Family, A: Allocator> Error for OverclaimedFamilyResources<F, A> {}
