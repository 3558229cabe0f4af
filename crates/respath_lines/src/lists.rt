//! Lists of a kind of resources, as sets and as claims.
ghost use Rattle.std.specs.Prelude.{◌≡◌, ℕ, List, MatchResult};
ghost use Rattle.rpki_text.specs.Memory.{IfRefused};
ghost use Rattle.rpki_chain.specs.Claims.{Claim, claim_of};
ghost use Rattle.rpki_chain.specs.Runs.{Runs};
ghost use Rattle.rpki_chain.specs.declared.choice.ResourcesChoice.TheVariants.{Missing, Inherit};
ghost use Rattle.rpki_as.specs.ListText.{IsAsListText, HasAsListFault};
ghost use Rattle.rpki_ip_block.specs.ListText.{HasBlocks, HasBlocksFault};
ghost use Rattle.rpki_ipres.specs.SetText.{IsSetOf};

use rpki_as::blocks::AsBlocks;
use rpki_as::error::FromStrError as AsFromStrError;
use rpki_as::resources::AsResources;
use rpki_base::memory::OrMemory;
use rpki_ip::error::FromStrError;
use rpki_ip::family::AddressFamily;
use rpki_ipres::blocks::IpBlocks;
use rpki_ipres::resources::IpResources;
use std::alloc::Allocator;

/// Reads the lists of a kind of resources, and makes claims of them.
pub(crate) trait Lists<A: Allocator> {
    /// The set of a list.
    type Set: Drop;

    /// The fault of a list.
    type Fault: Drop;

    /// A claim of a set.
    type Resources: Drop;

    // The list denotes the set.
    ghost writes: { Self → List ℕ → Runs → Type 0 };

    // The list has the fault.
    ghost fails: { Self → List ℕ → Self.Fault → Type 0 };

    // The runs of a set.
    ghost runs: { Self.Set → Runs };

    // The claim in resources.
    ghost claim: { Self.Resources → Claim };

    /// Returns the set of a list, or the fault of the list.
    fn read(&self, alloc: A, list: &str) -> Result<Self::Set, OrMemory<Self::Fault>>
        ensures { MatchResult result (λ set. writes self.now list.now (runs set))
            (IfRefused (fails self.now list.now)) };

    /// Returns the claim of a set, which is a missing claim if the set is empty.
    fn listed(set: Self::Set) -> Self::Resources
        ensures { claim result ≡ claim_of (runs set) };

    /// Returns a missing claim, which claims nothing.
    fn missing() -> Self::Resources
        ensures { claim result ≡ Missing };

    /// Returns an inherited claim, of all that the issuer has.
    fn inherited() -> Self::Resources
        ensures { claim result ≡ Inherit };
}

/// Lists of AS blocks.
#[derive(Clone, Copy)]
pub(crate) struct AsLists;

impl<A: Allocator + Copy> Lists<A> for AsLists {
    type Set = AsBlocks<A>;

    type Fault = AsFromStrError;

    type Resources = AsResources<A>;

    ghost writes = { λ _. IsAsListText };

    ghost fails = { λ _. HasAsListFault };

    ghost runs = { λ set. set };

    ghost claim = { λ claim. claim };

    fn read(&self, alloc: A, list: &str) -> Result<AsBlocks<A>, OrMemory<AsFromStrError>> {
        AsBlocks::from_str(alloc, list)
    }

    fn listed(set: AsBlocks<A>) -> AsResources<A> {
        AsResources::blocks(set)
    }

    fn missing() -> AsResources<A> {
        AsResources::missing()
    }

    fn inherited() -> AsResources<A> {
        AsResources::inherit()
    }
}

/// Lists of blocks of addresses of a family.
#[derive(Clone, Copy)]
pub(crate) struct IpLists {
    pub(crate) family: AddressFamily,
}

impl<A: Allocator + Copy> Lists<A> for IpLists {
    type Set = IpBlocks<A>;

    type Fault = FromStrError;

    type Resources = IpResources<A>;

    ghost writes = { λ lists list. IsSetOf (HasBlocks lists.family list) };

    ghost fails = { λ lists. HasBlocksFault lists.family };

    ghost runs = { λ set. set };

    ghost claim = { λ claim. claim };

    fn read(&self, alloc: A, list: &str) -> Result<IpBlocks<A>, OrMemory<FromStrError>> {
        IpBlocks::from_str_with_family(alloc, self.family, list)
    }

    fn listed(set: IpBlocks<A>) -> IpResources<A> {
        IpResources::blocks(set)
    }

    fn missing() -> IpResources<A> {
        IpResources::missing()
    }

    fn inherited() -> IpResources<A> {
        IpResources::inherit()
    }
}
