//! Resources that are missing, inherited from the issuer, or listed.
ghost use Rattle.std.specs.Prelude.{◌≡◌, ◌↔◌, IsTrue, IfOk, Ok, MatchResult, ⊤};
ghost use Rattle.rpki_text.specs.Memory.{IsMemory};
ghost use Rattle.rpki_chain.specs.ChoiceEquality.{choice_eq};
ghost use Rattle.rpki_chain.specs.ChoiceEqualityLaws.{choice_equiv, choice_per};
ghost use Rattle.rpki_chain.specs.Choices.{ListsBy, MatchChoice, IsRefused, choice_text};
ghost use Rattle.rpki_chain.specs.declared.choice.ResourcesChoice.TheVariants.{Missing, Inherit};

use rpki_text::memory::OrMemory;
use std::alloc::AllocError;
use std::fmt;

/// Resources of one kind: missing, inherited from the issuer, or listed (RFC 3779, 2.2.3.4 and 3.2.3.2).
#[derive(Debug, Drop)]
pub enum ResourcesChoice<T> {
    /// There are no resources.
    Missing,
    /// The resources are those of the issuer.
    Inherit,
    /// The resources are listed.
    Blocks(T),
}

/// A type of sets that resources can list.
pub trait Listed: Drop {
    // The empty set.
    ghost nothing: { Self };

    /// Returns the empty set.
    fn empty() -> Self
        ensures { result ≡ nothing };

    /// Returns a set that equals this one.
    ///
    /// # Errors
    ///
    /// [`AllocError`]: out of memory.
    fn copy(&self) -> Result<Self, AllocError>
        ensures { IfOk result (λ copy. copy ≡ self.now) };
}

/// The error for inherited resources, which are not a set by themselves.
#[derive(Clone, Copy, Debug, PartialEq, Eq)]
pub struct InheritedResources;

impl<T> ResourcesChoice<T> {
    /// Returns whether the resources are inherited from the issuer.
    pub fn is_inherited(&self) -> bool
        ensures { IsTrue result ↔ (self.now ≡ Inherit) }
    {
        matches!(self, ResourcesChoice::Inherit)
    }

    /// Returns whether the resources are inherited or listed.
    pub fn is_present(&self) -> bool
        ensures { IsTrue result ↔ (self.now ≡ Missing → ⊥) }
    {
        !matches!(self, ResourcesChoice::Missing)
    }

    /// Returns the same choice, with the result of `f` in place of the listed value. `f` is called only if a value is
    /// listed.
    ///
    /// # Preconditions
    ///
    /// `f` can be called with the listed value.
    pub fn map_blocks<U, F: FnOnce(T) -> U>(self, f: F) -> ResourcesChoice<U>
        requires { MatchChoice self ⊤ ⊤ (F.pre f) }
        ensures { ListsBy (F.post f) self result }
    {
        match self {
            ResourcesChoice::Missing => ResourcesChoice::Missing,
            ResourcesChoice::Inherit => ResourcesChoice::Inherit,
            ResourcesChoice::Blocks(listed) => ResourcesChoice::Blocks(f(listed)),
        }
    }
}

impl<T: Listed> ResourcesChoice<T> {
    /// Returns the set that is listed, or the empty set if the resources are missing.
    ///
    /// # Errors
    ///
    /// - `Refused`: the resources are inherited.
    /// - `Memory`: [`Listed::copy`] of the listed set failed.
    pub fn to_blocks(&self) -> Result<T, OrMemory<InheritedResources>>
        ensures { MatchChoice self.now (result ≡ Ok T.nothing) (IsRefused result)
            (λ listed. MatchResult result (λ set. set ≡ listed) IsMemory) }
    {
        match self {
            ResourcesChoice::Missing => Ok(T::empty()),
            ResourcesChoice::Inherit => Err(OrMemory::Refused(InheritedResources)),
            ResourcesChoice::Blocks(listed) => Ok(listed.copy()?),
        }
    }

    /// Returns a choice that equals this one.
    ///
    /// # Errors
    ///
    /// [`AllocError`]: [`Listed::copy`] of the listed set failed.
    pub fn clone(&self) -> Result<Self, AllocError>
        ensures { IfOk result (λ choice. choice ≡ self.now) }
    {
        match self {
            ResourcesChoice::Missing => Ok(ResourcesChoice::Missing),
            ResourcesChoice::Inherit => Ok(ResourcesChoice::Inherit),
            ResourcesChoice::Blocks(listed) => Ok(ResourcesChoice::Blocks(listed.copy()?)),
        }
    }
}

/// Prints nothing for missing resources, `inherit` for inherited ones, or else the listed value.
impl<T: fmt::Display> fmt::Display for ResourcesChoice<T> {
    ghost output = { choice_text T.output };

    fn fmt<W: fmt::Write>(&self, f: &mut fmt::Formatter<W>) -> fmt::Result {
        match self {
            ResourcesChoice::Missing => Ok(()),
            ResourcesChoice::Inherit => f.write_str("inherit"),
            ResourcesChoice::Blocks(listed) => listed.fmt(f),
        }
    }
}

/// Resources are equal if both are missing, both are inherited, or both list equal values.
impl<T: PartialEq> PartialEq for ResourcesChoice<T> {
    ghost eq = { choice_eq T.eq };

    ghost laws = { choice_per T.eq T.laws };

    fn eq(&self, other: &Self) -> bool
        ensures { result ≡ choice_eq T.eq self.now other.now }
    {
        match self {
            ResourcesChoice::Missing => matches!(other, ResourcesChoice::Missing),
            ResourcesChoice::Inherit => matches!(other, ResourcesChoice::Inherit),
            ResourcesChoice::Blocks(listed) => match other {
                ResourcesChoice::Blocks(others) => listed == others,
                _ => false,
            },
        }
    }
}

impl<T: Eq> Eq for ResourcesChoice<T> {
    ghost laws = { choice_equiv T.eq T.Eq.laws };
}
