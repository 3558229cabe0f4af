//! The prefixes, ranges and texts of a set that a handle lends.
ghost use Rattle.std.specs.Prelude.{◌≡◌, ◌↔◌, IfOk, IsTrue, MatchResult};
ghost use Rattle.std.specs.String.{string_bytes};
ghost use Rattle.rpki_text.specs.Memory.{IfRefused};
ghost use Rattle.roa_check.specs.Inside.{IsPrefixInside};
ghost use Rattle.pigyelund_routes.specs.Routes.{IsNoPrefixPassed};
ghost use Rattle.pigyelund_c.specs.SetHandles.{ArePrefixesIn, AreRangesIn, HasNoFamily, IsPrefixAnswer, kind_list_text};

use crate::cover::set_prefixes;
use crate::pair::answer_number;
use crate::ranges::{RawIpRange, runs_of_family};
use crate::refusal::ArgumentError;
use crate::text::Kind;
use pigyelund_routes::family::family_of;
use pigyelund_routes::route::{RawPrefix, RouteError};
use roa_check::outside;
use rpki_prefix::{MaxLenPrefix, Prefix};
use rpki_resources::OrMemory;
use rpki_resources::repository::resources::ResourceSet;
use std::alloc::{AllocError, Global};

/// Returns whether a set has each address of a prefix. The call allocates nothing.
pub(crate) fn contains_prefix(set: &ResourceSet, prefix: Prefix) -> bool
    ensures { IsTrue result ↔ IsPrefixInside set.now prefix }
{
    let only = [MaxLenPrefix::saturating_new(prefix, None)];
    match outside(set, &only) {
        Some(_at) => false,
        None => true,
    }
}

/// Returns 1 if a set has each address of the prefix that is passed, and 0 if not. The call allocates nothing.
///
/// # Errors
///
/// The reason why the prefix is invalid.
pub(crate) fn prefix_answer(set: &ResourceSet, prefix: &RawPrefix) -> Result<u8, RouteError>
    ensures { MatchResult result (IsPrefixAnswer set.now prefix.now)
        (IsNoPrefixPassed prefix.now) }
{
    match prefix.read() {
        Ok(prefix) => Ok(answer_number(contains_prefix(set, prefix))),
        Err(reason) => Err(reason),
    }
}

/// Returns the fewest prefixes of the addresses of one family of a set. `family` is a number.
///
/// # Errors
///
/// - `Refused` if the family is unknown.
/// - `Memory` if an allocation fails.
pub(crate) fn prefixes_of(
    alloc: Global,
    set: &ResourceSet,
    family: u32,
) -> Result<Vec<RawPrefix, Global>, OrMemory<ArgumentError>>
    ensures { MatchResult result (λ list. ArePrefixesIn set.now family list.items)
        (IfRefused (HasNoFamily family)) }
{
    let Some(family) = family_of(family) else {
        return Err(OrMemory::Refused(ArgumentError::NoFamily));
    };
    match set_prefixes(alloc, family, set) {
        Ok(list) => Ok(list),
        Err(error) => Err(OrMemory::Memory(error)),
    }
}

/// Returns the ranges of the addresses of one family of a set. `family` is a number.
///
/// # Errors
///
/// - `Refused` if the family is unknown.
/// - `Memory` if an allocation fails.
pub(crate) fn ranges_of(
    alloc: Global,
    set: &ResourceSet,
    family: u32,
) -> Result<Vec<RawIpRange, Global>, OrMemory<ArgumentError>>
    ensures { MatchResult result (λ list. AreRangesIn set.now family list.items)
        (IfRefused (HasNoFamily family)) }
{
    let Some(family) = family_of(family) else {
        return Err(OrMemory::Refused(ArgumentError::NoFamily));
    };
    match runs_of_family(alloc, family, set) {
        Ok(list) => Ok(list),
        Err(error) => Err(OrMemory::Memory(error)),
    }
}

/// Returns the text of one kind of resources of a set.
///
/// # Errors
///
/// [`AllocError`] if an allocation fails.
pub(crate) fn text_of(
    alloc: Global,
    set: &ResourceSet,
    kind: Kind,
) -> Result<String<Global>, AllocError>
    ensures { IfOk result (λ text. string_bytes text ≡ kind_list_text kind set.now) }
{
    let asn = set.asn();
    let ipv4 = set.ipv4();
    let ipv6 = set.ipv6();
    match kind {
        Kind::Numbers => format!(in alloc; "{asn}"),
        Kind::Ipv4 => format!(in alloc; "{ipv4}"),
        Kind::Ipv6 => format!(in alloc; "{ipv6}"),
    }
}
