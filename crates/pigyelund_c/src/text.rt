//! Sets that are passed as text, or the first reason why the text denotes none, and its status.
ghost use Rattle.std.specs.Prelude.{◌≡◌, ◌≢◌, MatchOption, MatchResult};
ghost use Rattle.rpki_text.specs.Memory.{IfRefused};
ghost use Rattle.pigyelund_c.specs.Texts.{HasTextFault, IsNoTextSet, IsTextOf, IsTextSet, as_text_number, ip_text_number, kind_number, text_error_status, text_number, text_set, text_status};
ghost use Rattle.pigyelund_c.specs.declared.text.Kind.{Kind as OfKind};

use pigyelund_routes::status;
use rpki_resources::repository::resources::{ResourceSet, asres, ipres};
use rpki_resources::{FromStrError, OrMemory};
use std::alloc::Global;

/// The kind of resources that a text lists.
#[derive(Clone, Copy)]
pub(crate) enum Kind {
    /// AS numbers.
    Numbers,
    /// IPv4 addresses.
    Ipv4,
    /// IPv6 addresses.
    Ipv6,
}

/// The reason why octets are not the text of a set.
#[derive(Clone, Copy)]
pub(crate) enum TextError {
    /// The number of the kind is unknown.
    NoKind,
    /// The octets are not UTF-8.
    NotUtf8,
    /// An element of the list is invalid. The field is the first fault.
    Invalid(FromStrError),
}

/// Returns the kind with this number, or `None` if no kind has it.
pub(crate) fn kind_of(number: u32) -> Option<Kind>
    ensures { MatchOption result ((kind : OfKind) → number ≢ kind_number kind)
        (λ kind. number ≡ kind_number kind) }
{
    match number {
        4 => Some(Kind::Ipv4),
        5 => Some(Kind::Numbers),
        6 => Some(Kind::Ipv6),
        _ => None,
    }
}

/// Returns the number of the fault of a list of AS numbers.
fn as_text_number(fault: asres::FromStrError) -> u32
    ensures { result ≡ as_text_number fault }
{
    match fault {
        asres::FromStrError::BadAsn => 2,
        asres::FromStrError::BadRange => 3,
        asres::FromStrError::BadBlocks => 9,
    }
}

/// Returns the number of the fault of a list of addresses.
fn ip_text_number(fault: ipres::FromStrError) -> u32
    ensures { result ≡ ip_text_number fault }
{
    match fault {
        ipres::FromStrError::Addr(_) => 4,
        ipres::FromStrError::PrefixLen(_) => 5,
        ipres::FromStrError::FamilyMismatch => 6,
        ipres::FromStrError::BadRange => 7,
        ipres::FromStrError::MissingSeparator => 8,
        ipres::FromStrError::BadBlocks => 9,
    }
}

/// Returns the number of the fault of a list.
fn text_number(fault: FromStrError) -> u32
    ensures { result ≡ text_number fault }
{
    match fault {
        FromStrError::Asn(fault) => as_text_number(fault),
        FromStrError::Ipv4(fault) => ip_text_number(fault),
        FromStrError::Ipv6(fault) => ip_text_number(fault),
    }
}

impl TextError {
    /// Returns the status of this reason.
    pub(crate) fn status(self) -> u32
        ensures { result ≡ text_error_status self }
    {
        match self {
            TextError::NoKind => status::BAD_KIND,
            TextError::NotUtf8 => status::BAD_TEXT + 1,
            TextError::Invalid(fault) => status::BAD_TEXT + text_number(fault),
        }
    }
}

/// Returns the set that a list of a kind denotes.
///
/// # Errors
///
/// - `Refused` with the fault of the first invalid element.
/// - `Memory` if an allocation fails.
fn list_set(alloc: Global, kind: Kind, text: &str) -> Result<ResourceSet, OrMemory<FromStrError>>
    ensures { MatchResult result (IsTextOf kind text.now)
        (IfRefused (HasTextFault kind text.now)) }
{
    match kind {
        Kind::Numbers => ResourceSet::from_strs(alloc, text, "", ""),
        Kind::Ipv4 => ResourceSet::from_strs(alloc, "", text, ""),
        Kind::Ipv6 => ResourceSet::from_strs(alloc, "", "", text),
    }
}

/// Returns the set that octets denote, as a list of the kind with this number.
///
/// # Errors
///
/// - `Refused` with the first of these: an unknown kind, octets that are not UTF-8, the fault of the first invalid
///   element.
/// - `Memory` if an allocation fails.
pub(crate) fn set_of_text(
    alloc: Global,
    kind: u32,
    text: &[u8],
) -> Result<ResourceSet, OrMemory<TextError>>
    ensures { MatchResult result (IsTextSet kind text.now)
        (IfRefused (IsNoTextSet kind text.now)) }
{
    let Some(kind) = kind_of(kind) else {
        return Err(OrMemory::Refused(TextError::NoKind));
    };
    let Ok(text) = str::from_utf8(text) else {
        return Err(OrMemory::Refused(TextError::NotUtf8));
    };
    match list_set(alloc, kind, text) {
        Ok(set) => Ok(set),
        Err(OrMemory::Refused(fault)) => Err(OrMemory::Refused(TextError::Invalid(fault))),
        Err(OrMemory::Memory(error)) => Err(OrMemory::Memory(error)),
    }
}

/// Returns the status of a set that was read from text, and the set that is returned with it. It is empty for an error.
pub(crate) fn status_and_text_set(
    outcome: Result<ResourceSet, OrMemory<TextError>>,
) -> (u32, ResourceSet)
    ensures { result ≡ (text_status outcome, text_set outcome) }
{
    match outcome {
        Ok(set) => (status::OK, set),
        Err(OrMemory::Refused(reason)) => (reason.status(), ResourceSet::empty()),
        Err(OrMemory::Memory(_)) => (status::MEMORY, ResourceSet::empty()),
    }
}
