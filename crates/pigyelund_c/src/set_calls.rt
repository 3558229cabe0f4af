//! The bodies of the calls on handles of sets.
ghost use Rattle.std.specs.Prelude.{MatchResult};
ghost use Rattle.rpki_text.specs.Memory.{IfRefused};
ghost use Rattle.pigyelund_c.specs.Pairs.{IsBy};
ghost use Rattle.pigyelund_c.specs.SetHandles.{AreOutcomesGiven, IsGiven, IsNoOutcomeBy, IsNoPathOutcomeBy, IsNoReadSet, IsOutcomeBy, IsPathOutcomeBy, IsReadSet, IsReasonGiven, IsSetMade};

use crate::certificate::{Certificate, extensions_of};
use crate::cover::CoverError;
use crate::encodings::encoding_of;
use crate::operations::Operation;
use crate::path::{PathError, left_on_path, verified};
use crate::read::set_of;
use crate::refusal::{ArgumentError, Refusal};
use crate::set_handle::SetOutput;
use box_pointer::BoxPointer;
use pigyelund_routes::status;
use rpki_resources::OrMemory;
use rpki_resources::repository::resources::ResourceSet;
use std::alloc::Global;

/// Gives the handle of a set, and returns the status: `OK`, or `MEMORY` and the null handle.
pub(crate) fn give(alloc: Global, set: ResourceSet, out: &mut SetOutput) -> u32
    ensures { IsGiven set out.new.given out.new.at result }
{
    match Box::new(alloc, set) {
        Ok(boxed) => {
            *out = SetOutput::of(BoxPointer::of(boxed));
            status::OK
        }
        Err(_) => {
            *out = SetOutput::null();
            status::MEMORY
        }
    }
}

/// Gives the handle of the set that an operation makes of two, and returns the status: `OK`, or `MEMORY` and the null
/// handle.
pub(crate) fn give_by(
    alloc: Global,
    operation: Operation,
    a: &ResourceSet,
    b: &ResourceSet,
    out: &mut SetOutput,
) -> u32
    ensures { IsSetMade (IsBy operation a.now b.now) out.new.given out.new.at result }
{
    *out = SetOutput::null();
    match operation.on(alloc, a, b) {
        Ok(set) => give(alloc, set, out),
        Err(_) => status::MEMORY,
    }
}

/// Gives the handle of the set of an outcome, or of its overclaimed resources, and returns the status.
pub(crate) fn give_outcome(
    alloc: Global,
    outcome: Result<ResourceSet, OrMemory<Refusal>>,
    out: &mut SetOutput,
    excess: &mut SetOutput,
) -> u32
    ensures { AreOutcomesGiven outcome out.new.given out.new.at excess.new.given excess.new.at result }
{
    *excess = SetOutput::null();
    match outcome {
        Ok(set) => give(alloc, set, out),
        Err(OrMemory::Refused(reason)) => {
            *out = SetOutput::null();
            give_excess(alloc, &reason, excess)
        }
        Err(OrMemory::Memory(_)) => {
            *out = SetOutput::null();
            status::MEMORY
        }
    }
}

/// Gives the handle of overclaimed resources, or the null handle if there are none, and returns the status.
fn give_excess(alloc: Global, reason: &Refusal, excess: &mut SetOutput) -> u32
    ensures { IsReasonGiven reason.now excess.new.given excess.new.at result }
{
    *excess = SetOutput::null();
    let Ok(found) = reason.overclaimed() else {
        return status::MEMORY;
    };
    let Some(set) = found else {
        return reason.status();
    };
    let given = give(alloc, set, excess);
    if given == status::OK {
        reason.status()
    } else {
        given
    }
}

/// Returns the set that octets list. `encoding` is a number.
///
/// # Errors
///
/// - `Refused` with the first of these: an unknown encoding, the reason why the octets list no set.
/// - `Memory` if an allocation fails.
pub(crate) fn read_set(
    alloc: Global,
    numbers: &[u8],
    addresses: &[u8],
    encoding: u32,
) -> Result<ResourceSet, OrMemory<CoverError>>
    ensures { MatchResult result (IsReadSet numbers.now addresses.now encoding)
        (IfRefused (IsNoReadSet numbers.now addresses.now encoding)) }
{
    let Some(encoding) = encoding_of(encoding) else {
        return Err(OrMemory::Refused(CoverError::Asked(ArgumentError::NoEncoding)));
    };
    match set_of(alloc, numbers, addresses, encoding) {
        Ok(set) => Ok(set),
        Err(OrMemory::Refused(reason)) => Err(OrMemory::Refused(CoverError::Unread(reason))),
        Err(OrMemory::Memory(error)) => Err(OrMemory::Memory(error)),
    }
}

/// Returns the part of an issuer's set that a certificate claims. The certificate is passed as octets and numbers.
///
/// # Errors
///
/// - `Refused` with the first unknown number, or else the reason why the set does not verify the certificate.
/// - `Memory` if an allocation fails.
pub(crate) fn verified_by(
    alloc: Global,
    issuer: &ResourceSet,
    cert_as: &[u8],
    cert_ip: &[u8],
    present: u32,
    encoding: u32,
    mode: u32,
) -> Result<ResourceSet, OrMemory<Refusal>>
    ensures { MatchResult result
        (IsOutcomeBy issuer.now present cert_as.now cert_ip.now encoding mode)
        (IfRefused (IsNoOutcomeBy issuer.now present cert_as.now cert_ip.now encoding mode)) }
{
    let Some(encoding) = encoding_of(encoding) else {
        return Err(OrMemory::Refused(Refusal::Asked(ArgumentError::NoEncoding)));
    };
    match extensions_of(present, cert_as, cert_ip, encoding, mode) {
        Ok(certificate) => verified(alloc, issuer, &certificate),
        Err(reason) => Err(OrMemory::Refused(Refusal::Asked(reason))),
    }
}

/// Returns the part of an anchor's set that certificates leave. `encoding` is a number.
///
/// # Errors
///
/// - `Refused` with `NoEncoding` if the encoding is unknown, or else with the first certificate that is not verified.
/// - `Memory` if an allocation fails.
pub(crate) fn path_verified_by(
    alloc: Global,
    anchor: &ResourceSet,
    run: &[u8],
    certificates: &[Certificate],
    encoding: u32,
) -> Result<ResourceSet, OrMemory<PathError>>
    ensures { MatchResult result (IsPathOutcomeBy anchor.now run.now certificates.now encoding)
        (IfRefused (IsNoPathOutcomeBy anchor.now run.now certificates.now encoding)) }
{
    let Some(encoding) = encoding_of(encoding) else {
        let reason = Refusal::Asked(ArgumentError::NoEncoding);
        return Err(OrMemory::Refused(PathError::at_first(reason)));
    };
    let anchor = anchor.clone()?;
    left_on_path(alloc, anchor, run, encoding, certificates)
}
