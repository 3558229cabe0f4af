//! The VRPs of a validator's file that have not expired.
ghost use Rattle.std.specs.Prelude.{◌≡◌, MatchResult};
ghost use Rattle.rpki_text.specs.Memory.{IfRefused};
ghost use Rattle.roa_vrps.specs.ExpiryFiles.{HasExpiryFault};
ghost use Rattle.pigyelund_routes.specs.UnexpiredFiles.{AreUnexpiredVrps, expires_fault_number, expiry_fault_line, expiry_fault_status};

use crate::file::raw_vrps;
use crate::file_fault::{file_fault_line, file_fault_status, member_fault_number};
use crate::route::RawVrp;
use crate::status;
use roa_vrps::expiry::{ExpiresFault, ExpiryFault, read_unexpired};
use rpki_text::memory::OrMemory;
use std::alloc::Global;

/// The VRPs of a file that have not expired, in the form for C, and how many have.
#[derive(Drop)]
pub struct Unexpired {
    /// The VRPs that have not expired, in the order of the file.
    pub vrps: Vec<RawVrp, Global>,
    /// The number of VRPs that have expired.
    pub expired: usize,
}

/// Returns the VRPs of a validator's file that have not expired in the form for C, in the file's order.
///
/// - `file`: the octets of the file. It is JSON or CSV, as [`read_unexpired`] reads it.
/// - `time`: the time in seconds since 1970-01-01 UTC. A VRP has expired if its expiry is before this time.
///
/// # Errors
///
/// - `Refused`: the first fault of the file, or else the first invalid expiry.
/// - `Memory`: out of memory for the VRPs.
pub fn unexpired_vrps(
    alloc: Global,
    file: &[u8],
    time: u64,
) -> Result<Unexpired, OrMemory<ExpiryFault>>
    ensures { MatchResult result (λ found. AreUnexpiredVrps file.now time found.vrps.items found.expired)
        (IfRefused (HasExpiryFault file.now)) }
{
    let found = read_unexpired(alloc, file, time)?;
    let vrps = raw_vrps(alloc, found.vrps.as_slice())?;
    Ok(Unexpired {
        vrps,
        expired: found.expired,
    })
}

/// Returns the number of the fault of a member `expires`. No item has the fault that this member is missing.
fn expires_fault_number(fault: ExpiresFault) -> u32
    ensures { result ≡ expires_fault_number fault }
{
    match fault {
        ExpiresFault::Member(fault) => 16 + member_fault_number(fault),
        ExpiresFault::Number => 20,
    }
}

/// Returns the status of the fault of a file whose VRPs have expiries.
pub fn expiry_fault_status(fault: ExpiryFault) -> u32
    ensures { result ≡ expiry_fault_status fault }
{
    match fault {
        ExpiryFault::File(fault) => file_fault_status(fault),
        ExpiryFault::Line(_) => status::BAD_LINE + 20,
        ExpiryFault::Item(_, fault) => status::BAD_ITEM + expires_fault_number(fault),
    }
}

/// Returns the number of the line or item at fault, from 1, or 0 for a fault of the whole file.
pub fn expiry_fault_line(fault: ExpiryFault) -> usize
    ensures { result ≡ expiry_fault_line fault }
{
    match fault {
        ExpiryFault::File(fault) => file_fault_line(fault),
        ExpiryFault::Line(number) => number,
        ExpiryFault::Item(number, _) => number,
    }
}
