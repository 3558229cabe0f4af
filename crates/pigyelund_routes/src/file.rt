//! The VRPs of a validator's file.
ghost use Rattle.std.specs.Prelude.{◌≡◌, IfOk, MatchResult, map};
ghost use Rattle.rpki_text.specs.Memory.{IfRefused};
ghost use Rattle.roa_vrps.specs.Files.{HasFileFault};
ghost use Rattle.pigyelund_routes.specs.ReturnedVrps.{handed_of};
ghost use Rattle.pigyelund_routes.specs.VrpFiles.{AreFileVrps};

use crate::route::RawVrp;
use roa_origin::Vrp;
use roa_vrps::{FileFault, read_vrps};
use rpki_text::memory::OrMemory;
use std::alloc::{AllocError, Global};

/// Returns VRPs in the form for C, in their order.
///
/// # Errors
///
/// [`AllocError`] if out of memory for them.
pub(crate) fn raw_vrps(alloc: Global, vrps: &[Vrp]) -> Result<Vec<RawVrp, Global>, AllocError>
    ensures { IfOk result (λ list. list.items ≡ map handed_of vrps.now) }
{
    let mut list = Vec::with_capacity(alloc, vrps.len())?;
    for vrp in vrps {
        list.push(RawVrp::of(vrp))?;
    }
    Ok(list)
}

/// Returns the VRPs of a validator's file in the form for C, in the file's order. `file` has the octets of the file.
///
/// The file is JSON or CSV, as [`read_vrps`] reads it.
///
/// # Errors
///
/// - `Refused`: the first fault of the file.
/// - `Memory`: out of memory for the VRPs.
pub fn file_vrps(alloc: Global, file: &[u8]) -> Result<Vec<RawVrp, Global>, OrMemory<FileFault>>
    ensures { MatchResult result (λ list. AreFileVrps file.now list.items)
        (IfRefused (HasFileFault file.now)) }
{
    let vrps = read_vrps(alloc, file)?;
    let list = raw_vrps(alloc, vrps.as_slice())?;
    Ok(list)
}
