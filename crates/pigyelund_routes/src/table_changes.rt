//! The VRPs in which two tables differ (RFC 8210, 5.6).
ghost use Rattle.std.specs.Prelude.{IfOk};
ghost use Rattle.roa_origin.specs.Tables.{IsTableOf};
ghost use Rattle.pigyelund_routes.specs.TableChanges.{AreBothMissing, AreChangesWritten};

use crate::file::raw_vrps;
use crate::route::RawVrp;
use crate::status;
use crate::write::write_both;
use roa_origin::{OriginTable, VrpTable};
use std::alloc::{AllocError, Global};

/// The VRPs that are announced and withdrawn from one table to the next, in the form for C.
#[derive(Drop)]
struct RawChanges {
    /// The VRPs that are in the next table and not in the old one.
    announced: Vec<RawVrp, Global>,
    /// The VRPs that are in the old table and not in the next one.
    withdrawn: Vec<RawVrp, Global>,
}

/// Returns the VRPs of a table as a cache sends them, ascending and each once.
///
/// # Errors
///
/// [`AllocError`] if out of memory for them.
fn sent_vrps(alloc: Global, table: &OriginTable<Global>) -> Result<VrpTable<Global>, AllocError>
    ensures { IfOk result (IsTableOf table.now) }
{
    let mut vrps = Vec::with_capacity(alloc, table.len())?;
    for vrp in table.vrps() {
        vrps.push(vrp)?;
    }
    VrpTable::new(alloc, vrps.as_slice())
}

/// Returns the VRPs in which two tables differ, as a cache sends them (RFC 8210, 5.6).
///
/// # Errors
///
/// [`AllocError`] if out of memory for them or for copies of the tables.
fn changes_between(
    alloc: Global,
    old: &OriginTable<Global>,
    next: &OriginTable<Global>,
) -> Result<RawChanges, AllocError>
    ensures { IfOk result (λ changes. AreBothMissing old.now next.now changes.announced.items
        changes.withdrawn.items) }
{
    let before = sent_vrps(alloc, old)?;
    let after = sent_vrps(alloc, next)?;
    let changes = before.changes_to(alloc, &after)?;
    let announced = raw_vrps(alloc, changes.announced.as_slice())?;
    let withdrawn = raw_vrps(alloc, changes.withdrawn.as_slice())?;
    Ok(RawChanges {
        announced,
        withdrawn,
    })
}

/// Writes the VRPs in which two tables differ to `announced` and `withdrawn`, and returns the status.
///
/// The lengths receive the numbers of these VRPs. If one of the buffers is too short, the status is `TOO_SMALL`. If an
/// allocation fails, the status is `MEMORY` and the lengths are 0. The buffers are unchanged with any status except
/// `OK`.
pub fn write_changes(
    alloc: Global,
    old: &OriginTable<Global>,
    next: &OriginTable<Global>,
    announced: &mut [RawVrp],
    announced_len: &mut usize,
    withdrawn: &mut [RawVrp],
    withdrawn_len: &mut usize,
) -> u32
    ensures { AreChangesWritten old.now next.now announced.old announced.new announced_len.new
        withdrawn.old withdrawn.new withdrawn_len.new result }
{
    match changes_between(alloc, old, next) {
        Ok(changes) => write_both(
            changes.announced.as_slice(),
            announced,
            announced_len,
            changes.withdrawn.as_slice(),
            withdrawn,
            withdrawn_len,
        ),
        Err(_) => {
            *announced_len = 0;
            *withdrawn_len = 0;
            status::MEMORY
        }
    }
}
