//! A table after changes of its VRPs (RFC 8210, 5.3).
ghost use Rattle.std.specs.Prelude.{◌≡◌, MatchResult};
ghost use Rattle.rpki_text.specs.Memory.{IfRefused};
ghost use Rattle.pigyelund_routes.specs.Tables.{IsChangedTable, HasChangeTableError, fault_index, fault_status, change_table_error_index, change_table_error_status};

use crate::origin::{ElementError, vrps_of};
use crate::route::RawVrp;
use crate::status;
use box_pointer::BoxPointer;
use roa_origin::{ChangeFault, OriginTable};
use rpki_text::memory::{OrMemory, refused_as};
use std::alloc::{AllocError, Global};

/// The reason why there is no table after changes.
#[derive(Clone, Copy)]
pub enum ChangeTableError {
    /// An announced VRP is invalid. The field has its index and the reason.
    Announced(ElementError),
    /// A withdrawn VRP is invalid. The field has its index and the reason.
    Withdrawn(ElementError),
    /// A change is impossible for the table. The field is the first such fault.
    Fault(ChangeFault),
}

/// Returns the status of an impossible change.
fn fault_status(fault: ChangeFault) -> u32
    ensures { result ≡ fault_status fault }
{
    match fault {
        ChangeFault::UnknownWithdrawal(_) => status::UNKNOWN_WITHDRAWAL,
        ChangeFault::DuplicateAnnouncement(_) => status::DUPLICATE_ANNOUNCEMENT,
    }
}

/// Returns the index of an impossible change in its array.
fn fault_index(fault: ChangeFault) -> usize
    ensures { result ≡ fault_index fault }
{
    match fault {
        ChangeFault::UnknownWithdrawal(at) => at,
        ChangeFault::DuplicateAnnouncement(at) => at,
    }
}

impl ChangeTableError {
    /// Returns the status of this reason.
    pub fn status(self) -> u32
        ensures { result ≡ change_table_error_status self }
    {
        match self {
            ChangeTableError::Announced(first) => first.reason.status(),
            ChangeTableError::Withdrawn(first) => status::SECOND + first.reason.status(),
            ChangeTableError::Fault(fault) => fault_status(fault),
        }
    }

    /// Returns the index of the VRP at fault in its array, counted from 0.
    pub fn index(self) -> usize
        ensures { result ≡ change_table_error_index self }
    {
        match self {
            ChangeTableError::Announced(first) => first.at,
            ChangeTableError::Withdrawn(first) => first.at,
            ChangeTableError::Fault(fault) => fault_index(fault),
        }
    }
}

/// Returns the boxed table without the withdrawn VRPs and with the announced ones (RFC 8210, 5.3).
///
/// `table` doesn't change.
///
/// # Errors
///
/// - `Refused` with the first of these: the first invalid VRP in `announced`, the first invalid VRP in `withdrawn`, the
///   first impossible change.
/// - `Memory`: out of memory for the VRPs, the table or its box.
pub fn changed_table(
    alloc: Global,
    table: &OriginTable<Global>,
    announced: &[RawVrp],
    withdrawn: &[RawVrp],
) -> Result<BoxPointer<OriginTable<Global>, Global>, OrMemory<ChangeTableError>>
    ensures { MatchResult result
        (λ parts. IsChangedTable table.now announced.now withdrawn.now parts.value)
        (IfRefused (HasChangeTableError table.now announced.now withdrawn.now)) }
{
    let announced = refused_as(
        vrps_of(alloc, announced),
        |first| ChangeTableError::Announced(first),
    )?;
    let withdrawn = refused_as(
        vrps_of(alloc, withdrawn),
        |first| ChangeTableError::Withdrawn(first),
    )?;
    // No `refused_as` here: the written proof names the fault, which a closure hides.
    let next = match table.with_changes(alloc, announced.as_slice(), withdrawn.as_slice()) {
        Ok(next) => next,
        Err(OrMemory::Refused(fault)) => return Err(OrMemory::Refused(ChangeTableError::Fault(
            fault,
        ))),
        Err(OrMemory::Memory(error)) => return Err(OrMemory::Memory(error)),
    };
    match Box::new(alloc, next) {
        Ok(boxed) => Ok(BoxPointer::of(boxed)),
        Err(_) => Err(OrMemory::Memory(AllocError)),
    }
}
