//! VRPs after the filters and assertions of a SLURM file (RFC 8416).
ghost use Rattle.std.specs.Prelude.{◌≡◌, MatchResult};
ghost use Rattle.rpki_text.specs.Memory.{IfRefused};
ghost use Rattle.roa_slurm.specs.SlurmFiles.{HasSlurmFault};
ghost use Rattle.pigyelund_routes.specs.AppliedSlurm.{AreApplied, AreSlurmApplied, HasApplySlurmError, apply_slurm_error_index, apply_slurm_error_item, apply_slurm_error_status, slurm_fault_item, slurm_fault_status, slurm_item_fault_number, slurm_list_base, slurm_member_number};

use crate::file::raw_vrps;
use crate::file_fault::member_fault_number;
use crate::origin::{ElementError, vrps_of};
use crate::route::RawVrp;
use crate::status;
use roa_origin::Vrp;
use roa_slurm::{SlurmFault, SlurmItemFault, SlurmMember, read_slurm};
use rpki_text::memory::{OrMemory, refused_as};
use std::alloc::Global;

/// The reason why a SLURM file is not applied to VRPs.
#[derive(Clone, Copy)]
pub enum ApplySlurmError {
    /// A VRP is invalid. The field has its index and the reason.
    InvalidVrp(ElementError),
    /// The SLURM file is invalid. The field is its first fault.
    InvalidFile(SlurmFault),
}

impl ApplySlurmError {
    /// Returns the status of this reason.
    pub fn status(self) -> u32
        ensures { result ≡ apply_slurm_error_status self }
    {
        match self {
            ApplySlurmError::InvalidVrp(first) => first.reason.status(),
            ApplySlurmError::InvalidFile(fault) => slurm_fault_status(fault),
        }
    }

    /// Returns the index of the invalid VRP, counted from 0, or 0 for an invalid file.
    pub fn index(self) -> usize
        ensures { result ≡ apply_slurm_error_index self }
    {
        match self {
            ApplySlurmError::InvalidVrp(first) => first.at,
            ApplySlurmError::InvalidFile(_) => 0,
        }
    }

    /// Returns the number of the item or member at fault in the file, counted from 1. It is 0 for any other fault.
    pub fn item(self) -> usize
        ensures { result ≡ apply_slurm_error_item self }
    {
        match self {
            ApplySlurmError::InvalidVrp(_) => 0,
            ApplySlurmError::InvalidFile(fault) => slurm_fault_item(fault),
        }
    }
}

/// Returns the VRPs after the filters and the assertions of a SLURM file, in the form for C.
///
/// # Errors
///
/// - `Refused`: the first fault of the file.
/// - `Memory`: out of memory for what the file says or for the VRPs.
fn applied(
    alloc: Global,
    file: &[u8],
    vrps: &[Vrp],
) -> Result<Vec<RawVrp, Global>, OrMemory<SlurmFault>>
    ensures { MatchResult result (λ list. AreApplied file.now vrps.now list.items)
        (IfRefused (HasSlurmFault file.now)) }
{
    let slurm = read_slurm(alloc, file)?;
    let applied = slurm.apply(alloc, vrps)?;
    let list = raw_vrps(alloc, applied.as_slice())?;
    Ok(list)
}

/// Returns VRPs after the filters and the assertions of a SLURM file (RFC 8416, 3.2 to 3.4).
///
/// The list has the VRPs that no filter matches, in their order. The assertions follow in the file's order.
///
/// - `file`: the octets of the file, as [`read_slurm`] reads it.
/// - `vrps`: the VRPs to which the filters apply. No filter applies to an assertion.
///
/// # Errors
///
/// - `Refused`: the first invalid VRP, or else the first fault of the file.
/// - `Memory`: out of memory for the VRPs or for what the file says.
pub fn applied_vrps(
    alloc: Global,
    file: &[u8],
    vrps: &[RawVrp],
) -> Result<Vec<RawVrp, Global>, OrMemory<ApplySlurmError>>
    ensures { MatchResult result (λ list. AreSlurmApplied file.now vrps.now list.items)
        (IfRefused (HasApplySlurmError file.now vrps.now)) }
{
    let vrps = refused_as(
        vrps_of(alloc, vrps),
        |first| ApplySlurmError::InvalidVrp(first),
    )?;
    // No `refused_as` here: the written proof names the fault, which a closure hides.
    match applied(alloc, file, vrps.as_slice()) {
        Ok(list) => Ok(list),
        Err(OrMemory::Refused(fault)) => Err(OrMemory::Refused(ApplySlurmError::InvalidFile(
            fault,
        ))),
        Err(OrMemory::Memory(error)) => Err(OrMemory::Memory(error)),
    }
}

/// Returns the number of a member, counted from 0. The file's object and the two objects in it have the members 0 to 6,
/// and items have the members 0 to 5.
fn slurm_member_number(member: SlurmMember) -> u32
    ensures { result ≡ slurm_member_number member }
{
    match member {
        SlurmMember::SlurmVersion | SlurmMember::Prefix => 0,
        SlurmMember::ValidationOutputFilters | SlurmMember::Asn => 1,
        SlurmMember::LocallyAddedAssertions | SlurmMember::MaxPrefixLength => 2,
        SlurmMember::PrefixFilters | SlurmMember::Ski => 3,
        SlurmMember::BgpsecFilters | SlurmMember::RouterPublicKey => 4,
        SlurmMember::PrefixAssertions | SlurmMember::Comment => 5,
        SlurmMember::BgpsecAssertions => 6,
    }
}

/// Returns what is added to the number of the fault of an item of this list. No other member has items.
fn slurm_list_base(list: SlurmMember) -> u32
    ensures { result ≡ slurm_list_base list }
{
    match list {
        SlurmMember::BgpsecFilters => 64,
        SlurmMember::PrefixAssertions => 128,
        SlurmMember::BgpsecAssertions => 192,
        _ => 0,
    }
}

/// Returns the number of the fault of an item, from 1.
fn slurm_item_fault_number(fault: SlurmItemFault) -> u32
    ensures { result ≡ slurm_item_fault_number fault }
{
    match fault {
        SlurmItemFault::NotObject => 1,
        SlurmItemFault::Unknown(_) => 2,
        SlurmItemFault::InvalidPrefix(_) => 3,
        SlurmItemFault::InvalidAsn(_) => 4,
        SlurmItemFault::MaxLenFormat(_) => 5,
        SlurmItemFault::MaxLen(_) => 6,
        SlurmItemFault::NoCriterion => 7,
        SlurmItemFault::Member(member, fault) => {
            7 + 3 * slurm_member_number(member) + member_fault_number(fault)
        }
    }
}

/// Returns the status of the fault of a SLURM file.
pub fn slurm_fault_status(fault: SlurmFault) -> u32
    ensures { result ≡ slurm_fault_status fault }
{
    match fault {
        SlurmFault::NotObject => status::BAD_SLURM + 1,
        SlurmFault::Unknown(_) => status::BAD_SLURM + 2,
        SlurmFault::Version => status::BAD_SLURM + 3,
        SlurmFault::UnknownIn(object, _) => status::BAD_SLURM + 3 + slurm_member_number(object),
        SlurmFault::Member(member, fault) => {
            status::BAD_SLURM + 5 + 3 * slurm_member_number(member) + member_fault_number(fault)
        }
        SlurmFault::Item(list, _, fault) => {
            status::BAD_SLURM_ITEM + slurm_list_base(list) + slurm_item_fault_number(fault)
        }
    }
}

/// Returns the number of the invalid item in its list, or of the unknown member in its object, from 1. It is 0 for any
/// other fault.
pub fn slurm_fault_item(fault: SlurmFault) -> usize
    ensures { result ≡ slurm_fault_item fault }
{
    match fault {
        SlurmFault::Unknown(number) => number,
        SlurmFault::UnknownIn(_, number) => number,
        SlurmFault::Item(_, number, _) => number,
        SlurmFault::NotObject | SlurmFault::Version | SlurmFault::Member(_, _) => 0,
    }
}
