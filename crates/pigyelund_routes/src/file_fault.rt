//! The statuses of faults of a VRP file.
ghost use Rattle.std.specs.Prelude.{◌≡◌};
ghost use Rattle.pigyelund_routes.specs.VrpFiles.{file_fault_line, file_fault_status, item_fault_number, member_base, member_fault_number, vrp_fault_number};

use crate::status;
use roa_vrps::{FileFault, ItemFault, Member, MemberFault, VrpFault};

/// Returns the number of the fault of a line, of the text of a VRP, or of the VRP of an item.
pub(crate) fn vrp_fault_number(fault: VrpFault) -> u32
    ensures { result ≡ vrp_fault_number fault }
{
    match fault {
        VrpFault::NotUtf8 => 1,
        VrpFault::TooManyFields(_, _) => 2,
        VrpFault::TooFewFields(_, _) => 3,
        VrpFault::Asn(_) => 4,
        VrpFault::Prefix(_) => 5,
        VrpFault::MaxLenFormat(_) => 6,
        VrpFault::MaxLen(_) => 7,
    }
}

/// Returns the number of the fault of a member, from 1.
pub(crate) fn member_fault_number(fault: MemberFault) -> u32
    ensures { result ≡ member_fault_number fault }
{
    match fault {
        MemberFault::Missing => 1,
        MemberFault::Repeated => 2,
        MemberFault::Kind => 3,
    }
}

/// Returns what is added to the number of a member's fault. The sums follow the numbers of a VRP's faults.
fn member_base(member: Member) -> u32
    ensures { result ≡ member_base member }
{
    match member {
        Member::Asn => 7,
        Member::Prefix => 10,
        Member::MaxLength => 13,
    }
}

/// Returns the number of the fault of an item of `roas`.
fn item_fault_number(fault: ItemFault) -> u32
    ensures { result ≡ item_fault_number fault }
{
    match fault {
        ItemFault::Member(member, fault) => member_base(member) + member_fault_number(fault),
        ItemFault::Vrp(fault) => vrp_fault_number(fault),
    }
}

/// Returns the status of the fault of a file.
pub fn file_fault_status(fault: FileFault) -> u32
    ensures { result ≡ file_fault_status fault }
{
    match fault {
        FileFault::Line(_, fault) => status::BAD_LINE + vrp_fault_number(fault),
        FileFault::JsonArray => status::BAD_FILE + 1,
        FileFault::NotObject => status::BAD_FILE + 2,
        FileFault::Roas(fault) => status::BAD_FILE + 2 + member_fault_number(fault),
        FileFault::Item(_, fault) => status::BAD_ITEM + item_fault_number(fault),
        FileFault::NoVrp => status::BAD_FILE + 6,
        FileFault::UnknownHeader => status::BAD_FILE + 7,
    }
}

/// Returns the number of the line or item at fault, from 1, or 0 for a fault of the whole file.
pub fn file_fault_line(fault: FileFault) -> usize
    ensures { result ≡ file_fault_line fault }
{
    match fault {
        FileFault::Line(number, _) => number,
        FileFault::Item(number, _) => number,
        FileFault::UnknownHeader
        | FileFault::JsonArray
        | FileFault::NotObject
        | FileFault::Roas(_)
        | FileFault::NoVrp => 0,
    }
}
