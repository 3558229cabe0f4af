//! The exports of the VRPs of a validator's file, of SLURM files, and of the routes of lines.
ghost use Rattle.pigyelund_routes.specs.AppliedSlurm.{AreAppliedReturned};
ghost use Rattle.pigyelund_routes.specs.RouteTexts.{AreLineRoutesReturned};
ghost use Rattle.pigyelund_routes.specs.UnexpiredFiles.{AreUnexpiredReturned};
ghost use Rattle.pigyelund_routes.specs.VrpFiles.{AreFileVrpsReturned};

use pigyelund_routes::file::file_vrps;
use pigyelund_routes::file_fault::{file_fault_line, file_fault_status};
use pigyelund_routes::lines::line_routes;
use pigyelund_routes::route::{RawVrp, Route};
use pigyelund_routes::slurm::applied_vrps;
use pigyelund_routes::status;
use pigyelund_routes::unexpired::{expiry_fault_line, expiry_fault_status, unexpired_vrps};
use pigyelund_routes::write::write_items;
use rpki_resources::OrMemory;
use std::alloc::Global;

/// Lists the VRPs of a validator's file, in the order of the file. A VRP that the file repeats is listed again.
///
/// `file` has the octets of the whole file. It is JSON or CSV, as `roa_vrps::read_vrps` reads it. `len` receives the
/// length, written or required, in VRPs. `line` receives the number of the first invalid line, or of the first invalid
/// item of `roas`. It is counted from 1, and is 0 otherwise.
///
/// Returns the first status that applies:
///
/// - `PIGY_BAD_FILE` + n: the file as a whole, n from 1 to 5, or n = 7.
/// - `PIGY_BAD_LINE` + n: the first invalid line of CSV. `PIGY_BAD_ITEM` + n: the first invalid item of `roas` in JSON.
/// - `PIGY_BAD_FILE` + 6: the file has no VRP.
/// - `PIGY_TOO_SMALL`, then `PIGY_OK`.
///
/// The call can return `PIGY_MEMORY` instead of any other status. `len` is 0 for an error other than `PIGY_TOO_SMALL`.
/// For any error `out` is unchanged.
#[unsafe(no_mangle)]
pub extern "C" fn pigy_vrps_read(
    alloc: Global,
    file: &[u8],
    out: &mut [RawVrp],
    len: &mut usize,
    line: &mut usize,
) -> u32
    ensures { AreFileVrpsReturned file.now out.old out.new len.new line.new result }
{
    *len = 0;
    *line = 0;
    match file_vrps(alloc, file) {
        Ok(list) => write_items(list.as_slice(), out, len),
        Err(OrMemory::Refused(fault)) => {
            *line = file_fault_line(fault);
            file_fault_status(fault)
        }
        Err(OrMemory::Memory(_)) => status::MEMORY,
    }
}

/// Lists the routes of lines, in the order of the lines. A route that the lines repeat is listed again.
///
/// `text` has the lines that the program `origins` reads, as `roa_routes::read_route` reads each. A line of
/// `bgpdump -m` that announces no route has none. If the origin of a route is unknown, its AS is AS0. `len` receives
/// the length, written or required, in routes. `line` receives the number of the first invalid line, counted from 1,
/// and 0 otherwise.
///
/// Returns the first status that applies:
///
/// - `PIGY_BAD_ROUTE` + n: the first invalid line.
/// - `PIGY_TOO_SMALL`, then `PIGY_OK`.
///
/// The call can return `PIGY_MEMORY` instead of any other status. `len` is 0 for an error other than `PIGY_TOO_SMALL`.
/// For any error `out` is unchanged.
#[unsafe(no_mangle)]
pub extern "C" fn pigy_routes_read(
    alloc: Global,
    text: &[u8],
    out: &mut [Route],
    len: &mut usize,
    line: &mut usize,
) -> u32
    ensures { AreLineRoutesReturned text.now out.old out.new len.new line.new result }
{
    *len = 0;
    *line = 0;
    match line_routes(alloc, text) {
        Ok(list) => write_items(list.as_slice(), out, len),
        Err(OrMemory::Refused(first)) => {
            *line = first.number;
            first.status()
        }
        Err(OrMemory::Memory(_)) => status::MEMORY,
    }
}

/// Lists the VRPs of a validator's file that have not expired, in the order of the file. The file is read as
/// `pigy_vrps_read` reads it.
///
/// `time` is in seconds since 1970-01-01 UTC. The expiry of a VRP is a whole number of seconds since then: the member
/// `expires` of its item in JSON, or the field in the column `Expires` in CSV. A VRP has expired if its expiry is
/// before `time`. A VRP without this member or field, or with an empty field, does not expire.
///
/// `len` receives the length, written or required, in VRPs. It is 0 if all VRPs have expired. `expired` receives the
/// number of VRPs that have expired. `line` receives the number of the first invalid line or item, counted from 1, and
/// 0 otherwise.
///
/// Returns the first status that applies:
///
/// - The errors of `pigy_vrps_read`.
/// - `PIGY_BAD_LINE` + 20: the first line of CSV with an invalid expiry. `PIGY_BAD_ITEM` + n with n from 18 to 20: the
///   first item of `roas` with an invalid expiry.
/// - `PIGY_TOO_SMALL`, then `PIGY_OK`.
///
/// The call can return `PIGY_MEMORY` instead of any other status. `len` and `expired` are 0 for an error other than
/// `PIGY_TOO_SMALL`. For any error `out` is unchanged.
#[unsafe(no_mangle)]
pub extern "C" fn pigy_vrps_read_unexpired(
    alloc: Global,
    file: &[u8],
    time: u64,
    out: &mut [RawVrp],
    len: &mut usize,
    expired: &mut usize,
    line: &mut usize,
) -> u32
    ensures { AreUnexpiredReturned file.now time out.old out.new len.new expired.new line.new result }
{
    *len = 0;
    *expired = 0;
    *line = 0;
    match unexpired_vrps(alloc, file, time) {
        Ok(found) => {
            *expired = found.expired;
            write_items(found.vrps.as_slice(), out, len)
        }
        Err(OrMemory::Refused(fault)) => {
            *line = expiry_fault_line(fault);
            expiry_fault_status(fault)
        }
        Err(OrMemory::Memory(_)) => status::MEMORY,
    }
}

/// Lists VRPs after the filters and the assertions of a SLURM file (RFC 8416, 3.2 to 3.4).
///
/// The list has the VRPs that no filter matches, in their order. The assertions follow in the file's order.
/// `file` has the octets of the whole file, which `roa_slurm::read_slurm` reads. No filter removes an assertion.
/// Filters and assertions of router keys are checked, and have no effect. `len` receives the length, written or
/// required, in VRPs. `index` receives the index of the first invalid VRP, counted from 0. `item` receives the number
/// of the invalid item in its list, or of the unknown member in its object, counted from 1. Both are 0 otherwise.
///
/// Returns the first status that applies:
///
/// - `PIGY_BAD_FAMILY`, `PIGY_BAD_PREFIX`, `PIGY_BAD_MAX_LEN`: the first invalid VRP. `item` is 0.
/// - `PIGY_BAD_SLURM` + n or `PIGY_BAD_SLURM_ITEM` + 64 * list + n: the first fault of the file. `index` is 0.
/// - `PIGY_TOO_SMALL`, then `PIGY_OK`. `index` and `item` are 0.
///
/// The call can return `PIGY_MEMORY` instead of any other status. `index` and `item` are 0 then. `len` is 0 for an
/// error other than `PIGY_TOO_SMALL`. For any error `out` is unchanged.
#[unsafe(no_mangle)]
pub extern "C" fn pigy_slurm_apply(
    alloc: Global,
    file: &[u8],
    vrps: &[RawVrp],
    out: &mut [RawVrp],
    len: &mut usize,
    index: &mut usize,
    item: &mut usize,
) -> u32
    ensures { AreAppliedReturned file.now vrps.now out.old out.new len.new index.new item.new result }
{
    *len = 0;
    *index = 0;
    *item = 0;
    match applied_vrps(alloc, file, vrps) {
        Ok(list) => write_items(list.as_slice(), out, len),
        Err(OrMemory::Refused(error)) => {
            *index = error.index();
            *item = error.item();
            error.status()
        }
        Err(OrMemory::Memory(_)) => status::MEMORY,
    }
}
