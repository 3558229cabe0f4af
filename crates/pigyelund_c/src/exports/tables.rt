//! The exports on tables of VRPs.
ghost use Rattle.pigyelund_routes.specs.Reasons.{IsValidatedReturned};
ghost use Rattle.pigyelund_routes.specs.RouteChanges.{AreRouteChangesReturned};
ghost use Rattle.pigyelund_routes.specs.SeveralTables.{AreOriginsByTablesReturned};
ghost use Rattle.pigyelund_routes.specs.TableChanges.{AreTableChangesReturned};
ghost use Rattle.pigyelund_routes.specs.Tables.{AreCoveringsReturned, AreVrpsReturned, IsChangedTableReturned, IsCountReturned, IsMadeTableReturned};
ghost use Rattle.pigyelund_routes.specs.Validities.{AreTableOriginsReturned};

use pigyelund_routes::change::changed_table;
use pigyelund_routes::route::{Covering, RawVrp, Route};
use pigyelund_routes::route_changes::route_changes;
use pigyelund_routes::several_tables::validate_by_tables;
use pigyelund_routes::status;
use pigyelund_routes::table::{all_vrps, coverings, made_table};
use pigyelund_routes::table_changes::write_changes;
use pigyelund_routes::table_handle::{TableOutput, TableOwner, TableRef};
use pigyelund_routes::validate::{NO_VALIDITY, validate_route};
use pigyelund_routes::validities::validate_routes;
use pigyelund_routes::write::write_items;
use rpki_resources::OrMemory;
use std::alloc::Global;

/// Makes a table of VRPs.
///
/// VRPs may be in any order. Duplicates are kept: a VRP that comes twice is listed twice. `table` receives the handle,
/// which the caller passes to `pigy_table_free` in the end. `index` receives the index of the first invalid VRP,
/// counted from 0, and 0 otherwise.
///
/// Returns the first status that applies:
///
/// - `PIGY_BAD_FAMILY`, `PIGY_BAD_PREFIX`, `PIGY_BAD_MAX_LEN`: the first invalid VRP.
/// - `PIGY_OK`.
///
/// The call can return `PIGY_MEMORY` instead. For any error the handle is null.
#[unsafe(no_mangle)]
pub extern "C" fn pigy_table_new(
    alloc: Global,
    vrps: &[RawVrp],
    table: &mut TableOutput,
    index: &mut usize,
) -> u32
    ensures { IsMadeTableReturned vrps.now table.new.given table.new.at index.new result }
{
    *index = 0;
    match made_table(alloc, vrps) {
        Ok(parts) => {
            *table = TableOutput::of(parts);
            status::OK
        }
        Err(OrMemory::Refused(first)) => {
            *table = TableOutput::null();
            *index = first.at;
            first.reason.status()
        }
        Err(OrMemory::Memory(_)) => {
            *table = TableOutput::null();
            status::MEMORY
        }
    }
}

/// Validates one route by a table (RFC 6811, 2). The call allocates nothing.
///
/// `validity` receives 0 for valid, 1 for not found and 2 for invalid (RFC 8097, 2). `reason` receives 0 for a route
/// that is not invalid. For an invalid one it receives 2 if a VRP that covers the route has its AS, and 1 if none has.
///
/// Returns the first status that applies:
///
/// - `PIGY_NO_HANDLE`.
/// - `PIGY_SECOND` + `PIGY_BAD_FAMILY`, `PIGY_SECOND` + `PIGY_BAD_PREFIX`: the route is invalid.
/// - `PIGY_OK`.
///
/// For any error `validity` receives 255 and `reason` receives 0.
#[unsafe(no_mangle)]
pub extern "C" fn pigy_table_validate(
    table: TableRef,
    route: &Route,
    validity: &mut u8,
    reason: &mut u8,
) -> u32
    ensures { IsValidatedReturned table.at table.vrps route.now validity.new reason.new result }
{
    *validity = NO_VALIDITY;
    *reason = 0;
    let Some(table) = table.table() else {
        return status::NO_HANDLE;
    };
    match validate_route(table, route) {
        Ok(found) => {
            *validity = found.validity;
            *reason = found.reason;
            status::OK
        }
        Err(error) => error.route_status(),
    }
}

/// Validates routes by a table, one octet each, as `pigy_validate` does. The call makes no table and allocates nothing.
///
/// `out` receives the validity of each route. `reasons` receives the reason of each route, as `pigy_table_validate`
/// gives it. If `reasons` is empty, the call gives no reasons. `len` receives the number of routes. `index` receives
/// the index of the first invalid route, counted from 0, and 0 otherwise.
///
/// Returns the first status that applies:
///
/// - `PIGY_NO_HANDLE`.
/// - `PIGY_SECOND` + `PIGY_BAD_FAMILY`, `PIGY_SECOND` + `PIGY_BAD_PREFIX`: the first invalid route.
/// - `PIGY_TOO_SMALL`: `out` is too small, or `reasons` is too small and not empty.
/// - `PIGY_OK`.
///
/// `len` is 0 for an error other than `PIGY_TOO_SMALL`. For any error `out` and `reasons` are unchanged.
#[unsafe(no_mangle)]
pub extern "C" fn pigy_table_validate_routes(
    table: TableRef,
    routes: &[Route],
    out: &mut [u8],
    reasons: &mut [u8],
    len: &mut usize,
    index: &mut usize,
) -> u32
    ensures { AreTableOriginsReturned table.at table.vrps routes.now out.old out.new reasons.old
        reasons.new len.new index.new result }
{
    *len = 0;
    *index = 0;
    let Some(table) = table.table() else {
        return status::NO_HANDLE;
    };
    validate_routes(table, routes, out, reasons, len, index)
}

/// Validates routes by several tables at once, as `pigy_table_validate_routes` does by one.
///
/// The validity of a route is that by the VRPs of all tables together (RFC 6811, 2). A route is valid if it is valid by
/// one of them, and not found if it is not found by each. Without a table no route is found. `index` receives the index
/// of the first null handle, or else of the first invalid route, counted from 0, and 0 otherwise. The call allocates
/// nothing.
///
/// Returns the first status that applies:
///
/// - `PIGY_NO_HANDLE`: a handle in `tables` is null.
/// - `PIGY_SECOND` + `PIGY_BAD_FAMILY`, `PIGY_SECOND` + `PIGY_BAD_PREFIX`: the first invalid route.
/// - `PIGY_TOO_SMALL`: `out` is too small, or `reasons` is too small and not empty.
/// - `PIGY_OK`.
///
/// `len` is 0 for an error other than `PIGY_TOO_SMALL`. For any error `out` and `reasons` are unchanged.
#[unsafe(no_mangle)]
pub extern "C" fn pigy_tables_validate_routes(
    tables: &[TableRef],
    routes: &[Route],
    out: &mut [u8],
    reasons: &mut [u8],
    len: &mut usize,
    index: &mut usize,
) -> u32
    ensures { AreOriginsByTablesReturned tables.now routes.now out.old out.new reasons.old reasons.new
        len.new index.new result }
{
    validate_by_tables(tables, routes, out, reasons, len, index)
}

/// Makes the next table: `table` without the withdrawn VRPs, and then with the announced ones (RFC 8210, 5.3).
///
/// The next table has a handle of its own, and `table` does not change. A withdrawal removes all copies of a VRP. Each
/// array may list a VRP only once, even if the table lists it more than once. A VRP in both arrays has to be in the
/// table, and the next table lists it once. `next` receives the handle. `index` receives the index of the VRP at fault,
/// counted from 0, and 0 otherwise.
///
/// Returns the first status that applies:
///
/// 1. `PIGY_NO_HANDLE`.
/// 2. `PIGY_BAD_FAMILY`, `PIGY_BAD_PREFIX`, `PIGY_BAD_MAX_LEN`: the first invalid VRP in `announced`.
/// 3. `PIGY_SECOND` + one of these: the first invalid VRP in `withdrawn`.
/// 4. `PIGY_UNKNOWN_WITHDRAWAL`: the first VRP in `withdrawn` that is not in the table, or is a repetition in
///    `withdrawn`.
/// 5. `PIGY_DUPLICATE_ANNOUNCEMENT`: the first VRP in `announced` that is in the table and not withdrawn, or is a
///    repetition in `announced`.
/// 6. `PIGY_OK`.
///
/// The call can return `PIGY_MEMORY` instead of any status except `PIGY_NO_HANDLE`. `index` is an index of `withdrawn`
/// for 3 and 4, and of `announced` for 2 and 5. For any error the handle in `next` is null.
#[unsafe(no_mangle)]
pub extern "C" fn pigy_table_with_changes(
    alloc: Global,
    table: TableRef,
    announced: &[RawVrp],
    withdrawn: &[RawVrp],
    next: &mut TableOutput,
    index: &mut usize,
) -> u32
    ensures { IsChangedTableReturned table.at table.vrps announced.now withdrawn.now next.new.given
        next.new.at index.new result }
{
    *index = 0;
    let Some(table) = table.table() else {
        *next = TableOutput::null();
        return status::NO_HANDLE;
    };
    match changed_table(alloc, table, announced, withdrawn) {
        Ok(parts) => {
            *next = TableOutput::of(parts);
            status::OK
        }
        Err(OrMemory::Refused(reason)) => {
            *next = TableOutput::null();
            *index = reason.index();
            reason.status()
        }
        Err(OrMemory::Memory(_)) => {
            *next = TableOutput::null();
            status::MEMORY
        }
    }
}

/// Says of each route whether its validity differs between two tables (RFC 6811, 4), one octet each.
///
/// The octet is 0 if the route has the same validity by both tables, and 1 if it has another. `len` receives the length
/// in octets, written or required. `index` receives the index of the first invalid route, counted from 0, and 0
/// otherwise.
///
/// Returns the first status that applies:
///
/// - `PIGY_NO_HANDLE`: one of the two handles is null.
/// - `PIGY_SECOND` + `PIGY_BAD_FAMILY`, `PIGY_SECOND` + `PIGY_BAD_PREFIX`: the first invalid route.
/// - `PIGY_TOO_SMALL`, then `PIGY_OK`.
///
/// The call allocates nothing. `len` is 0 for an error other than `PIGY_TOO_SMALL`. For any error `out` is unchanged.
#[unsafe(no_mangle)]
pub extern "C" fn pigy_table_revalidate(
    old: TableRef,
    next: TableRef,
    routes: &[Route],
    out: &mut [u8],
    len: &mut usize,
    index: &mut usize,
) -> u32
    ensures { AreRouteChangesReturned old.at old.vrps next.at next.vrps routes.now out.old out.new
        len.new index.new result }
{
    *len = 0;
    *index = 0;
    let Some(old) = old.table() else {
        return status::NO_HANDLE;
    };
    let Some(next) = next.table() else {
        return status::NO_HANDLE;
    };
    route_changes(old, next, routes, out, len, index)
}

/// Lists the VRPs in which two tables differ (RFC 8210, 5.6).
///
/// `announced` receives the VRPs that are in `next` and not in `old`. `withdrawn` receives those that are in `old` and
/// not in `next`. Each VRP is listed once, and duplicates in a table make no difference. The lengths receive the
/// numbers of these VRPs, written or required.
///
/// IPv4 comes before IPv6. Then the order is by the last address of the prefix, and then by prefix length, the longer
/// first. VRPs of one prefix are in descending order of maximum lengths. VRPs that also have one maximum length are in
/// ascending order of AS numbers.
///
/// Returns the first status that applies:
///
/// - `PIGY_NO_HANDLE`: one of the two handles is null.
/// - `PIGY_TOO_SMALL`: one of the buffers is too small. Then `PIGY_OK`.
///
/// The call can return `PIGY_MEMORY` instead of any status except `PIGY_NO_HANDLE`. The lengths are 0 for an error
/// other than `PIGY_TOO_SMALL`. For any error the buffers are unchanged.
#[unsafe(no_mangle)]
pub extern "C" fn pigy_table_changes(
    alloc: Global,
    old: TableRef,
    next: TableRef,
    announced: &mut [RawVrp],
    announced_len: &mut usize,
    withdrawn: &mut [RawVrp],
    withdrawn_len: &mut usize,
) -> u32
    ensures { AreTableChangesReturned old.at old.vrps next.at next.vrps announced.old announced.new
        announced_len.new withdrawn.old withdrawn.new withdrawn_len.new result }
{
    *announced_len = 0;
    *withdrawn_len = 0;
    let Some(old) = old.table() else {
        return status::NO_HANDLE;
    };
    let Some(next) = next.table() else {
        return status::NO_HANDLE;
    };
    write_changes(
        alloc,
        old,
        next,
        announced,
        announced_len,
        withdrawn,
        withdrawn_len,
    )
}

/// Lists the VRPs of a table that cover a route, each with the reason why it does not match (RFC 6811, 2).
///
/// The longest prefix comes first. VRPs of one prefix are in ascending order of AS numbers. VRPs that also have one AS
/// are in descending order of maximum lengths. `len` receives the length, written or required, in VRPs.
///
/// Returns the first status that applies:
///
/// - `PIGY_NO_HANDLE`.
/// - `PIGY_SECOND` + `PIGY_BAD_FAMILY`, `PIGY_SECOND` + `PIGY_BAD_PREFIX`: the route is invalid.
/// - `PIGY_TOO_SMALL`, then `PIGY_OK`.
///
/// The call can return `PIGY_MEMORY` instead of any status except `PIGY_NO_HANDLE`. `len` is 0 for an error other than
/// `PIGY_TOO_SMALL`. For any error `out` is unchanged.
#[unsafe(no_mangle)]
pub extern "C" fn pigy_table_covering(
    alloc: Global,
    table: TableRef,
    route: &Route,
    out: &mut [Covering],
    len: &mut usize,
) -> u32
    ensures { AreCoveringsReturned table.at table.vrps route.now out.old out.new len.new result }
{
    *len = 0;
    let Some(table) = table.table() else {
        return status::NO_HANDLE;
    };
    match coverings(alloc, table, route) {
        Ok(list) => write_items(list.as_slice(), out, len),
        Err(OrMemory::Refused(reason)) => reason.route_status(),
        Err(OrMemory::Memory(_)) => status::MEMORY,
    }
}

/// Counts the VRPs of a table, duplicates included.
///
/// Returns `PIGY_NO_HANDLE` if the handle is null, or else `PIGY_OK`. `len` receives the number of VRPs, and 0 for an
/// error.
#[unsafe(no_mangle)]
pub extern "C" fn pigy_table_len(table: TableRef, len: &mut usize) -> u32
    ensures { IsCountReturned table.at table.vrps len.new result }
{
    *len = 0;
    let Some(table) = table.table() else {
        return status::NO_HANDLE;
    };
    *len = table.len();
    status::OK
}

/// Lists all VRPs of a table, duplicates included.
///
/// IPv4 comes before IPv6. Then the order is by address, and then by prefix length, the shorter first. VRPs of one
/// prefix are in descending order of AS numbers. VRPs that also have one AS are in ascending order of maximum lengths.
/// `len` receives the length, written or required, in VRPs.
///
/// Returns `PIGY_NO_HANDLE`, `PIGY_TOO_SMALL` or `PIGY_OK`: the first that applies. The call can return `PIGY_MEMORY`
/// instead of the last two. For `PIGY_NO_HANDLE` and `PIGY_MEMORY` `len` is 0. For any error `out` is unchanged.
#[unsafe(no_mangle)]
pub extern "C" fn pigy_table_vrps(
    alloc: Global,
    table: TableRef,
    out: &mut [RawVrp],
    len: &mut usize,
) -> u32
    ensures { AreVrpsReturned table.at table.vrps out.old out.new len.new result }
{
    *len = 0;
    let Some(table) = table.table() else {
        return status::NO_HANDLE;
    };
    match all_vrps(alloc, table) {
        Ok(list) => write_items(list.as_slice(), out, len),
        Err(_) => status::MEMORY,
    }
}

/// Frees a table. For a null handle the call does nothing.
#[unsafe(no_mangle)]
pub extern "C" fn pigy_table_free(alloc: Global, table: TableOwner) {
    if let Some(parts) = table.into_parts(alloc) {
        let _table = parts.into_box();
    }
}
