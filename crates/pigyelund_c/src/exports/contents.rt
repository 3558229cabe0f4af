//! The exports on what is in the set of a handle: tests, lists, octets and texts.
ghost use Rattle.std.specs.Prelude.{◌≡◌, ◌⊎◌, map};
ghost use Rattle.rpki_chain.specs.Runs.{Holds};
ghost use Rattle.pigyelund_routes.specs.Tables.{IsAsked};
ghost use Rattle.pigyelund_routes.specs.Written.{AreWritten, IsAnswered};
ghost use Rattle.pigyelund_c.specs.Ranges.{as_range};
ghost use Rattle.pigyelund_c.specs.SetHandles.{ArePrefixesIn, AreRangesIn, HasNoFamily, IsKindTextReturned, IsPrefixAnswerReturned, IsYesIf};
ghost use Rattle.pigyelund_c.specs.Sets.{IsNothingReturned, IsSetReturned};
ghost use Rattle.pigyelund_c.specs.Statuses.{argument_error_status};
ghost use Rattle.pigyelund_c.specs.declared.refusal.ArgumentError.{ArgumentError};

use crate::pair::answer_number;
use crate::ranges::{RawAsRange, RawIpRange, as_runs};
use crate::set_handle::SetRef;
use crate::set_lists::{prefix_answer, prefixes_of, ranges_of, text_of};
use crate::text::kind_of;
use crate::write::write_set;
use pigyelund_routes::route::RawPrefix;
use pigyelund_routes::status;
use pigyelund_routes::write::write_items;
use rpki_resources::OrMemory;
use rpki_resources::repository::resources::Asn;
use std::alloc::Global;

/// Tests whether a set has an AS number. The call allocates nothing.
///
/// `answer` receives 1 for yes and 0 for no, and 0 with an error.
///
/// Returns `PIGY_NO_HANDLE` if the handle is null, or else `PIGY_OK`.
#[unsafe(no_mangle)]
pub extern "C" fn pigy_resources_contains_asn(resources: SetRef, asn: u32, answer: &mut u8) -> u32
    ensures { IsAsked resources.at (IsYesIf (Holds resources.set.asn asn) answer.new × (result ≡ 0))
        (answer.new ≡ 0) result }
{
    *answer = 0;
    let Some(set) = resources.set() else {
        return status::NO_HANDLE;
    };
    *answer = answer_number(set.contains_asn(Asn::from_u32(asn)));
    status::OK
}

/// Tests whether a set has each address of a prefix (RFC 9582, 5). The call allocates nothing.
///
/// `answer` receives 1 for yes and 0 for no, and 0 with an error.
///
/// Returns the first status that applies:
///
/// - `PIGY_NO_HANDLE`.
/// - `PIGY_BAD_FAMILY`, `PIGY_BAD_PREFIX`.
/// - `PIGY_OK`.
#[unsafe(no_mangle)]
pub extern "C" fn pigy_resources_contains_prefix(
    resources: SetRef,
    prefix: &RawPrefix,
    answer: &mut u8,
) -> u32
    ensures { IsAsked resources.at (IsPrefixAnswerReturned resources.set prefix.now answer.new result)
        (answer.new ≡ 0) result }
{
    *answer = 0;
    let Some(set) = resources.set() else {
        return status::NO_HANDLE;
    };
    match prefix_answer(set, prefix) {
        Ok(found) => {
            *answer = found;
            status::OK
        }
        Err(reason) => reason.status(),
    }
}

/// Lists the fewest prefixes that have exactly the addresses of one family of a set, in ascending order.
///
/// `family` is 4 for IPv4 and 6 for IPv6. `len` receives the number of prefixes, written or required.
///
/// Returns the first status that applies:
///
/// - `PIGY_NO_HANDLE`.
/// - `PIGY_BAD_FAMILY`.
/// - `PIGY_TOO_SMALL`, then `PIGY_OK`.
///
/// The call can return `PIGY_MEMORY` instead of any status except `PIGY_NO_HANDLE`. `len` is 0 for an error other than
/// `PIGY_TOO_SMALL`. For any error `out` is unchanged.
#[unsafe(no_mangle)]
pub extern "C" fn pigy_resources_prefixes(
    alloc: Global,
    resources: SetRef,
    family: u32,
    out: &mut [RawPrefix],
    len: &mut usize,
) -> u32
    ensures { IsAsked resources.at (IsAnswered ArgumentError (ArePrefixesIn resources.set family)
        argument_error_status (HasNoFamily family) out.old out.new len.new result)
        ((out.new ≡ out.old) × (len.new ≡ 0)) result }
{
    *len = 0;
    let Some(set) = resources.set() else {
        return status::NO_HANDLE;
    };
    match prefixes_of(alloc, set, family) {
        Ok(list) => write_items(list.as_slice(), out, len),
        Err(OrMemory::Refused(reason)) => reason.status(),
        Err(OrMemory::Memory(_)) => status::MEMORY,
    }
}

/// Lists the ranges of the AS numbers of a set, in ascending order. Ranges neither overlap nor touch.
///
/// `len` receives the number of ranges, written or required.
///
/// Returns `PIGY_NO_HANDLE`, `PIGY_TOO_SMALL` or `PIGY_OK`: the first that applies. The call can return `PIGY_MEMORY`
/// instead of the last two. For `PIGY_NO_HANDLE` and `PIGY_MEMORY` `len` is 0. For any error `out` is unchanged.
#[unsafe(no_mangle)]
pub extern "C" fn pigy_resources_as_ranges(
    alloc: Global,
    resources: SetRef,
    out: &mut [RawAsRange],
    len: &mut usize,
) -> u32
    ensures { IsAsked resources.at (AreWritten (map as_range resources.set.asn) out.old out.new len.new result
        ⊎ ((result ≡ 512) × (out.new ≡ out.old) × (len.new ≡ 0)))
        ((out.new ≡ out.old) × (len.new ≡ 0)) result }
{
    *len = 0;
    let Some(set) = resources.set() else {
        return status::NO_HANDLE;
    };
    match as_runs(alloc, set.asn()) {
        Ok(list) => write_items(list.as_slice(), out, len),
        Err(_) => status::MEMORY,
    }
}

/// Lists the ranges of the addresses of one family of a set, in ascending order. Ranges neither overlap nor touch.
///
/// Parameters and statuses are those of `pigy_resources_prefixes`. `len` receives the number of ranges.
#[unsafe(no_mangle)]
pub extern "C" fn pigy_resources_ip_ranges(
    alloc: Global,
    resources: SetRef,
    family: u32,
    out: &mut [RawIpRange],
    len: &mut usize,
) -> u32
    ensures { IsAsked resources.at (IsAnswered ArgumentError (AreRangesIn resources.set family)
        argument_error_status (HasNoFamily family) out.old out.new len.new result)
        ((out.new ≡ out.old) × (len.new ≡ 0)) result }
{
    *len = 0;
    let Some(set) = resources.set() else {
        return status::NO_HANDLE;
    };
    match ranges_of(alloc, set, family) {
        Ok(list) => write_items(list.as_slice(), out, len),
        Err(OrMemory::Refused(reason)) => reason.status(),
        Err(OrMemory::Memory(_)) => status::MEMORY,
    }
}

/// Writes a set as the octets of both extensions.
///
/// `as_len` and `ip_len` receive lengths in octets, written or required.
///
/// Returns `PIGY_NO_HANDLE`, `PIGY_TOO_SMALL` or `PIGY_OK`: the first that applies. The call can return `PIGY_MEMORY`
/// instead of the last two. For `PIGY_NO_HANDLE` and `PIGY_MEMORY` both lengths are 0. For any error the buffers are
/// unchanged.
#[unsafe(no_mangle)]
pub extern "C" fn pigy_resources_der(
    alloc: Global,
    resources: SetRef,
    as_out: &mut [u8],
    ip_out: &mut [u8],
    as_len: &mut usize,
    ip_len: &mut usize,
) -> u32
    ensures { IsAsked resources.at (IsSetReturned 0 resources.set as_out.old ip_out.old as_out.new ip_out.new
        as_len.new ip_len.new result)
        (IsNothingReturned as_out.old ip_out.old as_out.new ip_out.new as_len.new ip_len.new) result }
{
    *as_len = 0;
    *ip_len = 0;
    let Some(set) = resources.set() else {
        return status::NO_HANDLE;
    };
    write_set(alloc, status::OK, set, as_out, ip_out, as_len, ip_len)
}

/// Writes the text of one kind of resources of a set, without a NUL.
///
/// `kind` is that of `pigy_set_from_text`. `len` receives the length in octets, written or required.
///
/// Returns the first status that applies:
///
/// - `PIGY_NO_HANDLE`.
/// - `PIGY_BAD_KIND`.
/// - `PIGY_TOO_SMALL`, then `PIGY_OK`.
///
/// The call can return `PIGY_MEMORY` instead of any status except `PIGY_NO_HANDLE`. `len` is 0 for an error other than
/// `PIGY_TOO_SMALL`. For any error `out` is unchanged.
#[unsafe(no_mangle)]
pub extern "C" fn pigy_resources_text(
    alloc: Global,
    resources: SetRef,
    kind: u32,
    out: &mut [u8],
    len: &mut usize,
) -> u32
    ensures { IsAsked resources.at (IsKindTextReturned resources.set kind out.old out.new len.new result)
        ((out.new ≡ out.old) × (len.new ≡ 0)) result }
{
    *len = 0;
    let Some(set) = resources.set() else {
        return status::NO_HANDLE;
    };
    let Some(kind) = kind_of(kind) else {
        return status::BAD_KIND;
    };
    match text_of(alloc, set, kind) {
        Ok(text) => write_items(text.as_bytes(), out, len),
        Err(_) => status::MEMORY,
    }
}
