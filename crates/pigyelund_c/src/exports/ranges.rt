//! The exports of the runs of a set.
ghost use Rattle.pigyelund_routes.specs.Written.{IsAnswered};
ghost use Rattle.pigyelund_c.specs.Covers.{IsNoCover, cover_error_status};
ghost use Rattle.pigyelund_c.specs.Ranges.{AreAsRanges, AreIpRanges, HaveNoAsRanges};
ghost use Rattle.pigyelund_c.specs.declared.cover.CoverError.{CoverError};

use crate::ranges::{RawAsRange, RawIpRange, as_ranges, ip_ranges};
use pigyelund_routes::status;
use pigyelund_routes::write::write_items;
use rpki_resources::OrMemory;
use std::alloc::Global;

/// Lists the runs of the AS numbers in AS identifiers, ascending.
///
/// A run is a range that is not a part of a longer one. Its least and its greatest number may be equal. `encoding` is
/// that of `pigy_verify`. `len` receives the number of runs, written or required.
///
/// Returns the first status that applies:
///
/// - `PIGY_BAD_ENCODING`.
/// - `PIGY_BAD_AS` + n: the first error of the AS identifiers.
/// - `PIGY_INHERITED`: the AS numbers are inherited.
/// - `PIGY_TOO_SMALL`, then `PIGY_OK`.
///
/// The call can return `PIGY_MEMORY` instead of any other status. `len` is 0 for an error other than `PIGY_TOO_SMALL`.
/// For any error `out` is unchanged.
#[unsafe(no_mangle)]
pub extern "C" fn pigy_as_ranges(
    alloc: Global,
    numbers: &[u8],
    encoding: u32,
    out: &mut [RawAsRange],
    len: &mut usize,
) -> u32
    ensures { IsAnswered CoverError (AreAsRanges numbers.now encoding) cover_error_status
        (HaveNoAsRanges numbers.now encoding) out.old out.new len.new result }
{
    match as_ranges(alloc, numbers, encoding) {
        Ok(list) => write_items(list.as_slice(), out, len),
        Err(OrMemory::Refused(reason)) => {
            *len = 0;
            reason.status()
        }
        Err(OrMemory::Memory(_)) => {
            *len = 0;
            status::MEMORY
        }
    }
}

/// Lists the runs of the addresses of one family in IP address blocks, ascending.
///
/// A run is a range that is not a part of a longer one. Its lowest and its highest address may be equal. `encoding` is
/// that of `pigy_verify`. `len` receives the number of runs, written or required.
///
/// Returns the first status that applies:
///
/// - `PIGY_BAD_ENCODING`, `PIGY_BAD_FAMILY`.
/// - `PIGY_BAD_IP` + n: the first error of the IP address blocks.
/// - `PIGY_INHERITED`: the addresses of a family are inherited, also those of the other family.
/// - `PIGY_TOO_SMALL`, then `PIGY_OK`.
///
/// The call can return `PIGY_MEMORY` instead of any other status. `len` is 0 for an error other than `PIGY_TOO_SMALL`.
/// For any error `out` is unchanged.
#[unsafe(no_mangle)]
pub extern "C" fn pigy_ip_ranges(
    alloc: Global,
    ip: &[u8],
    encoding: u32,
    family: u32,
    out: &mut [RawIpRange],
    len: &mut usize,
) -> u32
    ensures { IsAnswered CoverError (AreIpRanges ip.now encoding family) cover_error_status
        (IsNoCover ip.now encoding family) out.old out.new len.new result }
{
    match ip_ranges(alloc, ip, encoding, family) {
        Ok(list) => write_items(list.as_slice(), out, len),
        Err(OrMemory::Refused(reason)) => {
            *len = 0;
            reason.status()
        }
        Err(OrMemory::Memory(_)) => {
            *len = 0;
            status::MEMORY
        }
    }
}
