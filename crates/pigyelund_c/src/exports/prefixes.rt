//! The export of the fewest prefixes of a set.
ghost use Rattle.pigyelund_c.specs.Covers.{IsCover, IsNoCover, cover_error_status};
ghost use Rattle.pigyelund_routes.specs.Written.{IsAnswered};
ghost use Rattle.pigyelund_c.specs.declared.cover.CoverError.{CoverError};

use crate::cover::prefixes;
use pigyelund_routes::route::RawPrefix;
use pigyelund_routes::status;
use pigyelund_routes::write::write_items;
use rpki_resources::OrMemory;
use std::alloc::Global;

/// Lists the fewest prefixes that have exactly the addresses of one family in IP address blocks, in ascending order.
///
/// `encoding` is that of `pigy_verify`. `family` is 4 for IPv4 and 6 for IPv6. `len` receives the number of prefixes,
/// written or required.
///
/// Returns the first status that applies:
///
/// - `PIGY_BAD_ENCODING`, `PIGY_BAD_FAMILY`.
/// - `PIGY_BAD_IP` + n: the first error of the IP address blocks.
/// - `PIGY_INHERITED`: the addresses of a family are inherited, also those of the other family.
/// - `PIGY_TOO_SMALL`, then `PIGY_OK`.
///
/// The call can return `PIGY_MEMORY` instead of any other status. `len` is 0 for an error other than `PIGY_TOO_SMALL`.
/// For any error `out` is unchanged.
#[unsafe(no_mangle)]
pub extern "C" fn pigy_prefixes(
    alloc: Global,
    ip: &[u8],
    encoding: u32,
    family: u32,
    out: &mut [RawPrefix],
    len: &mut usize,
) -> u32
    ensures { IsAnswered CoverError (IsCover ip.now encoding family) cover_error_status
        (IsNoCover ip.now encoding family) out.old out.new len.new result }
{
    match prefixes(alloc, ip, encoding, family) {
        Ok(list) => write_items(list.as_slice(), out, len),
        Err(OrMemory::Refused(reason)) => {
            *len = 0;
            reason.status()
        }
        Err(OrMemory::Memory(_)) => {
            *len = 0;
            status::MEMORY
        }
    }
}
