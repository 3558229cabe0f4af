//! The report of an outcome to the caller.
ghost use Rattle.pigyelund_c.specs.Returned.{IsCountReturned, IsOutcomeReturned};

use crate::refusal::Refusal;
use crate::write::write_set;
use pigyelund_routes::status;
use rpki_resources::OrMemory;
use rpki_resources::repository::resources::ResourceSet;
use std::alloc::Global;

/// Writes the set of an outcome to `as_out` and `ip_out`, or its overclaimed resources to `over_as` and `over_ip`, and
/// returns the status.
///
/// The lengths of what is not written are 0. All four are 0 if the status is `MEMORY`.
pub(crate) fn write_outcome(
    alloc: Global,
    outcome: Result<ResourceSet, OrMemory<Refusal>>,
    as_out: &mut [u8],
    ip_out: &mut [u8],
    as_len: &mut usize,
    ip_len: &mut usize,
    over_as: &mut [u8],
    over_ip: &mut [u8],
    over_as_len: &mut usize,
    over_ip_len: &mut usize,
) -> u32
    ensures { IsOutcomeReturned outcome as_out.old ip_out.old as_out.new ip_out.new as_len.new ip_len.new
        over_as.old over_ip.old over_as.new over_ip.new over_as_len.new over_ip_len.new result }
{
    *as_len = 0;
    *ip_len = 0;
    *over_as_len = 0;
    *over_ip_len = 0;
    match outcome {
        Ok(set) => write_set(alloc, status::OK, &set, as_out, ip_out, as_len, ip_len),
        Err(OrMemory::Refused(reason)) => {
            let Ok(excess) = reason.excess() else {
                return status::MEMORY;
            };
            let status = reason.status();
            write_set(
                alloc,
                status,
                &excess,
                over_as,
                over_ip,
                over_as_len,
                over_ip_len,
            )
        }
        Err(OrMemory::Memory(_)) => status::MEMORY,
    }
}

/// Returns the number of verified certificates, or 0 if the status is `MEMORY`.
pub(crate) fn count_or_none(status: u32, count: usize) -> usize
    ensures { IsCountReturned count result status }
{
    if status == status::MEMORY { 0 } else { count }
}
