//! Writing of a set into the caller's buffers.
ghost use Rattle.std.specs.Prelude.{◌≡◌, option_map, IfOk};
ghost use Rattle.pigyelund_c.specs.Sets.{IsSetReturned, as_value, ip_value, octets_or_none};

use pigyelund_routes::status;
use pigyelund_routes::write::put;
use rpki_extensions::write::{write_as_extension, write_ip_extension};
use rpki_resources::repository::resources::ResourceSet;
use std::alloc::{AllocError, Global};

/// Returns the octets of an extension, or no octets if the extension is absent.
fn or_none(alloc: Global, value: Option<Vec<u8, Global>>) -> Vec<u8, Global>
    ensures { result.items ≡ octets_or_none (option_map (λ octets. octets.items) value) }
{
    match value {
        Some(octets) => octets,
        None => Vec::new(alloc),
    }
}

/// Returns the octets of a set's AS numbers, or no octets if it has no AS numbers.
///
/// # Errors
///
/// [`AllocError`] if an allocation fails.
fn as_octets(alloc: Global, set: &ResourceSet) -> Result<Vec<u8, Global>, AllocError>
    ensures { IfOk result (λ octets. octets.items ≡ as_value set.now) }
{
    let value = write_as_extension(alloc, set)?;
    Ok(or_none(alloc, value))
}

/// Returns the octets of a set's addresses, or no octets if it has no addresses.
///
/// # Errors
///
/// [`AllocError`] if an allocation fails.
fn ip_octets(alloc: Global, set: &ResourceSet) -> Result<Vec<u8, Global>, AllocError>
    ensures { IfOk result (λ octets. octets.items ≡ ip_value set.now) }
{
    let value = write_ip_extension(alloc, set)?;
    Ok(or_none(alloc, value))
}

/// Writes a set to the caller's buffers if both are large enough, and returns the status.
///
/// - If both octet strings fit, the status is `status`, and the lengths are theirs.
/// - If a buffer is too small, the status is `TOO_SMALL`, the buffers are unchanged and the lengths are the required
///   ones.
/// - If an allocation fails, the status is `MEMORY`, the buffers are unchanged and the lengths are 0.
pub(crate) fn write_set(
    alloc: Global,
    status: u32,
    set: &ResourceSet,
    as_out: &mut [u8],
    ip_out: &mut [u8],
    as_len: &mut usize,
    ip_len: &mut usize,
) -> u32
    ensures { IsSetReturned status set.now as_out.old ip_out.old as_out.new ip_out.new as_len.new
        ip_len.new result }
{
    *as_len = 0;
    *ip_len = 0;
    let Ok(numbers) = as_octets(alloc, set) else {
        return status::MEMORY;
    };
    let Ok(addresses) = ip_octets(alloc, set) else {
        return status::MEMORY;
    };
    *as_len = numbers.len();
    *ip_len = addresses.len();
    if as_out.len() < numbers.len() || ip_out.len() < addresses.len() {
        return status::TOO_SMALL;
    }
    put(numbers.as_slice(), as_out);
    put(addresses.as_slice(), ip_out);
    status
}
