//! The exports on handles of sets: they read a set, give it, and free it.
ghost use Rattle.pigyelund_c.specs.Covers.{cover_error_status};
ghost use Rattle.pigyelund_c.specs.SetHandles.{IsNoReadSet, IsReadSet, IsSetGiven};
ghost use Rattle.pigyelund_c.specs.Texts.{IsNoTextSet, IsTextSet, text_error_status};
ghost use Rattle.pigyelund_c.specs.declared.cover.CoverError.{CoverError};
ghost use Rattle.pigyelund_c.specs.declared.text.TextError.{TextError};

use crate::set_calls::{give, read_set};
use crate::set_handle::{SetOutput, SetOwner};
use crate::text::set_of_text;
use pigyelund_routes::status;
use rpki_resources::OrMemory;
use std::alloc::Global;

/// Reads a set from the octets of both extensions, and gives its handle.
///
/// `encoding` is that of `pigy_verify`. Length 0 means that the set has no resources of that kind. `out` receives the
/// handle, which the caller passes to `pigy_resources_free` in the end.
///
/// Returns the first status that applies:
///
/// - `PIGY_BAD_ENCODING`.
/// - `PIGY_BAD_AS` + n, `PIGY_BAD_IP` + n, `PIGY_INHERITED`.
/// - `PIGY_OK`.
///
/// The call can return `PIGY_MEMORY` instead. For any error the handle is null.
#[unsafe(no_mangle)]
pub extern "C" fn pigy_resources_read(
    alloc: Global,
    numbers: &[u8],
    addresses: &[u8],
    encoding: u32,
    out: &mut SetOutput,
) -> u32
    ensures { IsSetGiven CoverError (IsReadSet numbers.now addresses.now encoding) cover_error_status
        (IsNoReadSet numbers.now addresses.now encoding) out.new.given out.new.at result }
{
    match read_set(alloc, numbers, addresses, encoding) {
        Ok(set) => give(alloc, set, out),
        Err(OrMemory::Refused(reason)) => {
            *out = SetOutput::null();
            reason.status()
        }
        Err(OrMemory::Memory(_)) => {
            *out = SetOutput::null();
            status::MEMORY
        }
    }
}

/// Reads a list of AS numbers or of addresses, and gives the handle of the set of these resources.
///
/// `text` and `kind` are those of `pigy_set_from_text`. `out` receives the handle.
///
/// Returns the first status that applies:
///
/// - `PIGY_BAD_KIND`.
/// - `PIGY_BAD_TEXT` + 1: the text is not UTF-8. `PIGY_BAD_TEXT` + n: the first invalid element.
/// - `PIGY_OK`.
///
/// The call can return `PIGY_MEMORY` instead. For any error the handle is null.
#[unsafe(no_mangle)]
pub extern "C" fn pigy_resources_from_text(
    alloc: Global,
    text: &[u8],
    kind: u32,
    out: &mut SetOutput,
) -> u32
    ensures { IsSetGiven TextError (IsTextSet kind text.now) text_error_status (IsNoTextSet kind text.now)
        out.new.given out.new.at result }
{
    match set_of_text(alloc, kind, text) {
        Ok(set) => give(alloc, set, out),
        Err(OrMemory::Refused(reason)) => {
            *out = SetOutput::null();
            reason.status()
        }
        Err(OrMemory::Memory(_)) => {
            *out = SetOutput::null();
            status::MEMORY
        }
    }
}

/// Frees a set. For a null handle the call does nothing.
#[unsafe(no_mangle)]
pub extern "C" fn pigy_resources_free(alloc: Global, resources: SetOwner) {
    if let Some(parts) = resources.into_parts(alloc) {
        let _set = parts.into_box();
    }
}
