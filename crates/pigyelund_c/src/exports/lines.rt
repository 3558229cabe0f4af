//! The export of the answers of `respath`.
ghost use Rattle.std.specs.Prelude.{◌≡◌, ◌⊎◌, ℕ, List};
ghost use Rattle.respath_lines.specs.Answer.{IsAnswer};
ghost use Rattle.pigyelund_routes.specs.Written.{AreWritten};
ghost use Rattle.pigyelund_c.specs.Lines.{BeginsAsError};

use crate::lines::begins_as_error;
use pigyelund_routes::status;
use pigyelund_routes::write::write_items;
use respath_lines::answer;
use std::alloc::Global;

/// Writes the answer of the program `respath` to a line.
///
/// Neither text has the end of a line. `len` receives the length in octets, written or required.
///
/// Returns one of these statuses:
///
/// - `PIGY_BAD_QUERY`: the line is invalid, and the program answers by an error. `len` is 0 and `out` is unchanged.
/// - `PIGY_OK`: the answer is written.
/// - `PIGY_TOO_SMALL`: `len` is the required length, and `out` is unchanged.
/// - `PIGY_MEMORY`: out of memory, for the content of the line or for its answer. `len` is 0 and `out` is unchanged.
#[unsafe(no_mangle)]
pub extern "C" fn pigy_answer(alloc: Global, line: &[u8], out: &mut [u8], len: &mut usize) -> u32
    ensures { ((text : List ℕ) × IsAnswer line.now text × (¬ BeginsAsError text)
        × AreWritten text out.old out.new len.new result)
        ⊎ (((text : List ℕ) × IsAnswer line.now text × BeginsAsError text × (result ≡ 2097152)
        × (out.new ≡ out.old) × (len.new ≡ 0))
        ⊎ ((result ≡ 512) × (out.new ≡ out.old) × (len.new ≡ 0))) }
{
    *len = 0;
    match answer(alloc, line) {
        Ok(text) => {
            let octets = text.as_bytes();
            if begins_as_error(octets) {
                return status::BAD_QUERY;
            }
            write_items(octets, out, len)
        }
        Err(_) => status::MEMORY,
    }
}
