//! Writes VRPs, one per line.
ghost use Rattle.std.specs.Prelude.{◌≡◌, ◌++◌, false, IfOk};
ghost use Rattle.lines_engine.specs.Run.{as_line};
ghost use Rattle.roa_routes.specs.Texts.{vrp_text};
ghost use Rattle.origins_lines.specs.Runs.{IsWritten, is_of, vrp_line, vrp_lines};

use lines_engine::device::{DeviceFault, Sink};
use lines_engine::engine::write_all;
use lines_engine::error::RunError;
use roa_origin::{Vrp, VrpTable};
use roa_routes::buffer::{MAX_VRP, put_vrp};
use rpki_addr::addr::print::put;
use rpki_base::Asn;
use std::alloc::{AllocError, Allocator};

/// Writes a line for each VRP of `table`, in their order.
///
/// A line has `word`, the prefix with its maximum length, a space, and the AS.
///
/// - `alloc`: the allocator of the lines.
/// - `of`: the AS whose VRPs alone are written; None for all.
///
/// # Preconditions
///
/// No call of `writer` has failed, and no write has taken nothing.
///
/// # Errors
///
/// The beginning of the lines was written then. It may be empty.
///
/// - [`RunError::Write`]: a write failed, or took nothing.
/// - [`RunError::Memory`]: an allocation failed.
#[tactic(auto, using(lines_engine::proofs::RunLemmas::written_none))]
pub fn write_vrps<A: Allocator + Copy, W: Sink>(
    alloc: A,
    of: Option<Asn>,
    word: &str,
    table: &VrpTable<A>,
    writer: &mut W,
) -> Result<(), RunError>
    requires clear { W.mark writer.old ≡ false }
    ensures { IsWritten W.mark W.written (λ text. text ≡ vrp_lines of word.now table.now) writer.old writer.new result }
{
    let mut rest = table.as_slice();
    while let Some((vrp, behind)) = rest.split_first() {
        write_vrp(alloc, &of, word, vrp, writer)?;
        rest = behind;
    }
    Ok(())
}

/// Writes the line of a VRP, if the VRP has the requested AS. The whole line is made before it is written.
fn write_vrp<A: Allocator + Copy, W: Sink>(
    alloc: A,
    of: &Option<Asn>,
    word: &str,
    vrp: &Vrp,
    writer: &mut W,
) -> Result<(), RunError>
    requires clear { W.mark writer.old ≡ false }
    ensures { IsWritten W.mark W.written (λ text. text ≡ vrp_line of.now word.now vrp.now) writer.old writer.new result }
{
    if !is_wanted(of, vrp) {
        return Ok(());
    }
    let line = line_of(alloc, word, vrp)?;
    match write_all(writer, &line) {
        Ok(()) => Ok(()),
        Err(DeviceFault) => Err(RunError::Write),
    }
}

/// The maximum number of bytes of a VRP and the end of its line.
const MAX_LINE: usize = MAX_VRP + 1;

/// Returns the line of a VRP.
fn line_of<A: Allocator>(alloc: A, word: &str, vrp: &Vrp) -> Result<Vec<u8, A>, AllocError>
    ensures { IfOk result (λ line. line.items ≡ as_line (word.now ++ vrp_text vrp.now)) }
{
    let mut out = [0; MAX_LINE];
    let end = put_vrp(&mut out, 0, vrp);
    let end = put(&mut out, end, b'\n');
    let mut line = Vec::with_capacity(alloc, word.len() + end)?;
    line.extend_from_slice(word.as_bytes())?;
    line.extend_from_slice(&out[..end])?;
    Ok(line)
}

/// Returns whether a VRP has the requested AS, or no AS is requested.
fn is_wanted(of: &Option<Asn>, vrp: &Vrp) -> bool
    ensures { result ≡ is_of of.now vrp.now }
{
    match of {
        Some(asn) => vrp.1 == *asn,
        None => true,
    }
}
