//! Lists the VRPs of files, and compares the VRPs of two files.
ghost use Rattle.std.specs.Prelude.{◌≡◌, false};
ghost use Rattle.origins_lines.specs.Runs.{IsChangesRun, IsChangesText, IsFlushed, IsInputsRun, IsTableText};

use crate::error::{ChangesError, OriginsError};
use crate::file::read_file;
use crate::inputs::{InputVrps, Inputs, Report, Selection, read_inputs};
use crate::lines::write_vrps;
use lines_engine::device::{Sink, Source};
use lines_engine::engine::flush_all;
use lines_engine::error::RunError;
use roa_origin::{Vrp, VrpTable};
use rpki_base::Asn;
use std::alloc::Allocator;

/// Reads the VRPs of files, then writes a line for each VRP, sorted and each once.
///
/// - `alloc`: the allocator of the texts, of the lists and of the table.
/// - `inputs`: the files of VRPs and the SLURM file.
/// - `selection`: which files are read, and at which time VRPs may have expired.
/// - `of`, `writer`: those of [`write_listed`].
///
/// Returns the numbers of VRPs. The call never repeats a failed call of a device.
///
/// # Preconditions
///
/// No call of `inputs` or `writer` has failed, and no write has taken nothing.
///
/// # Errors
///
/// - [`OriginsError::Inputs`]: the files give no VRPs. Nothing was written.
/// - [`OriginsError::Run`]: a later step failed. The field is the error of [`write_listed`].
pub fn list_inputs<A: Allocator + Copy, I: Inputs, W: Sink>(
    alloc: A,
    inputs: &mut I,
    selection: Selection,
    of: Option<Asn>,
    writer: &mut W,
) -> Result<Report<A>, OriginsError>
    requires inputs_clear { I.mark inputs.old ≡ false }
    requires writer_clear { W.mark writer.old ≡ false }
    // The lines are those of the table of the VRPs that the files give.
    ensures { IsInputsRun (I.text inputs.old) selection (I.mark inputs.new) (writer.new ≡ writer.old)
        (λ vrps. IsFlushed W.mark W.written W.flushed (IsTableText of vrps) writer.old writer.new) result }
{
    let InputVrps { vrps, report } = read_inputs(alloc, inputs, selection).map_err(
        OriginsError::Inputs,
    )?;
    write_listed(alloc, vrps.as_slice(), of, writer).map_err(OriginsError::Run)?;
    Ok(report)
}

/// Writes a line for each VRP of a list, sorted and each once.
///
/// - `alloc`: the allocator of the table.
/// - `listed`: the VRPs, for example of several files.
/// - `of`: the AS whose VRPs alone are written; None for all.
/// - `writer`: the output. The call flushes it at the end.
///
/// The call never repeats a failed call of the writer.
///
/// # Preconditions
///
/// No call of `writer` has failed, and no write has taken nothing.
///
/// # Errors
///
/// - [`RunError::Write`]: a write or the flush failed, or a write took nothing. A beginning of the lines was written.
/// - [`RunError::Memory`]: an allocation failed. Nothing was written, or a beginning of the lines.
pub fn write_listed<A: Allocator + Copy, W: Sink>(
    alloc: A,
    listed: &[Vrp],
    of: Option<Asn>,
    writer: &mut W,
) -> Result<(), RunError>
    requires clear { W.mark writer.old ≡ false }
    ensures { IsFlushed W.mark W.written W.flushed (IsTableText of listed.now) writer.old writer.new result }
{
    let table = VrpTable::new(alloc, listed)?;
    write_vrps(alloc, of, "", &table, writer)?;
    flush_all(writer)
}

/// Reads two files of VRPs whole, then writes the changes from the old VRPs to the new ones.
///
/// The call writes a line `withdraw ..` for each VRP that only the old file has. Then it writes a line `announce ..`
/// for each VRP that only the new file has. Both groups are sorted.
///
/// - `alloc`: the allocator of the tables.
/// - `old`, `new`: the files of VRPs. The old one is read first.
/// - `writer`: the output. The call flushes it at the end.
///
/// Returns how many VRPs each file has. The call never repeats a failed call of a device.
///
/// # Preconditions
///
/// No call of `old`, `new` or `writer` has failed, and no write has taken nothing.
///
/// # Errors
///
/// - [`ChangesError::Old`], [`ChangesError::New`]: this file could not be read, is invalid, or needs more memory.
///   Nothing was written. The new file is not read if the old one is refused.
/// - [`ChangesError::Run`]: a later step failed. The field is an error with the meaning that [`write_listed`] gives it.
pub fn write_changes<A: Allocator + Copy, P: Source, N: Source, W: Sink>(
    alloc: A,
    old: &mut P,
    new: &mut N,
    writer: &mut W,
) -> Result<(usize, usize), ChangesError>
    requires old_clear { P.mark old.old ≡ false }
    requires new_clear { N.mark new.old ≡ false }
    requires writer_clear { W.mark writer.old ≡ false }
    ensures { IsChangesRun P.left P.mark N.left N.mark old.old old.new new.old new.new (writer.new ≡ writer.old)
        (λ before after. IsFlushed W.mark W.written W.flushed (IsChangesText before after) writer.old writer.new)
        result }
{
    let before = match read_file(alloc, old) {
        Ok(listed) => listed,
        Err(error) => return Err(ChangesError::Old(error)),
    };
    let after = match read_file(alloc, new) {
        Ok(listed) => listed,
        Err(error) => return Err(ChangesError::New(error)),
    };
    match write_listed_changes(alloc, before.as_slice(), after.as_slice(), writer) {
        Ok(()) => Ok((before.len(), after.len())),
        Err(error) => Err(ChangesError::Run(error)),
    }
}

/// Writes the changes from one list of VRPs to the next.
fn write_listed_changes<A: Allocator + Copy, W: Sink>(
    alloc: A,
    before: &[Vrp],
    after: &[Vrp],
    writer: &mut W,
) -> Result<(), RunError>
    requires clear { W.mark writer.old ≡ false }
    ensures { IsFlushed W.mark W.written W.flushed (IsChangesText before.now after.now) writer.old writer.new result }
{
    let old = VrpTable::new(alloc, before)?;
    let new = VrpTable::new(alloc, after)?;
    let changes = old.changes_to(alloc, &new)?;
    write_vrps(alloc, None, "withdraw ", &changes.withdrawn, writer)?;
    write_vrps(alloc, None, "announce ", &changes.announced, writer)?;
    flush_all(writer)
}
