//! Answers routes by the VRPs of files.
ghost use Rattle.std.specs.Prelude.{◌≡◌, false};
ghost use Rattle.lines_engine.specs.Run.{IsStreamRun};
ghost use Rattle.origins_lines.specs.Answers.{IsAnswerIn};
ghost use Rattle.origins_lines.specs.Runs.{IsInputsRun};

use crate::answers::Routes;
use crate::error::OriginsError;
use crate::explanation::Form;
use crate::inputs::{InputVrps, Inputs, Report, Selection, read_inputs};
use lines_engine::device::{Sink, Source};
use lines_engine::error::RunError;
use lines_engine::stream::answer_as_read;
use roa_origin::{OriginTable, Vrp};
use std::alloc::Allocator;

/// Reads the VRPs of files, then answers each line of routes by one line, in order and as it is read (RFC 6811, 2).
///
/// - `alloc`: the allocator of the texts, of the lists and of the answers.
/// - `inputs`: the files of VRPs and the SLURM file. Each is closed before a route is read.
/// - `selection`: which files are read, and at which time VRPs may have expired.
/// - `form`, `why`, `routes`, `writer`: those of [`answer_by`].
///
/// Returns the numbers of VRPs. The call never repeats a failed call of a device.
///
/// # Preconditions
///
/// No call of `inputs`, `routes` or `writer` has failed, and no write has taken nothing.
///
/// # Errors
///
/// - [`OriginsError::Inputs`]: the files give no VRPs. No route was read, and nothing was written.
/// - [`OriginsError::Run`]: a later step failed. The field is the error of [`answer_by`].
pub fn answer_inputs<A: Allocator + Copy, I: Inputs, R: Source, W: Sink>(
    alloc: A,
    inputs: &mut I,
    selection: Selection,
    form: Form,
    why: bool,
    routes: &mut R,
    writer: &mut W,
) -> Result<Report<A>, OriginsError>
    requires inputs_clear { I.mark inputs.old ≡ false }
    requires routes_clear { R.mark routes.old ≡ false }
    requires writer_clear { W.mark writer.old ≡ false }
    // The answers are those by the VRPs that the files give.
    ensures { IsInputsRun (I.text inputs.old) selection (I.mark inputs.new)
        ((routes.new ≡ routes.old) × (writer.new ≡ writer.old))
        (λ vrps. IsStreamRun R.mark R.left W.mark W.written W.flushed (IsAnswerIn form why vrps) routes.old routes.new
        writer.old writer.new) result }
{
    let InputVrps { vrps, report } = read_inputs(alloc, inputs, selection).map_err(
        OriginsError::Inputs,
    )?;
    answer_by(alloc, vrps, form, why, routes, writer).map_err(OriginsError::Run)?;
    Ok(report)
}

/// Answers each line of routes by one line, in order and as it is read (RFC 6811, 2).
///
/// - `alloc`: the allocator of the table and of the answers.
/// - `listed`: the VRPs, for example of several files. The list is freed before a route is read.
/// - `form`: whether an answer is words or an object of JSON.
/// - `why`: whether each answer also lists the VRPs that cover the route.
/// - `routes`: the lines of routes. The last line may lack its end.
/// - `writer`: the output. The call flushes it at the end.
///
/// The call never repeats a failed call of a device.
///
/// # Preconditions
///
/// No call of `routes` or `writer` has failed, and no write has taken nothing.
///
/// # Errors
///
/// - [`RunError::Read`]: a read of the routes failed. The lines whose ends were read are answered.
/// - [`RunError::Write`]: a write or the flush failed, or a write took nothing. A beginning of the answers was written.
/// - [`RunError::Memory`]: an allocation failed. Some first lines are answered, each whole.
#[tactic(auto, using(lines_engine::proofs::RunLemmas::unanswered))]
pub fn answer_by<A: Allocator + Copy, R: Source, W: Sink>(
    alloc: A,
    listed: Vec<Vrp, A>,
    form: Form,
    why: bool,
    routes: &mut R,
    writer: &mut W,
) -> Result<(), RunError>
    requires routes_clear { R.mark routes.old ≡ false }
    requires writer_clear { W.mark writer.old ≡ false }
    ensures { IsStreamRun R.mark R.left W.mark W.written W.flushed (IsAnswerIn form why listed.items) routes.old
        routes.new writer.old writer.new result }
{
    let table = OriginTable::new(alloc, listed.as_slice())?;
    drop(listed);
    let answers = Routes {
        table: &table,
        form,
        why,
    };
    answer_as_read(alloc, &answers, routes, writer)
}
