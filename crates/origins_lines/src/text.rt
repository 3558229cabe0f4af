//! The answers to routes in memory by the VRPs of a file in memory.
ghost use Rattle.std.specs.Prelude.{[], IfErr, IfOk, List, Some};
ghost use Rattle.rpki_text.specs.Memory.{IfRefused};
ghost use Rattle.lines_engine.specs.Run.{AnswersAll};
ghost use Rattle.roa_origin.specs.Vrps.{Vrp};
ghost use Rattle.roa_vrps.specs.Files.{HasFileFault, IsVrpFile};
ghost use Rattle.origins_lines.specs.Answers.{IsAnswerIn};

use crate::answers::Routes;
use crate::explanation::Form;
use lines_engine::text;
use roa_origin::OriginTable;
use roa_vrps::{FileFault, read_vrps};
use rpki_text::memory::OrMemory;
use std::alloc::Allocator;

/// Returns the answers to all lines of routes by the VRPs of a file, in order, each as one line (RFC 6811, 2).
///
/// - `vrps`: the file of VRPs.
/// - `form`: whether an answer is words or an object of JSON.
/// - `why`: whether each answer also lists the VRPs that cover the route.
/// - `routes`: the lines of routes. The last line may lack its end.
///
/// The octets are those that [`answer_by`](crate::routes::answer_by) writes for these VRPs and routes. The call needs
/// no device.
///
/// # Errors
///
/// - `Refused`: the first fault of the file of VRPs.
/// - `Memory`: out of memory.
pub fn answer_text<A: Allocator + Copy>(
    alloc: A,
    vrps: &[u8],
    form: Form,
    why: bool,
    routes: &[u8],
) -> Result<Vec<u8, A>, OrMemory<FileFault>>
    ensures answered { IfOk result (λ written. (listed : List Vrp) × IsVrpFile vrps.now listed
        × AnswersAll (IsAnswerIn form why listed) (Some []) (Some written.items) routes.now) }
    ensures wrong { IfErr result (IfRefused (HasFileFault vrps.now)) }
{
    let listed = read_vrps(alloc, vrps)?;
    let table = OriginTable::new(alloc, listed.as_slice())?;
    let answers = Routes {
        table: &table,
        form,
        why,
    };
    Ok(text::answer_text(alloc, &answers, routes)?)
}
