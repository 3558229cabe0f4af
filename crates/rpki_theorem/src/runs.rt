//! The answers of the programs to texts in memory, without devices.
ghost use Rattle.std.specs.Prelude.{[], IfErr, IfOk, List, Some};
ghost use Rattle.rpki_text.specs.Memory.{IfRefused};
ghost use Rattle.lines_engine.specs.Run.{AnswersAll};
ghost use Rattle.respath_lines.specs.Answer.{IsAnswer};
ghost use Rattle.roa_origin.specs.Vrps.{Vrp};
ghost use Rattle.roa_vrps.specs.Files.{HasFileFault, IsVrpFile};
ghost use Rattle.origins_lines.specs.Answers.{IsAnswerIn};

use origins_lines::explanation::Form;
use roa_vrps::FileFault;
use rpki_text::memory::OrMemory;
use std::alloc::{AllocError, Allocator};

/// Returns the answers of `respath` to all lines of a text, in order, each as one line.
///
/// # Errors
///
/// [`AllocError`]: out of memory.
pub fn respath<A: Allocator + Copy>(alloc: A, input: &[u8]) -> Result<Vec<u8, A>, AllocError>
    ensures { IfOk result (λ written. AnswersAll IsAnswer (Some []) (Some written.items) input.now) }
{
    respath_lines::answer_text(alloc, input)
}

/// Returns the answers of `origins` to all lines of routes by the VRPs of a file, in order, each as one line.
///
/// # Errors
///
/// - `Refused`: the first fault of the file.
/// - `Memory`: out of memory.
pub fn origins<A: Allocator + Copy>(
    alloc: A,
    vrps: &[u8],
    form: Form,
    why: bool,
    routes: &[u8],
) -> Result<Vec<u8, A>, OrMemory<FileFault>>
    ensures answered { IfOk result (λ written. (listed : List Vrp) × IsVrpFile vrps.now listed
        × AnswersAll (IsAnswerIn form why listed) (Some []) (Some written.items) routes.now) }
    ensures wrong { IfErr result (IfRefused (HasFileFault vrps.now)) }
{
    origins_lines::text::answer_text(alloc, vrps, form, why, routes)
}
