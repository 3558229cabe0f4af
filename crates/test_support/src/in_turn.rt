// Runs with each request for memory refused in turn.
ghost use Rattle.std.specs.Prelude.{◌<◌, ◌≤◌, IfOk, IfErr};
ghost use Rattle.std.specs.Fn.{FnReturnsAt};
ghost use Rattle.test_support.specs.InTurn.{SomeRunEnds, SomeRunEndsIn, EachRunBefore};
ghost use Rattle.test_support.specs.declared.in_turn.Outcome.TheVariants.{Expected, OutOfMemory};

use crate::Refusing;
use crate::plan::Plan;
use std::alloc::Allocator;

/// The way in which a run ended.
#[derive(Clone, Copy, Debug, PartialEq, Eq)]
pub enum Outcome {
    /// With the result that it has if memory suffices.
    Expected,
    /// With an out-of-memory error, and everything else unchanged.
    OutOfMemory,
    /// In any other way.
    Unexpected,
}

/// Calls `run` with an allocator that refuses request 0, then request 1, and so on, until a run meets no refusal.
///
/// It makes at most `limit` runs. `Ok` is the number of runs that met a refusal. Each of them was out of memory, and
/// the next one ended as expected.
///
/// # Errors
///
/// The number of the first run that ended otherwise, or `limit` if no run did. All runs before it were out of memory.
///
/// # Preconditions
///
/// `run` can be called at any time.
pub fn refuse_in_turn<A: Allocator + Copy, F: Fn(&Refusing<A>) -> Outcome>(
    alloc: A,
    limit: u64,
    run: F,
) -> Result<u64, u64>
    requires { F.IsAlwaysCallable run }
    ensures last { IfOk result (SomeRunEndsIn (FnReturnsAt F.Fn run) Expected) }
    ensures earlier { IfOk result (EachRunBefore (FnReturnsAt F.Fn run) OutOfMemory) }

    ensures failed { IfErr result (λ number. number < limit
        → SomeRunEnds (FnReturnsAt F.Fn run) number) }
    ensures before { IfErr result (EachRunBefore (FnReturnsAt F.Fn run) OutOfMemory) }
    ensures within { IfErr result (λ number. number ≤ limit) }
{
    for number in 0..limit {
        let refusing = Refusing::new(alloc, Plan::RefuseOnly(number));
        let outcome = run(&refusing);
        match (refusing.has_refused(), outcome) {
            (true, Outcome::OutOfMemory) => {}
            (false, Outcome::Expected) => return Ok(number),
            _ => return Err(number),
        }
    }
    Err(limit)
}
