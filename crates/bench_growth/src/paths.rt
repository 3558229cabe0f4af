//! Measurements of a path of claims.
use crate::lists::{self, List, Path, STEPS};
use crate::measure::{Measured, Set};
use rpki_chain::path::{Overclaim, Step};
use std::alloc::AllocError;
use std::io;
use std::time::Instant;

/// Makes a path, counts its differing blocks, and measures its verification.
pub fn measure<S: Set>(run: Measured<'_>, path: Path) -> io::Result<()> {
    let first: S = run.set(List::First(path))?;
    let steps = steps::<S>(run, path)?;
    measure_path(run, &first, &steps)?;
    report_differing(run, path, &first)
}

/// Returns the steps of a path.
fn steps<S: Set>(run: Measured<'_>, path: Path) -> Result<Vec<Step<S::Claim>>, AllocError> {
    let mut steps = Vec::new(run.rt.alloc());
    for before in 0..STEPS {
        let step = before.wrapping_add(1);
        let set: S = run.set(List::Step(path, step))?;
        let claim = set.claim();
        let mode = if lists::refuses(step) {
            Overclaim::Refuse
        } else {
            Overclaim::Trim
        };
        steps.push(Step { claim, mode })?;
    }
    Ok(steps)
}

/// Measures the verification of a path.
fn measure_path<S: Set>(run: Measured<'_>, first: &S, steps: &[Step<S::Claim>]) -> io::Result<()> {
    let start = Instant::now(run.rt)?;
    let left = first.verify_path(run.rt.alloc(), steps)?;
    run.report("path", start, left.count(), "blocks")
}

/// Prints the least number of blocks in which a step differs from what remains before it.
fn report_differing<S: Set>(run: Measured<'_>, path: Path, first: &S) -> io::Result<()> {
    let mut fewest = run.count;
    let mut left = first.intersection(run.rt.alloc(), first)?;
    for before in 0..STEPS {
        let claim: S = run.set(List::Step(path, before.wrapping_add(1)))?;
        fewest = fewest.min(left.differing(&claim));
        left = left.intersection(run.rt.alloc(), &claim)?;
    }
    let period = path.period;
    println!(run.rt;
        "{}path of period {period}: at each step {fewest} or more blocks differ",
        run.kind
    )
}
