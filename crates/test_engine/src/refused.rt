//! The answers that a run has written when one of its requests for memory is refused.
use crate::buffered::run_buffered;
use crate::observed_run::{Engine, Row, Seen, run_own};
use crate::slices::Habits;
use lines_engine::error::RunError;
use std::alloc::Global;
use std::process::Abort;
use test_support::{Plan, Refusing};

/// The number of lines of the input. Each needs memory for its set.
const LINES: usize = 4;

/// The first 0, 1, 2, 3 and 4 of these lines, and their answers.
const FIRST_LINES: [Row; 5] = [
    Row {
        input: b"",
        output: b"",
    },
    Row {
        input: b"norm as AS5, 3, 4\n",
        output: b"AS3-AS5\n",
    },
    Row {
        input: b"norm as AS5, 3, 4\ncover v4 10.0.0.0/9, 10.128.0.0/9\n",
        output: b"AS3-AS5\n10.0.0.0/8\n",
    },
    Row {
        input: b"norm as AS5, 3, 4\ncover v4 10.0.0.0/9, 10.128.0.0/9\nder as 7\n",
        output: b"AS3-AS5\n10.0.0.0/8\n3007a0053003020107\n",
    },
    Row {
        input: b"norm as AS5, 3, 4\ncover v4 10.0.0.0/9, 10.128.0.0/9\nder as 7\nnorm as AS9",
        output: b"AS3-AS5\n10.0.0.0/8\n3007a0053003020107\nAS9\n",
    },
];

/// Returns the number of requests of a run in which no request is refused.
fn requests(heap: Global, engine: Engine, row: &Row) -> u64 {
    let refusing = Refusing::new(heap, Plan::RefuseNone);
    let _seen = run_own(&refusing, engine, row, Habits::GOOD, Habits::GOOD);
    refusing.asked()
}

/// Returns the number of requests of a run over the whole input.
fn all_requests(heap: Global, engine: Engine) -> u64 {
    requests(heap, engine, &FIRST_LINES[LINES])
}

/// Returns the number of answers that a run over the whole input writes if this request is refused.
///
/// Returns `None` if the run ends in any other way than by `Memory`, or writes anything else than whole answers.
fn answered(heap: Global, engine: Engine, refused: u64) -> Option<usize> {
    let refusing = Refusing::new(heap, Plan::RefuseOnly(refused));
    answers_of(&run_own(
        &refusing,
        engine,
        &FIRST_LINES[LINES],
        Habits::GOOD,
        Habits::GOOD,
    ))
}

/// Returns the same of a run through a buffer that holds all answers.
fn answered_through_buffer(heap: Global, engine: Engine, refused: u64) -> Option<usize> {
    let refusing = Refusing::new(heap, Plan::RefuseOnly(refused));
    answers_of(&run_buffered(
        heap,
        1024,
        &refusing,
        engine,
        &FIRST_LINES[LINES],
        Habits::GOOD,
        Habits::GOOD,
    ))
}

/// Returns the number of answers that a run has written whole, if it ended by `Memory` and wrote nothing else.
fn answers_of(seen: &Seen) -> Option<usize> {
    if !matches!(seen.ended, Err(RunError::Memory)) || seen.flushed || !seen.begins {
        return None;
    }
    FIRST_LINES
        .iter()
        .position(|row| row.output.len() == seen.written)
}

/// Returns the number of lines that a run has answered before it makes this request.
///
/// These are the lines whose requests come before it.
fn answered_before(heap: Global, engine: Engine, request: u64) -> usize {
    FIRST_LINES
        .iter()
        .filter(|row| requests(heap, engine, row) <= request)
        .count()
        .saturating_sub(1)
}

/// Stops the test if a run was not right.
fn check(rt: &impl Abort, is_right: bool, engine: Engine, request: u64) {
    assert!(rt; is_right, "{engine:?}, request {request}");
}

#[test]
fn all_lines_before_the_refused_one_are_answered(rt: HostRuntime) {
    for engine in &Engine::ALL {
        for request in 0..all_requests(rt.alloc(), *engine) {
            let expected = answered_before(rt.alloc(), *engine, request);
            let found = answered(rt.alloc(), *engine, request);
            check(&rt, found == Some(expected), *engine, request);
            let found = answered_through_buffer(rt.alloc(), *engine, request);
            check(&rt, found == Some(expected), *engine, request);
        }
    }
}

#[test]
fn a_later_refusal_leaves_no_fewer_answers(rt: HostRuntime) {
    for engine in &Engine::ALL {
        let mut most = 0;
        for request in 0..all_requests(rt.alloc(), *engine) {
            match answered(rt.alloc(), *engine, request) {
                Some(lines) => {
                    check(&rt, most <= lines, *engine, request);
                    most = lines;
                }
                None => check(&rt, false, *engine, request),
            }
        }
        // The last request is one of the last line.
        check(&rt, most == LINES - 1, *engine, 0);
    }
}
