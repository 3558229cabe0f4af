//! Runs over devices that move few bytes, fail or fill up, and runs with memory refused.
use crate::observed_run::{BUFFER_LEN, Devices, Engine, Row, Seen, run_own};
use crate::slices::Habits;
use lines_engine::error::RunError;
use respath_lines::answer_text;
use std::alloc::Global;
use std::process::Abort;
use test_support::{Outcome, Refusing, refuse_in_turn};

/// Inputs whose last line has an end, or has no end.
const ENDS_OF_LINES: [Row; 4] = [
    Row {
        input: b"",
        output: b"",
    },
    Row {
        input: b"\n",
        output: b"error: unknown command\n",
    },
    Row {
        input: b"norm as 7",
        output: b"AS7\n",
    },
    Row {
        input: b"norm as 7\n",
        output: b"AS7\n",
    },
];

/// An input of several lines.
const LINES: Row = Row {
    input: b"norm as AS5, 3, 4\n\nn\xff\nnorm as 1-\nnorm as AS9",
    output: b"AS3-AS5\nerror: unknown command\nerror: not UTF-8\n\
        error: Bad AS range. Expected format: AS#-AS#\nAS9\n",
};

/// The number of reads for this input: one for each byte, and one for the end.
const READS: u64 = 45;

/// The number of writer calls for its output: one for each byte, and the flush.
const WRITES: u64 = 99;

/// An input whose answers do not fit into the sink.
const LONG: Row = Row {
    input: b"\n\n\n\n\n\n",
    output: b"error: unknown command\nerror: unknown command\nerror: unknown command\n\
        error: unknown command\nerror: unknown command\nerror: unknown command\n",
};

/// Each engine over each kind of devices: without a buffer, with one that holds no byte, a part of the output, and all.
const RUNS: [(Engine, Devices); 10] = [
    (Engine::Whole, Devices::Own),
    (Engine::Whole, Devices::Std),
    (Engine::Whole, Devices::Buffered(0)),
    (Engine::Whole, Devices::Buffered(16)),
    (Engine::Whole, Devices::Buffered(1024)),
    (Engine::AsRead, Devices::Own),
    (Engine::AsRead, Devices::Std),
    (Engine::AsRead, Devices::Buffered(0)),
    (Engine::AsRead, Devices::Buffered(16)),
    (Engine::AsRead, Devices::Buffered(1024)),
];

/// Stops the test if a run was not right.
fn check(rt: &impl Abort, is_right: bool, run: (Engine, Devices), number: u64) {
    let (engine, devices) = run;
    assert!(rt; is_right, "{engine:?}, {devices:?} devices, {number}");
}

/// Returns whether all was read, answered and flushed.
fn is_whole(seen: &Seen, row: &Row) -> bool {
    let all_written = seen.written == row.output.len() && seen.begins;
    seen.ended.is_ok() && seen.left == 0 && all_written && seen.flushed
}

/// Runs an input, and returns the observed result.
fn seen_of(
    run: (Engine, Devices),
    heap: Global,
    row: &Row,
    reading: Habits,
    writing: Habits,
) -> Seen {
    let (engine, devices) = run;
    devices.run(heap, engine, row, reading, writing)
}

/// Returns whether an input is answered over devices with these habits.
fn is_answered(run: (Engine, Devices), heap: Global, row: &Row, habits: Habits) -> bool {
    is_whole(&seen_of(run, heap, row, habits, habits), row)
}

#[test]
fn each_input_is_answered_and_flushed(rt: HostRuntime) {
    for row in &ENDS_OF_LINES {
        for run in &RUNS {
            let is_right = is_answered(*run, rt.alloc(), row, Habits::GOOD);
            check(&rt, is_right, *run, row.input.len() as u64);
        }
    }
}

#[test]
fn a_run_in_steps_answers_the_same(rt: HostRuntime) {
    for step in &[1, 3, usize::MAX] {
        for run in &RUNS {
            let habits = Habits::in_steps(*step);
            let is_right = is_answered(*run, rt.alloc(), &LINES, habits);
            check(&rt, is_right, *run, *step as u64);
        }
    }
}

/// Returns how many lines end in the bytes.
fn ends_in(bytes: &[u8]) -> usize {
    bytes.iter().filter(|byte| **byte == b'\n').count()
}

/// Returns how many lines are answered before the read with this number, at one byte for each read.
fn answered_before(engine: Engine, number: u64) -> usize {
    match engine {
        Engine::Whole => 0,
        Engine::AsRead => ends_in(&LINES.input[..(number as usize).min(LINES.input.len())]),
    }
}

/// Returns whether the read with this number, which fails, is the last one, and the result is its error. Nothing is
/// flushed.
fn ends_at_read(run: (Engine, Devices), heap: Global, number: u64) -> bool {
    let seen = seen_of(run, heap, &LINES, Habits::failing_at(number), Habits::GOOD);
    let is_last = seen.reads == number.saturating_add(1) && !seen.flushed;
    let answered = ends_in(&LINES.output[..seen.written.min(LINES.output.len())]);
    let is_right = answered == answered_before(run.0, number) && are_whole_lines(&seen, &LINES);
    matches!(seen.ended, Err(RunError::Read)) && is_last && is_right
}

#[test]
fn each_read_fails_in_turn(rt: HostRuntime) {
    for number in 0..READS {
        for run in &RUNS {
            let is_right = ends_at_read(*run, rt.alloc(), number);
            check(&rt, is_right, *run, number);
        }
    }
}

/// Returns whether the write or flush with this number, which fails, is the writer's last call, and the result is its
/// error.
///
/// The bytes before it were written, one for each call.
fn ends_at_write(run: (Engine, Devices), heap: Global, number: u64, habits: Habits) -> bool {
    let seen = seen_of(run, heap, &LINES, Habits::GOOD, habits);
    let is_last = seen.writes == number.saturating_add(1) && !seen.flushed;
    let is_beginning = seen.begins && seen.written as u64 == number;
    matches!(seen.ended, Err(RunError::Write)) && is_last && is_beginning
}

#[test]
fn each_write_and_the_flush_fail_in_turn(rt: HostRuntime) {
    for number in 0..WRITES {
        for run in &RUNS {
            let habits = Habits::failing_at(number);
            let is_right = ends_at_write(*run, rt.alloc(), number, habits);
            check(&rt, is_right, *run, number);
        }
    }
}

#[test]
fn a_write_that_takes_nothing_is_a_fault(rt: HostRuntime) {
    for run in &RUNS {
        let is_right = ends_at_write(*run, rt.alloc(), 0, Habits::in_steps(0));
        check(&rt, is_right, *run, 0);
    }
}

/// Returns whether a run makes so many calls if none of them fails.
fn asks(run: (Engine, Devices), heap: Global, row: &Row, reads: u64, writes: u64) -> bool {
    let seen = seen_of(
        run,
        heap,
        row,
        Habits::failing_at(reads),
        Habits::failing_at(writes),
    );
    is_whole(&seen, row) && seen.reads == reads && seen.writes == writes
}

#[test]
fn no_other_call_is_made(rt: HostRuntime) {
    for run in &RUNS {
        let is_right = asks(*run, rt.alloc(), &LINES, READS, WRITES);
        check(&rt, is_right, *run, WRITES);
        // An empty input is read to its end, and its output is flushed too.
        let is_right = asks(*run, rt.alloc(), &ENDS_OF_LINES[0], 1, 1);
        check(&rt, is_right, *run, 1);
    }
}

/// Returns whether the sink was filled, and the error was then that of a write that took nothing.
fn ends_when_full(run: (Engine, Devices), heap: Global) -> bool {
    let seen = seen_of(run, heap, &LONG, Habits::GOOD, Habits::GOOD);
    let is_full = seen.written == BUFFER_LEN && seen.begins && !seen.flushed;
    matches!(seen.ended, Err(RunError::Write)) && is_full
}

#[test]
fn a_sink_that_fills_up_is_a_fault(rt: HostRuntime) {
    for run in &RUNS {
        check(&rt, ends_when_full(*run, rt.alloc()), *run, 0);
    }
}

/// The worked run of the program.
const WORKED: Row = Row {
    input: b"norm as aS5, 3, +4,AS4294967295,, AS7-AS7\nnorm as AS2-AS1\nnorm as\nnorm v5 1\n",
    output: b"AS3-AS5, AS7, AS4294967295\nerror: Bad AS range. Expected format: AS#-AS#\n\n\
        error: unknown kind\n",
};

/// Returns whether the answers to some first lines were written, each whole.
fn are_whole_lines(seen: &Seen, row: &Row) -> bool {
    let is_ended = match seen.written.checked_sub(1) {
        Some(last) => row.output.get(last) == Some(&b'\n'),
        None => true,
    };
    seen.begins && is_ended
}

/// Returns the way in which a run ended that may have been refused a request.
///
/// If it was refused, only the answers to some first lines were written, and nothing was flushed.
fn outcome(refusing: &Refusing<Global>, engine: Engine, row: &Row) -> Outcome {
    let seen = run_own(refusing, engine, row, Habits::GOOD, Habits::GOOD);
    match seen.ended {
        Ok(()) if is_whole(&seen, row) => Outcome::Expected,
        Err(RunError::Memory) if are_whole_lines(&seen, row) && !seen.flushed => {
            Outcome::OutOfMemory
        }
        _ => Outcome::Unexpected,
    }
}

/// Returns how many requests were refused in turn, or the number of the first one whose run was not right.
fn refused(heap: Global, engine: Engine, row: &Row) -> Result<u64, u64> {
    refuse_in_turn(
        heap,
        1000,
        |refusing: &Refusing<Global>| outcome(refusing, engine, row),
    )
}

#[test]
fn each_request_is_refused_in_turn(rt: HostRuntime) {
    for engine in &Engine::ALL {
        for row in &[LINES, WORKED] {
            match refused(rt.alloc(), *engine, row) {
                Ok(requests) => assert!(rt; requests > 5, "{engine:?}, {requests} requests"),
                Err(number) => assert!(rt; false, "{engine:?}, request {number}"),
            }
        }
    }
}

/// Returns whether a text in memory has the answers of a run.
fn has_answers(alloc: Global, row: &Row) -> bool {
    match answer_text(alloc, row.input) {
        Ok(written) => written.as_slice() == row.output,
        Err(_) => false,
    }
}

#[test]
fn a_text_in_memory_has_the_answers_of_a_run(rt: HostRuntime) {
    for row in &ENDS_OF_LINES {
        let has_answers = has_answers(rt.alloc(), row);
        assert!(rt; has_answers, "{:?}", row.input);
    }
    assert!(rt; has_answers(rt.alloc(), &LINES));
    assert!(rt; has_answers(rt.alloc(), &LONG));
}
