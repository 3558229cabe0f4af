//! Runs over more octets than any intermediate buffer has: an input of more than 2^24, an answer of more than 2^16.
use crate::observed_run::Engine;
use crate::slices::{Habits, SliceSink, SliceSource};
use crate::streams::{AGAIN, SliceReader, SliceWriter};
use lines_engine::adapters::{FromRead, IntoWrite};
use std::alloc::{AllocError, Global};

/// Number of AS numbers in a line: every second one from 0 on.
const LISTED: u32 = 20_000;

/// Number of spaces after them.
const SPACES: usize = 17 * 1024 * 1024;

/// Returns the numbers, joined.
fn list(alloc: Global, joined_by: &str) -> Result<String, AllocError> {
    let mut list = String::from_str(alloc, "AS0")?;
    for half in 1..LISTED {
        let number = 2 * half;
        write!(list, "{joined_by}AS{number}")?;
    }
    Ok(list)
}

/// Returns a line of these numbers, of spaces and of one number more; and then a line of one number.
fn input(alloc: Global) -> Result<Vec<u8>, AllocError> {
    let list = list(alloc, ",")?;
    let mut input = b"norm as ".to_vec(alloc)?;
    input.extend_from_slice(list.as_bytes())?;
    input.resize(SPACES, b' ')?;
    input.extend_from_slice(b",4294967295\nnorm as 7")?;
    Ok(input)
}

/// Returns whether this is the output for an input, over a reader and a writer of std.
fn is_answered(
    alloc: Global,
    engine: Engine,
    input: &[u8],
    output: &[u8],
    buffer: &mut [u8],
) -> bool {
    let mut reader = SliceReader {
        source: SliceSource::new(input, Habits::GOOD),
    };
    let mut writer = SliceWriter {
        sink: SliceSink::new(buffer, Habits::GOOD),
        kind: AGAIN,
    };
    let ended = engine.run(
        alloc,
        &mut FromRead::new(&mut reader),
        &mut IntoWrite::new(&mut writer),
    );
    ended.is_ok() && writer.sink.written() == output
}

fn is_answered_whole(alloc: Global, engine: Engine, output: &[u8]) -> Result<bool, AllocError> {
    let input = input(alloc)?;
    let mut buffer = Vec::new(alloc);
    buffer.resize(output.len() + 1, 0)?;
    let is_large = input.len() > 1 << 24 && output.len() > 1 << 16;
    Ok(is_large && is_answered(alloc, engine, &input, output, &mut buffer))
}

fn all_is_answered(alloc: Global, engine: Engine) -> Result<bool, AllocError> {
    let mut output = list(alloc, ", ")?;
    output.push_str(", AS4294967295\nAS7\n")?;
    is_answered_whole(alloc, engine, output.as_bytes())
}

#[test]
fn a_large_input_is_answered_whole(rt: HostRuntime) {
    for engine in &Engine::ALL {
        assert!(rt;
            all_is_answered(rt.alloc(), *engine) == Ok(true),
            "{engine:?}"
        );
    }
}
