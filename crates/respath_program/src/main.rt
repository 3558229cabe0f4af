//! The program that a release installs as `respath`. It answers the lines of files, or of the standard input.
#![tactic(auto)]

ghost use Rattle.std.specs.Prelude.{◌≡◌, false};

mod failure;
mod help;
mod options;

use crate::failure::Failure;
use crate::help::{HELP, USAGE, VERSION};
use crate::options::{Misuse, Options, Task, parse};
use lines_engine::adapters::{FromRead, IntoBufWriter};
use lines_engine::device::Sink;
use lines_engine::engine;
use lines_engine::error::RunError;
use lines_engine::watched::Watched;
use respath_lines::run;
use respath_places::CommandsWithPlaces;
use respath_places::check::Seen;
use std::io::{BufWriter, Read, Stdout};
use std::process::ExitCode;
use std::{env, fs, io};

/// The number of bytes that are buffered before they are written to the standard output.
const BUFFER: usize = 64 * 1024;

fn main(rt: HostRuntime) -> ExitCode {
    let Ok(words) = words(&rt) else {
        return fail(&rt, Failure::Words);
    };
    match parse(&rt, words.as_slice()) {
        Ok(Task::Answer { options, names }) => answer(&rt, options, names.as_slice()),
        Ok(Task::Help) => after_print(&rt, println!(rt; "{USAGE}\n{HELP}")),
        Ok(Task::Version) => after_print(&rt, println!(rt; "respath, version {VERSION}")),
        Err(Misuse::Memory) => fail(&rt, Failure::Run(None, RunError::Memory)),
        Err(misuse) => {
            let _ = eprintln!(rt; "respath: {misuse}\n{USAGE}");
            ExitCode::from(2)
        }
    }
}

/// Returns the program's name and its arguments.
fn words(rt: &HostRuntime) -> anyhow::Result<Vec<String>> {
    let words = env::args(rt)?.collect::<Vec<String>>(rt.alloc())?;
    Ok(words)
}

/// Reports a failure. If that fails too, only the exit status reports it.
fn fail(rt: &HostRuntime, failure: Failure<'_>) -> ExitCode {
    let _ = eprintln!(rt; "respath: {failure}");
    ExitCode::FAILURE
}

/// Returns exit status 0 after a text was printed, or reports that the print failed.
fn after_print(rt: &HostRuntime, printed: io::Result<()>) -> ExitCode {
    match printed {
        Ok(()) => ExitCode::SUCCESS,
        Err(_) => fail(rt, Failure::Run(None, RunError::Write)),
    }
}

/// Answers the named files in turn, or the standard input if none is named, and returns the exit status.
///
/// If a file can't be answered, the program reports it and answers the others. If the standard output fails, the
/// program ends.
fn answer(rt: &HostRuntime, options: Options, names: &[&str]) -> ExitCode {
    if names.is_empty() {
        return match answer_input(rt, options) {
            Ok(has_found) => status(has_found),
            Err(failure) => fail(rt, failure),
        };
    }
    let mut has_failed = false;
    let mut has_found = false;
    for name in names {
        match answer_name(rt, options, name) {
            Ok(found) => has_found = has_found || found,
            Err(failure) => {
                fail(rt, failure);
                has_failed = true;
                if failure.is_of_output() {
                    break;
                }
            }
        }
    }
    if has_failed {
        ExitCode::FAILURE
    } else {
        status(has_found)
    }
}

/// Returns the exit status after all lines were answered: 3 if the check found an error or a refusal.
fn status(has_found: bool) -> ExitCode {
    ExitCode::from(if has_found { 3 } else { 0 })
}

/// Answers a file, or the standard input, whose name is `-`. Returns the same as [`answer_lines`].
fn answer_name<'a>(rt: &HostRuntime, options: Options, name: &'a str) -> Result<bool, Failure<'a>> {
    if name == "-" {
        return answer_input(rt, options);
    }
    match fs::open(rt, name) {
        Ok(file) => answer_lines(rt, options, Some(name), file),
        Err(_) => Err(Failure::NotOpened(name)),
    }
}

/// Answers the standard input. Returns the same as [`answer_lines`].
fn answer_input<'a>(rt: &HostRuntime, options: Options) -> Result<bool, Failure<'a>> {
    answer_lines(rt, options, None, rt.stdin())
}

/// Answers the lines of `reader` on the standard output. With `--check` it returns whether an answer is an error or a
/// refusal, and otherwise false. Only with `--check` the program looks at each byte that it writes.
fn answer_lines<'a, R: Read + Drop>(
    rt: &HostRuntime,
    options: Options,
    name: Option<&'a str>,
    reader: R,
) -> Result<bool, Failure<'a>> {
    let mut writer = IntoBufWriter::new(buffered(rt, name)?);
    if !options.check {
        let ended = write_answers(rt, options, reader, &mut writer);
        finish(name, writer, ended)?;
        return Ok(false);
    }
    let mut watched = Watched::new(writer, Seen::nothing());
    let ended = write_answers(rt, options, reader, &mut watched);
    let has_found = watched.has_found();
    finish(name, watched.into_inner(), ended)?;
    Ok(has_found)
}

/// Writes the answers to the lines of `reader`.
///
/// # Preconditions
///
/// No call of `writer` has failed.
fn write_answers<R: Read + Drop, W: Sink>(
    rt: &HostRuntime,
    options: Options,
    reader: R,
    writer: &mut W,
) -> Result<(), RunError>
    requires { W.mark writer.old ≡ false }
{
    let mut reader = FromRead::new(reader);
    if options.places {
        engine::run(rt.alloc(), &CommandsWithPlaces, &mut reader, writer)
    } else {
        run(rt.alloc(), &mut reader, writer)
    }
}

/// Writes the answers that an ended run left in the buffer, unless a write has failed. Returns the error of that write,
/// or else of the run.
fn finish<'a>(
    name: Option<&'a str>,
    writer: IntoBufWriter<Stdout>,
    ended: Result<(), RunError>,
) -> Result<(), Failure<'a>> {
    let (_stdout, written) = writer.finish();
    match written.and(ended) {
        Ok(()) => Ok(()),
        Err(error) => Err(Failure::Run(name, error)),
    }
}

/// Returns the standard output with a buffer.
fn buffered<'a>(rt: &HostRuntime, name: Option<&'a str>) -> Result<BufWriter<Stdout>, Failure<'a>> {
    match BufWriter::with_capacity(rt.alloc(), BUFFER, rt.stdout()) {
        Ok(buffered) => Ok(buffered),
        Err(_) => Err(Failure::Run(name, RunError::Memory)),
    }
}
