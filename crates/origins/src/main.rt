//! The program `origins`. It validates routes by VRPs, lists the VRPs of files, and compares the VRPs of two files.
#![tactic(auto)]

ghost use Rattle.std.specs.Prelude.{◌≡◌, false, IfOk};

mod failure;
mod files;
mod help;
mod options;
mod report;

use crate::failure::Failure;
use crate::files::{NamedFiles, selection_of};
use crate::help::{HELP, USAGE, VERSION};
use crate::options::{Answers, Input, STANDARD_INPUT, Task, parse, shown};
use crate::report::{Counted, Summary};
use lines_engine::adapters::{FromRead, IntoBufWriter, IntoWrite};
use lines_engine::device::{Sink, Source};
use lines_engine::error::RunError;
use lines_engine::retrying::Retrying;
use lines_engine::until_end::UntilEnd;
use lines_engine::watched::Watched;
use origins_lines::check::{STATE, Seen};
use origins_lines::error::{ChangesError, OriginsError};
use origins_lines::explanation::Form;
use origins_lines::inputs::Report;
use origins_lines::routes::answer_inputs;
use origins_lines::tables::{list_inputs, write_changes};
use rpki_base::Asn;
use rpki_base::memory::OrMemory;
use std::fs::File;
use std::io::{BufWriter, Stdin, Stdout};
use std::process::ExitCode;
use std::{env, fs, io};

/// The number of bytes that are buffered before they are written to the standard output.
const BUFFER: usize = 64 * 1024;

fn main(rt: HostRuntime) -> ExitCode {
    let Ok(words) = words(&rt) else {
        return fail(&rt, Failure::Words);
    };
    match parse(rt.alloc(), words.as_slice()) {
        Ok(task) => match serve(&rt, &task) {
            Ok(status) => ExitCode::from(status),
            Err(failure) => fail(&rt, failure),
        },
        Err(OrMemory::Refused(misuse)) => {
            let _ = eprintln!(rt; "origins: {misuse}\n{USAGE}");
            ExitCode::from(2)
        }
        Err(OrMemory::Memory(_)) => fail(&rt, Failure::Words),
    }
}

/// Returns the program's name and its arguments.
fn words(rt: &HostRuntime) -> anyhow::Result<Vec<String>> {
    let words = env::args(rt)?.collect::<Vec<String>>(rt.alloc())?;
    Ok(words)
}

/// Reports a failure. If that fails too, only the exit status reports it.
fn fail(rt: &HostRuntime, failure: Failure<'_>) -> ExitCode {
    let _ = eprintln!(rt; "origins: {failure}");
    ExitCode::FAILURE
}

/// Performs `task`, and returns the exit status.
fn serve<'a>(rt: &HostRuntime, task: &Task<'a>) -> Result<u8, Failure<'a>> {
    match task {
        Task::Answer { input, answers } => answer(rt, input, *answers),
        Task::Table { input, of } => print_table(rt, input, *of),
        Task::Changes { old, new } => print_changes(rt, *old, *new),
        Task::Help => status_after_print(println!(rt; "{USAGE}\n{HELP}")),
        Task::Version => status_after_print(println!(rt; "origins, version {VERSION}")),
    }
}

/// Returns exit status 0 after a text was printed, or the failure of the print.
fn status_after_print<'a>(printed: io::Result<()>) -> Result<u8, Failure<'a>> {
    match printed {
        Ok(()) => Ok(0),
        Err(_) => Err(Failure::Run(RunError::Write)),
    }
}

/// Answers the routes of the standard input by the VRPs of files.
///
/// Each file is closed before any route is read. Therefore the program doesn't read a file as its standard input if the
/// standard input was closed when it started.
fn answer<'a>(rt: &HostRuntime, input: &Input<'a>, answers: Answers) -> Result<u8, Failure<'a>> {
    let (ended, has_found) = if answers.line_buffered {
        let (_writer, ended, has_found) = checked(rt, input, answers, IntoWrite::new(rt.stdout()));
        (ended, has_found)
    } else {
        let writer = IntoBufWriter::new(buffered(rt)?);
        let (writer, ended, has_found) = checked(rt, input, answers, writer);
        finish(writer)?;
        (ended, has_found)
    };
    end_run(rt, input, ended)?;
    Ok(if has_found { 3 } else { 0 })
}

/// Writes the answers to the routes of the standard input. Returns the writer, the numbers of VRPs, and whether
/// `--check` was passed and has found an answer.
///
/// Only with `--check` the program looks at each byte that it writes.
fn checked<W: Sink + Drop>(
    rt: &HostRuntime,
    input: &Input<'_>,
    answers: Answers,
    mut writer: W,
) -> (W, Result<Report, OriginsError>, bool)
    requires { W.mark writer ≡ false }
{
    if !answers.check {
        let ended = write_answers(rt, input, answers, &mut writer);
        return (writer, ended, false);
    }
    let place = if answers.json { STATE } else { 0 };
    let mut watched = Watched::new(writer, Seen::nothing(place));
    let ended = write_answers(rt, input, answers, &mut watched);
    let has_found = watched.has_found();
    (watched.into_inner(), ended, has_found)
}

/// Writes the answers to the routes of the standard input.
///
/// # Preconditions
///
/// No call of `writer` has failed.
fn write_answers<W: Sink>(
    rt: &HostRuntime,
    input: &Input<'_>,
    answers: Answers,
    writer: &mut W,
) -> Result<Report, OriginsError>
    requires { W.mark writer.old ≡ false }
{
    let mut files = NamedFiles::new(rt, input);
    let mut routes = standard_input(rt);
    let form = if answers.json {
        Form::Json
    } else {
        Form::Words
    };
    answer_inputs(
        rt.alloc(),
        &mut files,
        selection_of(input),
        form,
        answers.why,
        &mut routes,
        writer,
    )
}

/// Prints the VRPs of files. The standard input may be one of them.
fn print_table<'a>(
    rt: &HostRuntime,
    input: &Input<'a>,
    of: Option<u32>,
) -> Result<u8, Failure<'a>> {
    let of = of.map(Asn::from_u32);
    let mut files = NamedFiles::new(rt, input);
    let mut writer = IntoBufWriter::new(buffered(rt)?);
    let ended = list_inputs(rt.alloc(), &mut files, selection_of(input), of, &mut writer);
    finish(writer)?;
    end_run(rt, input, ended)?;
    Ok(0)
}

/// Reports the numbers of VRPs of a run on standard error, or returns its failure.
fn end_run<'a>(
    rt: &HostRuntime,
    input: &Input<'a>,
    ended: Result<Report, OriginsError>,
) -> Result<(), Failure<'a>> {
    match ended {
        Ok(report) => {
            let summary = Summary {
                input,
                report: &report,
            };
            let _ = eprintln!(rt; "origins: {summary}");
            Ok(())
        }
        Err(error) => Err(Failure::of(input, error)),
    }
}

/// Writes the lines that an ended run left in the buffer, unless a write has failed.
fn finish<'a>(writer: IntoBufWriter<Stdout>) -> Result<(), Failure<'a>> {
    let (_stdout, written) = writer.finish();
    match written {
        Ok(()) => Ok(()),
        Err(error) => Err(Failure::Run(error)),
    }
}

/// Prints the changes from one file to another. The standard input may be one of them.
fn print_changes<'a>(rt: &HostRuntime, old: &'a str, new: &'a str) -> Result<u8, Failure<'a>> {
    let names = (shown(old), shown(new));
    if old == STANDARD_INPUT {
        print_changes_of(rt, names, &mut standard_input(rt), &mut open(rt, new)?)
    } else if new == STANDARD_INPUT {
        print_changes_of(rt, names, &mut open(rt, old)?, &mut standard_input(rt))
    } else {
        print_changes_of(rt, names, &mut open(rt, old)?, &mut open(rt, new)?)
    }
}

/// Prints the changes from the VRPs that `before` has to those that `after` has.
fn print_changes_of<'a, P: Source, N: Source>(
    rt: &HostRuntime,
    names: (&'a str, &'a str),
    before: &mut P,
    after: &mut N,
) -> Result<u8, Failure<'a>>
    requires before { P.mark before.old ≡ false }
    requires after { N.mark after.old ≡ false }
{
    let (old, new) = names;
    let mut writer = IntoBufWriter::new(buffered(rt)?);
    let ended = write_changes(rt.alloc(), before, after, &mut writer);
    finish(writer)?;
    match ended {
        Ok((count, next)) => {
            let _ = eprintln!(rt; "origins: {} in {old}, {next} in {new}", Counted(count));
            Ok(0)
        }
        Err(ChangesError::Old(error)) => Err(Failure::Vrps(old, error)),
        Err(ChangesError::New(error)) => Err(Failure::Vrps(new, error)),
        Err(ChangesError::Run(error)) => Err(Failure::Run(error)),
    }
}

/// Returns the standard input, from which a call can read VRPs or routes.
fn standard_input(rt: &HostRuntime) -> FromRead<Retrying<Stdin>>
    ensures { ⟦<FromRead<Retrying<Stdin>> as Source>⟧.mark result ≡ false }
{
    FromRead::new(Retrying::new(rt.stdin()))
}

/// Opens a file.
fn open<'a>(rt: &HostRuntime, name: &'a str) -> Result<UntilEnd<Retrying<File>>, Failure<'a>>
    ensures { IfOk result (λ file. ⟦<UntilEnd<Retrying<File>> as Source>⟧.mark file ≡ false) }
{
    match fs::open(rt, name) {
        Ok(file) => Ok(UntilEnd::new(Retrying::new(file))),
        Err(_) => Err(Failure::NotOpened(name)),
    }
}

/// Returns the standard output with a buffer.
fn buffered<'a>(rt: &HostRuntime) -> Result<BufWriter<Stdout>, Failure<'a>> {
    match BufWriter::with_capacity(rt.alloc(), BUFFER, rt.stdout()) {
        Ok(buffered) => Ok(buffered),
        Err(_) => Err(Failure::Run(RunError::Memory)),
    }
}
