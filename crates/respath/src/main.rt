//! The program `respath`. It answers each line of the standard input by one line on the standard output.
#![tactic(auto)]

use lines_engine::adapters::{FromRead, IntoBufWriter};
use lines_engine::error::RunError;
use respath_lines::run;
use std::io::BufWriter;
use std::process::ExitCode;

/// The number of bytes that are buffered before they are written to the standard output.
const BUFFER: usize = 64 * 1024;

fn main(rt: HostRuntime) -> ExitCode {
    match serve(&rt) {
        Ok(()) => ExitCode::SUCCESS,
        Err(error) => {
            // If this fails too, only the exit status reports the error.
            let _ = eprintln!(rt; "respath: {error}");
            ExitCode::FAILURE
        }
    }
}

/// Answers the lines of the standard input on the standard output.
fn serve(rt: &HostRuntime) -> Result<(), RunError> {
    let Ok(buffered) = BufWriter::with_capacity(rt.alloc(), BUFFER, rt.stdout()) else {
        return Err(RunError::Memory);
    };
    let mut reader = FromRead::new(rt.stdin());
    let mut writer = IntoBufWriter::new(buffered);
    let ended = run(rt.alloc(), &mut reader, &mut writer);
    let (_stdout, written) = writer.finish();
    written.and(ended)
}
