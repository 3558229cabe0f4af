//! VRPs of a file without those that have expired.
use crate::vrps::{listed, with_line_ends};
use roa_vrps::expiry::read_unexpired;
use std::alloc::{AllocError, Allocator};
use std::str::FromStr;
use test_support::print::{append, cut_at, refused};

/// Answers `unexpired TIME ; TEXT`. In the text `|` is the end of a line.
pub fn answer<A: Allocator + Copy>(alloc: A, operands: &str) -> Result<String<A>, AllocError> {
    let (time, text) = cut_at(operands, ';');
    match u64::from_str(time.trim()) {
        Ok(time) => unexpired(alloc, time, text),
        Err(_) => String::from_str(alloc, "no such time"),
    }
}

fn unexpired<A: Allocator + Copy>(
    alloc: A,
    time: u64,
    text: &str,
) -> Result<String<A>, AllocError> {
    let file = with_line_ends(alloc, text)?;
    match read_unexpired(alloc, &file, time) {
        Ok(found) => {
            let mut answer = listed(alloc, &found.vrps)?;
            append(&mut answer, "; ", found.expired)?;
            append(&mut answer, " ", "expired")?;
            Ok(answer)
        }
        Err(fault) => refused(alloc, fault),
    }
}
