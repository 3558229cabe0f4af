//! Splitting of lines and printing of answers.
ghost use Rattle.std.specs.Prelude.{◌≡◌, ◌<◌, ◌==◌, ◌∷◌, ℕ, List, IfOk, IsOk, cond, codes};
ghost use Rattle.std.specs.List.{before_first, after_first};
ghost use Rattle.std.specs.String.{string_bytes};
ghost use Rattle.hex.specs.Hex.{encode_lower};

use rpki_text::OrMemory;
use std::alloc::{AllocError, Allocator};
use std::fmt;

/// Returns the parts of a text before and after the first `mark`: all of it and an empty text if it has no `mark`.
pub fn cut_at(text: &str, mark: char) -> (&str, &str)
    ensures left { mark < 128 → result.0.now ≡ before_first (λ c. c == mark) text.now }
    ensures right { mark < 128 → result.1.now ≡ after_first (λ c. c == mark) text.now }
{
    match text.split_once(mark) {
        Some(parts) => parts,
        None => (text, ""),
    }
}

/// Prints an answer of yes or no.
pub fn boolean<A: Allocator + Copy>(alloc: A, answer: bool) -> Result<String<A>, AllocError>
    ensures { IfOk result (λ word. string_bytes word ≡ cond answer (codes "true") (codes "false")) }
{
    String::from_str(alloc, if answer { "true" } else { "false" })
}

/// Prints a value.
pub fn value<T: fmt::Display + Drop, A: Allocator + Copy>(
    alloc: A,
    value: T,
) -> Result<String<A>, AllocError> {
    format!(in alloc; "{value}")
}

/// Prints a value, or returns the `AllocError` that came instead of it.
pub fn made<T: fmt::Display + Drop, A: Allocator + Copy>(
    alloc: A,
    made: Result<T, AllocError>,
) -> Result<String<A>, AllocError> {
    match made {
        Ok(made) => value(alloc, made),
        Err(error) => Err(error),
    }
}

/// Prints a value, or `error: ` and the fault.
pub fn result<T: fmt::Display + Drop, E: fmt::Display + Drop, A: Allocator + Copy>(
    alloc: A,
    found: Result<T, E>,
) -> Result<String<A>, AllocError> {
    match found {
        Ok(found) => value(alloc, found),
        Err(fault) => error(alloc, fault),
    }
}

/// Prints `error: ` and the fault, or returns the `AllocError` if memory ran out.
pub fn refused<E: fmt::Display + Drop, A: Allocator + Copy>(
    alloc: A,
    found: OrMemory<E>,
) -> Result<String<A>, AllocError> {
    match found {
        OrMemory::Refused(fault) => error(alloc, fault),
        OrMemory::Memory(error) => Err(error),
    }
}

/// Prints `error: ` and the fault.
pub fn error<E: fmt::Display + Drop, A: Allocator + Copy>(
    alloc: A,
    fault: E,
) -> Result<String<A>, AllocError> {
    format!(in alloc; "error: {fault}")
}

/// Appends an item to a list, after the separator if the list is not empty.
pub fn append<T: fmt::Display + Drop, A: Allocator>(
    list: &mut String<A>,
    separator: &str,
    item: T,
) -> Result<(), AllocError> {
    if !list.is_empty() {
        list.push_str(separator)?;
    }
    write!(list, "{item}")
}

/// Appends a text, after a space if the list is not empty.
pub fn append_text<A: Allocator>(
    list: &mut String<A>,
    text: Result<String<A>, AllocError>,
) -> Result<(), AllocError> {
    match text {
        Ok(text) => append(list, " ", text),
        Err(error) => Err(error),
    }
}

/// The octets of an output before a call writes to it.
const KEPT: [u8; 1] = [0x7f];

/// Returns a full output, so that each write to it requests memory.
pub fn output<A: Allocator>(alloc: A) -> Result<Vec<u8, A>, AllocError> {
    KEPT.to_vec(alloc)
}

/// Returns the octets that a call has written to an output, in hexadecimal.
///
/// Returns `AllocError` if the call ran out of memory and has left the output unchanged. Otherwise, if the call has
/// changed the first octet or an error has changed the output, it returns a text that says so.
pub fn written<A: Allocator + Copy>(
    alloc: A,
    output: &[u8],
    write: Result<(), AllocError>,
) -> Result<String<A>, AllocError>
    ensures { IsOk write → (octets : List ℕ) → output.now ≡ 127 ∷ octets
        → IfOk result (λ text. string_bytes text ≡ encode_lower octets) }
{
    match (write, output.strip_prefix(&KEPT)) {
        (Err(error), Some([])) => Err(error),
        (Ok(()), Some(octets)) => hex::encode(alloc, octets),
        _ => String::from_str(alloc, "the output was not kept"),
    }
}
