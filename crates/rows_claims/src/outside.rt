//! The first prefix that is not inside a set of resources.
use crate::{elements, triples};
use roa_check::outside;
use rpki_prefix::MaxLenPrefix;
use std::alloc::{AllocError, Allocator};
use test_support::print::{cut_at, refused};

/// Answers `outside A ; B ; C | PREFIX[-MAX] | ..`.
pub fn answer<A: Allocator + Copy>(alloc: A, operands: &str) -> Result<String<A>, AllocError> {
    let (lists, prefixes) = cut_at(operands, '|');
    match elements::read::<MaxLenPrefix, A>(alloc, prefixes)? {
        Some(prefixes) => of_prefixes(alloc, lists, &prefixes),
        None => String::from_str(alloc, "no such prefix"),
    }
}

fn of_prefixes<A: Allocator + Copy>(
    alloc: A,
    lists: &str,
    prefixes: &[MaxLenPrefix],
) -> Result<String<A>, AllocError> {
    match triples::read(alloc, lists) {
        Ok(set) => index_text(alloc, outside(&set, prefixes)),
        Err(error) => refused(alloc, error),
    }
}

fn index_text<A: Allocator>(alloc: A, found: Option<usize>) -> Result<String<A>, AllocError> {
    format!(in alloc; "{found:?}")
}
