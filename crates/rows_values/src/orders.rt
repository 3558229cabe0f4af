//! Comparisons of prefixes.
use rpki_prefix::max_len::MaxLenPrefix;
use rpki_prefix::prefix::Prefix;
use std::alloc::{AllocError, Allocator};
use std::str::FromStr;
use test_support::names::order_word;
use test_support::print::{self, cut_at};

/// Answers `order P | Q`.
pub fn order<A: Allocator + Copy>(alloc: A, rest: &str) -> Result<String<A>, AllocError> {
    let (left, right) = cut_at(rest, '|');
    let left = MaxLenPrefix::from_str(left.trim_matches(' '));
    let right = MaxLenPrefix::from_str(right.trim_matches(' '));
    match (left, right) {
        (Ok(left), Ok(right)) => String::from_str(alloc, order_word(left.cmp(&right))),
        (Err(fault), _) | (_, Err(fault)) => print::error(alloc, fault),
    }
}

/// Answers `covers P | Q`.
pub fn covers<A: Allocator + Copy>(alloc: A, rest: &str) -> Result<String<A>, AllocError> {
    let (left, right) = cut_at(rest, '|');
    let left = Prefix::from_str(left.trim_matches(' '));
    let right = Prefix::from_str(right.trim_matches(' '));
    match (left, right) {
        (Ok(left), Ok(right)) => print::boolean(alloc, left.covers(right)),
        (Err(fault), _) | (_, Err(fault)) => print::error(alloc, fault),
    }
}
