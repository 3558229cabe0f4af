//! Traits by each of their names: a type that has the first has the second.
use rpki_resources::repository::resources::{chain, choice};
use std::alloc::AllocError;

fn is_itself<T: rpki_chain::Block>(block: &T) -> bool {
    block.is_equivalent(block)
}

/// Accepts a block.
pub fn block<T: chain::Block>(one: &T) -> bool {
    is_itself(one)
}

fn len<T: rpki_chain::Block, R: rpki_chain::Reads<T>>(reads: &R) -> usize {
    reads.len()
}

/// Accepts blocks that are read one by one.
pub fn reads<T: chain::Block, R: chain::Reads<T>>(one: &R) -> usize {
    len(one)
}

fn copy<T: rpki_chain::Listed>(listed: &T) -> Result<T, AllocError> {
    listed.copy()
}

/// Accepts a list in a choice.
pub fn listed<T: choice::Listed>(one: &T) -> Result<T, AllocError> {
    copy(one)
}
