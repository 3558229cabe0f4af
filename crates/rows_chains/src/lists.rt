//! The two lists of a line.
use rpki_base::list::read_list;
use rpki_base::memory::OrMemory;
use std::alloc::Allocator;
use std::str::FromStr;
use test_support::print::cut_at;

/// The values of the lists `A` and `B` in `A|B`. If there is only `A`, the second is empty.
#[derive(Drop)]
pub struct Lists<T: Drop, A: Allocator> {
    pub left: Vec<T, A>,
    pub right: Vec<T, A>,
}

impl<T: FromStr + Drop, A: Allocator + Copy> Lists<T, A> {
    /// Reads both lists, the first one before the other.
    pub fn read(alloc: A, operands: &str) -> Result<Lists<T, A>, OrMemory<T::Err>> {
        let (left, right) = cut_at(operands, '|');
        let left = read_list(alloc, left)?;
        let right = read_list(alloc, right)?;
        Ok(Lists { left, right })
    }
}
