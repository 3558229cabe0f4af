//! A chain with a count of the reads of its blocks.
ghost use Rattle.std.specs.Prelude.{◌≡◌};
ghost use Rattle.rpki_chain_core.specs.View.{chain_blocks, counted_blocks, reads_of};

use crate::chain::Chain;
use crate::reads::Reads;
use crate::tally::Tally;
use rpki_block::block::Block;
use std::fmt;

/// A view of a chain whose reads are counted. The count is only in contracts: it takes no bytes.
#[derive(Drop)]
pub struct Counted<'a, T: Block> {
    chain: Chain<'a, T>,
    reads: Tally,
}

impl<'a, T: Block> Counted<'a, T> {
    /// Returns a view of `chain` with a count of 0.
    pub fn new(chain: Chain<'a, T>) -> Self
        ensures blocks { counted_blocks result ≡ chain_blocks chain.entry }
        ensures count { reads_of result ≡ 0 }
    {
        Counted {
            chain,
            reads: Tally::new(),
        }
    }
}

impl<T: Block + fmt::Debug> fmt::Debug for Counted<'_, T> {
    fn fmt<W: fmt::Write>(&self, f: &mut fmt::Formatter<W>) -> fmt::Result {
        f.debug_tuple("Counted").field(&self.chain).finish()
    }
}

impl<T: Block> Reads<T> for Counted<'_, T> {
    ghost blocks = { λ counted. counted_blocks counted };

    ghost count = { λ counted. reads_of counted };

    fn len(&self) -> usize {
        self.chain.len()
    }

    fn read(&mut self, at: usize) -> (T::Item, T::Item) {
        self.reads = self.reads.next();
        self.chain.as_slice()[at].bounds()
    }
}
