//! The builder of a set of items of one kind, block by block.
ghost use Rattle.std.specs.Prelude.{◌≡◌, ◌++◌, [], ◌∷◌, IfOk, OnOk, OnErr, map};
ghost use Rattle.rpki_chain.specs.Runs.{Holds, IsRunsOf};

use crate::set::BlockSet;
use rpki_chain_core::block::Block;
use std::alloc::{AllocError, Allocator, Global};
use std::fmt;
use std::marker::Model;

/// A builder that collects blocks, in any order, for a set of their items.
///
/// The model of a builder is the list of the blocks' least and greatest numbers, in the order in which they were added.
#[derive(Drop)]
pub struct BlockSetBuilder<T: Block, A: Allocator = Global> {
    blocks: Vec<T, A>,
}

impl<T: Block, A: Allocator> Model for BlockSetBuilder<T, A> {
    ghost use Rattle.std.specs.Prelude.{ℕ, List, map};

    ghost Value = { List (ℕ × ℕ) };

    ghost view = { λ b. map T.bounds b.blocks.items };
}

impl<T: Block, A: Allocator> BlockSetBuilder<T, A> {
    /// Returns a builder without blocks. It keeps `alloc` for its later allocations.
    pub fn new(alloc: A) -> Self
        ensures { result ≡ [] }
    {
        BlockSetBuilder {
            blocks: Vec::new(alloc),
        }
    }

    /// Adds a block.
    ///
    /// # Errors
    ///
    /// [`AllocError`]: out of memory. The builder is unchanged then, and `block` is dropped.
    pub fn push(&mut self, block: T) -> Result<(), AllocError>
        ensures ok { OnOk result (self.new ≡ self.old ++ T.bounds block ∷ []) }
        ensures err { OnErr result (self.new ≡ self.old) }
    {
        self.blocks.push(block)?;
        Ok(())
    }

    /// Adds several blocks, in order.
    ///
    /// # Errors
    ///
    /// [`AllocError`]: out of memory. The builder is unchanged then.
    pub fn extend_from(&mut self, blocks: &[T]) -> Result<(), AllocError>
        ensures ok { OnOk result (self.new ≡ self.old ++ map T.bounds blocks.now) }
        ensures err { OnErr result (self.new ≡ self.old) }
    {
        self.blocks.reserve(blocks.len())?;
        for block in blocks {
            let (min, max) = block.bounds();
            self.blocks.push_reserved(T::new(min, max));
        }
        Ok(())
    }

    /// Returns the set of the items that at least one block has, in the memory of the builder.
    ///
    /// # Errors
    ///
    /// [`AllocError`]: out of memory for the reference count.
    pub fn finalize(self) -> Result<BlockSet<T, A>, AllocError>
    where
        A: Copy,
        ensures { IfOk result (IsRunsOf (Holds self)) }
    {
        let alloc = *self.blocks.allocator();
        BlockSet::from_vec(alloc, self.blocks)
    }
}

impl<T: Block, A: Allocator> fmt::Debug for BlockSetBuilder<T, A> {
    fn fmt<W: fmt::Write>(&self, f: &mut fmt::Formatter<W>) -> fmt::Result {
        f.debug_struct("BlockSetBuilder").finish_non_exhaustive()
    }
}
