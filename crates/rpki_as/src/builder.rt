//! Builders of sets of AS numbers and of AS resources, block by block.
ghost use Rattle.std.specs.Prelude.{◌≡◌, ◌++◌, [], ◌∷◌, IfOk, OnOk, OnErr, map};
ghost use Rattle.rpki_chain.specs.Runs.{Holds, IsRunsOf};
ghost use Rattle.rpki_as_block.specs.Blocks.{as_bounds};

use crate::blocks::AsBlocks;
use crate::resources::AsResources;
use rpki_as_block::block::AsBlock;
use rpki_chain::builder::BlockSetBuilder;
use rpki_chain::resources::{CollectBlocks, ResourcesBuilder};
use std::alloc::{AllocError, Allocator, Global};
use std::fmt;
use std::marker::Model;

/// A builder that collects blocks of AS numbers, in any order, for a set of their numbers.
///
/// The model of a builder is the list of the blocks' least and greatest numbers, in the order in which they were added.
#[derive(Drop)]
pub struct AsBlocksBuilder<A: Allocator = Global> {
    blocks: BlockSetBuilder<AsBlock, A>,
}

impl<A: Allocator> Model for AsBlocksBuilder<A> {
    ghost use Rattle.std.specs.Prelude.{ℕ, List};

    ghost Value = { List (ℕ × ℕ) };

    ghost view = { λ b. b.blocks };
}

impl<A: Allocator> AsBlocksBuilder<A> {
    /// Returns a builder without blocks. It keeps `alloc` for its later allocations.
    pub fn new(alloc: A) -> AsBlocksBuilder<A>
        ensures { result ≡ [] }
    {
        AsBlocksBuilder {
            blocks: BlockSetBuilder::new(alloc),
        }
    }

    /// Adds a block.
    ///
    /// # Errors
    ///
    /// [`AllocError`]: out of memory. The builder is unchanged then.
    pub fn push(&mut self, block: AsBlock) -> Result<(), AllocError>
        ensures ok { OnOk result (self.new ≡ self.old ++ as_bounds block ∷ []) }
        ensures err { OnErr result (self.new ≡ self.old) }
    {
        self.blocks.push(block)
    }

    /// Adds several blocks, in order.
    ///
    /// # Errors
    ///
    /// [`AllocError`]: out of memory. The builder is unchanged then.
    pub fn extend_from(&mut self, blocks: &[AsBlock]) -> Result<(), AllocError>
        ensures ok { OnOk result (self.new ≡ self.old ++ map as_bounds blocks.now) }
        ensures err { OnErr result (self.new ≡ self.old) }
    {
        self.blocks.extend_from(blocks)
    }

    /// Returns the set of the numbers that at least one block has.
    ///
    /// # Errors
    ///
    /// [`AllocError`]: out of memory.
    pub fn finalize(self) -> Result<AsBlocks<A>, AllocError>
    where
        A: Copy,
        ensures { IfOk result (IsRunsOf (Holds self)) }
    {
        let set = self.blocks.finalize()?;
        Ok(AsBlocks::from_set(set))
    }
}

impl<A: Allocator> fmt::Debug for AsBlocksBuilder<A> {
    fn fmt<W: fmt::Write>(&self, f: &mut fmt::Formatter<W>) -> fmt::Result {
        f.debug_struct("AsBlocksBuilder").finish_non_exhaustive()
    }
}

impl<A: Allocator + Copy> CollectBlocks for AsBlocksBuilder<A> {
    type Memory = A;

    type Resources = AsResources<A>;

    ghost blocks = { λ blocks. blocks };

    ghost claim = { λ claim. claim };

    fn start(alloc: A) -> AsBlocksBuilder<A> {
        AsBlocksBuilder::new(alloc)
    }

    fn finish(self) -> Result<AsResources<A>, AllocError> {
        let blocks = self.finalize()?;
        Ok(AsResources::blocks(blocks))
    }

    fn inherited() -> AsResources<A> {
        AsResources::inherit()
    }
}

/// A builder of AS resources: inherited ones, or a list to which a function adds blocks of AS numbers.
pub type AsResourcesBuilder<A = Global> = ResourcesBuilder<AsBlocksBuilder<A>>;
