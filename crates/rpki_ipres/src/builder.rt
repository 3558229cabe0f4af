//! Builders of sets of addresses.
ghost use Rattle.std.specs.Prelude.{◌≡◌, ◌++◌, [], ◌∷◌, IfOk, OnOk, OnErr, map};
ghost use Rattle.rpki_chain.specs.Runs.{Holds, IsRunsOf};
ghost use Rattle.rpki_ip_block.specs.Blocks.{ip_bounds};

use crate::blocks::IpBlocks;
use crate::resources::IpResources;
use rpki_chain::builder::BlockSetBuilder;
use rpki_chain::resources::{CollectBlocks, ResourcesBuilder};
use rpki_ip_block::block::IpBlock;
use std::alloc::{AllocError, Allocator, Global};
use std::fmt;
use std::marker::Model;

/// A collection of blocks of addresses, in any order, of which a set is made. It stores the allocator that `new` gets.
///
/// In contracts its value is the list of the blocks' least and greatest addresses, in the order in which they were
/// added.
#[derive(Drop)]
pub struct IpBlocksBuilder<A: Allocator = Global> {
    blocks: BlockSetBuilder<IpBlock, A>,
}

impl<A: Allocator> Model for IpBlocksBuilder<A> {
    ghost use Rattle.std.specs.Prelude.{ℕ, List};

    ghost Value = { List (ℕ × ℕ) };

    ghost view = { λ b. b.blocks };
}

impl<A: Allocator> IpBlocksBuilder<A> {
    /// Returns a builder without blocks.
    pub fn new(alloc: A) -> IpBlocksBuilder<A>
        ensures { result ≡ [] }
    {
        IpBlocksBuilder {
            blocks: BlockSetBuilder::new(alloc),
        }
    }

    /// Adds a block. It may overlap the blocks before it.
    ///
    /// # Errors
    ///
    /// [`AllocError`] if an allocation fails. The builder's blocks are unchanged then.
    pub fn push(&mut self, block: IpBlock) -> Result<(), AllocError>
        ensures ok { OnOk result (self.new ≡ self.old ++ ip_bounds block ∷ []) }
        ensures err { OnErr result (self.new ≡ self.old) }
    {
        self.blocks.push(block)
    }

    /// Adds several blocks, in any order.
    ///
    /// # Errors
    ///
    /// [`AllocError`] if an allocation fails. The builder's blocks are unchanged then.
    pub fn extend_from(&mut self, blocks: &[IpBlock]) -> Result<(), AllocError>
        ensures ok { OnOk result (self.new ≡ self.old ++ map ip_bounds blocks.now) }
        ensures err { OnErr result (self.new ≡ self.old) }
    {
        self.blocks.extend_from(blocks)
    }

    /// Returns the set of the addresses that are in at least one of the blocks.
    ///
    /// # Errors
    ///
    /// [`AllocError`] if an allocation fails.
    pub fn finalize(self) -> Result<IpBlocks<A>, AllocError>
    where
        A: Copy,
        ensures { IfOk result (IsRunsOf (Holds self)) }
    {
        let set = self.blocks.finalize()?;
        Ok(IpBlocks::from_set(set))
    }
}

/// A builder of resources of addresses: inherited resources, or a list of blocks, which is empty at first.
///
/// In contracts its value is the list of the blocks' least and greatest addresses, in the order in which they were
/// added. For inherited resources its value is None.
pub type IpResourcesBuilder<A = Global> = ResourcesBuilder<IpBlocksBuilder<A>>;

impl<A: Allocator + Copy> CollectBlocks for IpBlocksBuilder<A> {
    type Memory = A;

    type Resources = IpResources<A>;

    ghost blocks = { λ b. b };

    ghost claim = { λ r. r };

    fn start(alloc: A) -> IpBlocksBuilder<A> {
        IpBlocksBuilder::new(alloc)
    }

    fn finish(self) -> Result<IpResources<A>, AllocError> {
        let blocks = self.finalize()?;
        Ok(IpResources::blocks(blocks))
    }

    fn inherited() -> IpResources<A> {
        IpResources::inherit()
    }
}

impl<A: Allocator> fmt::Debug for IpBlocksBuilder<A> {
    fn fmt<W: fmt::Write>(&self, f: &mut fmt::Formatter<W>) -> fmt::Result {
        f.debug_struct("IpBlocksBuilder").finish_non_exhaustive()
    }
}
