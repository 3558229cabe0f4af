//! Iterators over the blocks of a set of one family. They allocate nothing.
ghost use Rattle.std.specs.Prelude.{◌≡◌, ℕ, All, map};
ghost use Rattle.std.specs.Iterator.{YieldsFirst, item_count};
ghost use Rattle.std.specs.Slice.Iter.{iter_rest};
ghost use Rattle.rpki_ip_block.specs.Blocks.{ip_bounds};
ghost use Rattle.rpki_ip_block.specs.declared.block.IpBlock.{IpBlock};

use rpki_ipres::block::IpBlock;
use std::fmt;
use std::marker::{Model, PhantomData};
use std::slice::Iter;

/// A block of one family that an iterator makes from a block of addresses of 128 bits.
pub trait BlockOfSet: Copy {
    // The block of the family for a block of addresses.
    ghost of: { IpBlock → Self };

    // The precondition on the bounds of a block of the family.
    ghost fits: { ℕ × ℕ → Type 0 };

    /// Returns the block of the family for a block of addresses.
    ///
    /// # Preconditions
    ///
    /// The block consists of addresses of the family.
    fn from_block(ip: IpBlock) -> Self
        requires { fits (ip_bounds ip) }
        ensures { result ≡ of ip };
}

/// An iterator over the blocks of a set of one family, ascending.
///
/// In contracts its value is the list of the blocks that are left.
#[derive(Drop)]
pub struct BlockIter<'a, B: BlockOfSet> {
    left: Iter<'a, IpBlock>,
    family: PhantomData<B>,
}

impl<'a, B: BlockOfSet> Model for BlockIter<'a, B> {
    ghost use Rattle.std.specs.Prelude.{List, All, map};
    ghost use Rattle.std.specs.Slice.Iter.{iter_rest};
    ghost use Rattle.rpki_ip_block.specs.Blocks.{ip_bounds};

    ghost Value = { List B };

    ghost view = { λ i. map B.of (iter_rest i.left) };

    ghost invariant = { λ i. All (λ block. B.fits (ip_bounds block)) (iter_rest i.left) };
}

impl<'a, B: BlockOfSet> BlockIter<'a, B> {
    /// Returns an iterator over the blocks of a set of the family.
    pub(crate) fn over(blocks: Iter<'a, IpBlock>) -> BlockIter<'a, B>
        requires { All (λ block. B.fits (ip_bounds block)) (iter_rest blocks) }
        ensures { result ≡ map B.of (iter_rest blocks.entry) }
    {
        BlockIter {
            left: blocks,
            family: PhantomData,
        }
    }
}

impl<B: BlockOfSet> fmt::Debug for BlockIter<'_, B> {
    fn fmt<W: fmt::Write>(&self, f: &mut fmt::Formatter<W>) -> fmt::Result {
        f.debug_tuple("BlockIter").field(&self.left).finish()
    }
}

impl<B: BlockOfSet> Iterator for BlockIter<'_, B> {
    type Item = B;

    ghost next_gives = { YieldsFirst (λ blocks. blocks) };

    ghost remaining = { item_count (λ blocks. blocks) };

    fn next(&mut self) -> Option<B> {
        let block = self.left.next()?;
        Some(B::from_block(*block))
    }
}
