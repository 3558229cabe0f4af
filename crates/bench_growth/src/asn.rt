//! Sets of AS numbers.
use crate::measure::Set;
use rpki_as::block::AsBlock;
use rpki_as::blocks::AsBlocks;
use rpki_as::range::AsRange;
use rpki_as::resources::AsResources;
use rpki_base::asn::Asn;
use rpki_base::memory::OrMemory;
use rpki_chain::path::Step;
use rpki_der::sequences::encode_sequence;
use rpki_der::{Cursor, DerError};
use std::alloc::{AllocError, Global};
use std::io;

impl Set for AsBlocks {
    type Block = AsBlock;

    type Claim = AsResources;

    /// Returns a single number, or a range of four.
    fn block(at: u32, is_other: bool, is_single: bool) -> Option<AsBlock> {
        let offset = if is_other { 2 } else { 0 };
        let min = u32::checked_mul(at, 8)?.checked_add(offset)?;
        from_min(min, if is_single { 0 } else { 3 })
    }

    /// Returns a block of `length + 1` numbers.
    fn block_on_path(at: u32, length: u32, _is_single: bool) -> Option<AsBlock> {
        from_min(u32::checked_mul(at, 16)?, length)
    }

    fn from_blocks(alloc: Global, blocks: &[AsBlock]) -> Result<AsBlocks, AllocError> {
        AsBlocks::from_blocks(alloc, blocks)
    }

    fn union(&self, alloc: Global, other: &AsBlocks) -> Result<AsBlocks, AllocError> {
        AsBlocks::union(self, alloc, other)
    }

    fn intersection(&self, alloc: Global, other: &AsBlocks) -> Result<AsBlocks, AllocError> {
        AsBlocks::intersection(self, alloc, other)
    }

    fn difference(&self, alloc: Global, other: &AsBlocks) -> Result<AsBlocks, AllocError> {
        AsBlocks::difference(self, alloc, other)
    }

    fn contains(&self, other: &AsBlocks) -> bool {
        AsBlocks::contains(self, other)
    }

    fn count(&self) -> usize {
        self.iter().len()
    }

    fn differing(&self, other: &AsBlocks) -> usize {
        self.iter()
            .zip(other.iter())
            .filter(|(one, other)| one != other)
            .count()
    }

    fn claim(self) -> AsResources {
        AsResources::blocks(self)
    }

    fn verify_path(&self, alloc: Global, steps: &[Step<AsResources>]) -> io::Result<AsBlocks> {
        match AsBlocks::verify_path(self, alloc, steps) {
            Ok(left) => Ok(left),
            Err(_) => Err(io::ErrorKind::InvalidData.into()),
        }
    }

    fn octets(alloc: Global, blocks: &[AsBlock]) -> Result<Vec<u8>, AllocError> {
        let mut octets = Vec::new(alloc);
        encode_sequence(blocks, &mut octets)?;
        Ok(octets)
    }

    fn take(alloc: Global, cursor: &mut Cursor<'_>) -> Result<AsBlocks, OrMemory<DerError>> {
        AsBlocks::take_from(alloc, cursor)
    }

    fn append(&self, octets: &mut Vec<u8>) -> Result<(), AllocError> {
        self.encode(octets)
    }
}

/// Returns the block from a number to the one that is `length` above.
fn from_min(min: u32, length: u32) -> Option<AsBlock> {
    let max = u32::checked_add(min, length)?;
    let range = AsRange::new(Asn::from_u32(min), Asn::from_u32(max));
    let single = AsBlock::Id(Asn::from_u32(min));
    Some(if length == 0 {
        single
    } else {
        AsBlock::Range(range)
    })
}
