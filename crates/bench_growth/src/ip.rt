//! Sets of addresses.
use crate::measure::Set;
use rpki_base::memory::OrMemory;
use rpki_chain::path::Step;
use rpki_der::sequences::encode_sequence;
use rpki_der::{Cursor, DerError};
use rpki_ip::addr::Addr;
use rpki_ip::prefix::Prefix;
use rpki_ip::range::AddressRange;
use rpki_ipres::block::IpBlock;
use rpki_ipres::blocks::IpBlocks;
use rpki_ipres::resources::IpResources;
use std::alloc::{AllocError, Global};
use std::io;

impl Set for IpBlocks {
    type Block = IpBlock;

    type Claim = IpResources;

    /// Returns a prefix, or a range of three addresses. Every second prefix of the first set contains a block of the
    /// other one.
    fn block(at: u32, is_other: bool, is_single: bool) -> Option<IpBlock> {
        let offset = if is_other { 1 << 32 } else { 0 };
        let min = u128::checked_mul(u128::from(at), 1 << 64)?.checked_add(offset)?;
        let length = if is_other || at.checked_rem(2) == Some(0) {
            112
        } else {
            80
        };
        from_min(min, 2, if is_single { Some(length) } else { None })
    }

    /// Returns a prefix of `56 - length` bits, or a range of `length + 1` addresses. No range is that of a prefix,
    /// because its first address is odd.
    fn block_on_path(at: u32, length: u32, is_single: bool) -> Option<IpBlock> {
        let base = if is_single { 1 << 125 } else { (1 << 125) | 1 };
        let min = u128::checked_mul(u128::from(at), 1 << 88)?.checked_add(base)?;
        let bits = u8::try_from(u32::checked_sub(56, length)?).ok()?;
        from_min(min, length, if is_single { Some(bits) } else { None })
    }

    fn from_blocks(alloc: Global, blocks: &[IpBlock]) -> Result<IpBlocks, AllocError> {
        IpBlocks::from_blocks(alloc, blocks)
    }

    fn union(&self, alloc: Global, other: &IpBlocks) -> Result<IpBlocks, AllocError> {
        IpBlocks::union(self, alloc, other)
    }

    fn intersection(&self, alloc: Global, other: &IpBlocks) -> Result<IpBlocks, AllocError> {
        IpBlocks::intersection(self, alloc, other)
    }

    fn difference(&self, alloc: Global, other: &IpBlocks) -> Result<IpBlocks, AllocError> {
        IpBlocks::difference(self, alloc, other)
    }

    fn contains(&self, other: &IpBlocks) -> bool {
        IpBlocks::contains(self, other)
    }

    fn count(&self) -> usize {
        self.iter().len()
    }

    fn differing(&self, other: &IpBlocks) -> usize {
        self.iter()
            .zip(other.iter())
            .filter(|(one, other)| one != other)
            .count()
    }

    fn claim(self) -> IpResources {
        IpResources::blocks(self)
    }

    fn verify_path(&self, alloc: Global, steps: &[Step<IpResources>]) -> io::Result<IpBlocks> {
        match IpBlocks::verify_path(self, alloc, steps) {
            Ok(left) => Ok(left),
            Err(_) => Err(io::ErrorKind::InvalidData.into()),
        }
    }

    fn octets(alloc: Global, blocks: &[IpBlock]) -> Result<Vec<u8>, AllocError> {
        let mut octets = Vec::new(alloc);
        encode_sequence(blocks, &mut octets)?;
        Ok(octets)
    }

    fn take(alloc: Global, cursor: &mut Cursor<'_>) -> Result<IpBlocks, OrMemory<DerError>> {
        IpBlocks::take_from(alloc, cursor)
    }

    fn append(&self, octets: &mut Vec<u8>) -> Result<(), AllocError> {
        self.encode(octets)
    }
}

/// Returns the prefix that begins at an address, or the range from there to the address that is `length` above.
fn from_min(min: u128, length: u32, bits: Option<u8>) -> Option<IpBlock> {
    let first = Addr::from_bits(min);
    match bits {
        Some(bits) if bits <= 128 => Some(IpBlock::Prefix(Prefix::new(first, bits))),
        _ => {
            let last = Addr::from_bits(u128::checked_add(min, u128::from(length))?);
            Some(IpBlock::Range(AddressRange::new(first, last)))
        }
    }
}
