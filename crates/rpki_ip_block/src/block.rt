//! Blocks of addresses.
use rpki_block::block::Block;
use rpki_ip::addr::Addr;
use rpki_ip::prefix::Prefix;
use rpki_ip::range::AddressRange;
use rpki_prefix::prefix::Prefix as FamilyPrefix;

/// The addresses of a prefix or of a range (RFC 3779, 2.2.3.7).
#[derive(Clone, Copy, Debug)]
pub enum IpBlock {
    /// The addresses of a prefix.
    Prefix(Prefix),
    /// The addresses of a range, which may be those of a prefix.
    Range(AddressRange),
}

impl IpBlock {
    ghost use Rattle.std.specs.Prelude.{◌≡◌, ◌≤◌, ◌↔◌, IsTrue};
    ghost use Rattle.rpki_cover.specs.Prefixes.{PrefixValue, IsPrefix};
    ghost use Rattle.rpki_ip.specs.Whole.{HasWholeBounds};
    ghost use Rattle.rpki_ip_block.specs.Blocks.{prefix_bounds, ip_bounds, new_ip_block};
    ghost use Rattle.rpki_ip_block.specs.PrintedBlocks.{IsBlock};

    /// Returns the block of all addresses: the prefix of length 0.
    pub fn all() -> IpBlock
        ensures { result ≡ IpBlock.Prefix (record { first = 0; len = 0 }) }
    {
        IpBlock::Prefix(Prefix::all())
    }

    /// Returns the block from the first address of the pair to the second.
    ///
    /// The block is a Prefix if a prefix has exactly these addresses, and otherwise a Range.
    ///
    /// # Preconditions
    ///
    /// The first address isn't above the second.
    pub fn from_pair(pair: (Addr, Addr)) -> IpBlock
        requires { pair.0 ≤ pair.1 }
        ensures bounds { ip_bounds result ≡ pair }
        ensures value { result ≡ new_ip_block pair }
        ensures prefix { (p : PrefixValue) → IsPrefix 128 p → prefix_bounds p ≡ pair
            → result ≡ IpBlock.Prefix p }
    {
        match AddressRange::from_pair(pair).into_prefix() {
            Ok(prefix) => IpBlock::Prefix(prefix),
            Err(range) => IpBlock::Range(range),
        }
    }

    /// Returns whether the block is the Prefix of length 0. The result for a Range of all addresses is false.
    pub fn is_slash_zero(&self) -> bool
        ensures { IsTrue result ↔ (self.now ≡ IpBlock.Prefix (record { first = 0; len = 0 })) }
    {
        match self {
            IpBlock::Prefix(prefix) => prefix.addr_len() == 0,
            IpBlock::Range(_) => false,
        }
    }

    /// Returns the least address.
    pub fn min(&self) -> Addr
        ensures value { result ≡ (ip_bounds self.now).0 }
        ensures in_order { (ip_bounds self.now).0 ≤ (ip_bounds self.now).1 }
    {
        match self {
            IpBlock::Prefix(prefix) => prefix.min(),
            IpBlock::Range(range) => AddressRange::min(range),
        }
    }

    /// Returns the greatest address.
    pub fn max(&self) -> Addr
        ensures value { result ≡ (ip_bounds self.now).1 }
        ensures in_order { (ip_bounds self.now).0 ≤ (ip_bounds self.now).1 }
        ensures block { IsBlock self.now }
    {
        match self {
            IpBlock::Prefix(prefix) => prefix.max(),
            IpBlock::Range(range) => Block::max(range),
        }
    }

    /// Returns whether the block consists of whole IPv4 addresses.
    pub fn is_whole_v4(&self) -> bool
        ensures { IsTrue result ↔ HasWholeBounds (ip_bounds self.now) }
    {
        AddressRange::new(IpBlock::min(self), IpBlock::max(self)).is_whole_v4()
    }
}

/// A block of given bounds is a Prefix if its addresses are those of a prefix, and otherwise a Range.
impl Block for IpBlock {
    ghost use Rattle.std.specs.Prelude.{refl};
    ghost use Rattle.rpki_ip_block.specs.Blocks.{ip_bounds, new_ip_block};
    ghost use Rattle.rpki_ip_block.specs.BlockFormLaws.{new_ip_block_bounds};

    type Item = Addr;

    ghost first = { 0 };

    ghost last = { 340282366920938463463374607431768211455 };

    ghost number = { λ n. n };

    ghost item_at = { λ n. n };

    ghost bounds = { ip_bounds };

    ghost form = { new_ip_block };

    ghost in_order = { λ x y. refl };

    ghost no_gaps = { λ n low high. refl };

    ghost one_item = { λ x y same. same };

    ghost form_bounds = { λ b from ordered to. new_ip_block_bounds b };

    fn new(min: Addr, max: Addr) -> IpBlock {
        IpBlock::from_pair((min, max))
    }

    fn min(&self) -> Addr {
        IpBlock::min(self)
    }

    fn max(&self) -> Addr {
        IpBlock::max(self)
    }

    fn next(item: Addr) -> Option<Addr> {
        <AddressRange as Block>::next(item)
    }

    fn previous(item: Addr) -> Option<Addr> {
        <AddressRange as Block>::previous(item)
    }

    fn bounds(&self) -> (Addr, Addr) {
        match self {
            IpBlock::Prefix(prefix) => prefix.range(),
            IpBlock::Range(range) => range.bounds(),
        }
    }
}

/// Blocks are equal if and only if their bounds are equal. A Prefix and a Range can be equal.
impl PartialEq for IpBlock {
    ghost use Rattle.std.specs.Prelude.{◌≡◌, ◌↔◌, IsTrue};
    ghost use Rattle.rpki_ip_block.specs.Blocks.{ip_bounds};
    ghost use Rattle.rpki_block.specs.Equality.{have_same_bounds};
    ghost use Rattle.rpki_block.specs.EqualityLaws.{blocks_per};

    ghost eq = { have_same_bounds ip_bounds };

    ghost laws = { blocks_per ip_bounds };

    fn eq(&self, other: &IpBlock) -> bool
        ensures value { result ≡ have_same_bounds ip_bounds self.now other.now }
        ensures same_bounds { IsTrue result ↔ (ip_bounds self.now ≡ ip_bounds other.now) }
    {
        IpBlock::min(self) == IpBlock::min(other) && IpBlock::max(self) == IpBlock::max(other)
    }
}

impl Eq for IpBlock {
    ghost use Rattle.rpki_block.specs.EqualityLaws.{blocks_equiv};
    ghost use Rattle.rpki_ip_block.specs.Blocks.{ip_bounds};

    ghost laws = { blocks_equiv ip_bounds };
}

impl From<Prefix> for IpBlock {
    ghost use Rattle.std.specs.Prelude.{◌≡◌};
    ghost use Rattle.rpki_ip_block.specs.declared.block.IpBlock.TheVariants.{Prefix};

    ghost from_gives = { λ prefix block. block ≡ Prefix prefix };

    fn from(prefix: Prefix) -> IpBlock {
        IpBlock::Prefix(prefix)
    }
}

/// Returns the block of the prefix's addresses as numbers of 128 bits. The 32 bits of an IPv4 address may be followed
/// by any 96 bits.
impl From<FamilyPrefix> for IpBlock {
    ghost use Rattle.std.specs.Prelude.{◌≡◌};
    ghost use Rattle.rpki_ip.specs.AddrText.{first_of};
    ghost use Rattle.rpki_ip_block.specs.declared.block.IpBlock.TheVariants.{Prefix};

    ghost from_gives = { λ prefix block. block
        ≡ Prefix (record { first = first_of prefix.addr; len = prefix.len }) };

    #[tactic(auto, using(crate::proofs::BlockFormLemmas::family_prefix))]
    fn from(prefix: FamilyPrefix) -> IpBlock {
        IpBlock::Prefix(Prefix::new(Addr::from(prefix.addr()), prefix.len()))
    }
}

impl From<AddressRange> for IpBlock {
    ghost use Rattle.std.specs.Prelude.{◌≡◌};
    ghost use Rattle.rpki_ip_block.specs.declared.block.IpBlock.TheVariants.{Range};

    ghost from_gives = { λ range block. block ≡ Range range };

    fn from(range: AddressRange) -> IpBlock {
        IpBlock::Range(range)
    }
}
