//! Blocks of AS numbers.
use crate::iter::AsBlockIter;
use crate::range::AsRange;
use rpki_base::asn::Asn;
use rpki_block::block::Block;

/// A block of AS numbers: one number, or the numbers of a range (RFC 3779, 3.2.3.5).
#[derive(Clone, Copy, Debug)]
pub enum AsBlock {
    /// One number.
    Id(Asn),
    /// The numbers of a range, which may have only one number.
    Range(AsRange),
}

impl AsBlock {
    ghost use Rattle.std.specs.Prelude.{◌≡◌, ◌+◌, ◌≤◌, ◌↔◌, IsTrue};
    ghost use Rattle.rpki_block.specs.Bounds.{IsWithin};
    ghost use Rattle.rpki_as_block.specs.Blocks.{as_bounds, new_as_block};
    ghost use Rattle.rpki_as_block.specs.Numbers.{IsListOf, IsSizeOf, numbers_within};

    /// Returns the block of all AS numbers, 0 to 4294967295.
    pub fn all() -> AsBlock
        ensures bounds { as_bounds result ≡ (0, 4294967295) }
        ensures value { result ≡ new_as_block (0, 4294967295) }
    {
        AsBlock::Range(AsRange::all())
    }

    /// Returns the range from the first number of `pair` to the second. It is a Range even if both are the same.
    ///
    /// # Preconditions
    ///
    /// The second number is not below the first.
    pub fn from_pair(pair: (Asn, Asn)) -> AsBlock
        requires { pair.0 ≤ pair.1 }
        ensures { result ≡ AsBlock.Range (record { min = pair.0; max = pair.1 }) }
    {
        AsBlock::Range(AsRange::new(pair.0, pair.1))
    }

    /// Returns the least number.
    pub fn min(&self) -> Asn
        ensures value { result ≡ (as_bounds self.now).0 }
        ensures in_order { (as_bounds self.now).0 ≤ (as_bounds self.now).1 }
    {
        match self {
            AsBlock::Id(asn) => *asn,
            AsBlock::Range(range) => AsRange::min(*range),
        }
    }

    /// Returns the greatest number.
    pub fn max(&self) -> Asn
        ensures value { result ≡ (as_bounds self.now).1 }
        ensures in_order { (as_bounds self.now).0 ≤ (as_bounds self.now).1 }
    {
        match self {
            AsBlock::Id(asn) => *asn,
            AsBlock::Range(range) => AsRange::max(*range),
        }
    }

    /// Returns the count of the block's numbers, 1 to 2^32.
    #[tactic(auto, using(crate::proofs::IntervalNumberLemmas::interval_size))]
    pub fn asn_count(self) -> u64
        ensures from_bounds { result + (as_bounds self).0 ≡ (as_bounds self).1 + 1 }
        ensures size { IsSizeOf (IsWithin (as_bounds self)) result }
    {
        match self {
            AsBlock::Id(_) => 1,
            AsBlock::Range(range) => range.asn_count(),
        }
    }

    /// Sets the least number. The block becomes an Id if both bounds are the same, and a Range otherwise.
    ///
    /// # Preconditions
    ///
    /// `min` is at most the greatest number of the block.
    pub fn set_min(&mut self, min: Asn)
        requires { min ≤ (as_bounds self.old).1 }
        ensures bounds { as_bounds self.new ≡ (min, (as_bounds self.old).1) }
        ensures value { self.new ≡ new_as_block (min, (as_bounds self.old).1) }
    {
        *self = <AsBlock as Block>::new(min, AsBlock::max(self));
    }

    /// Sets the greatest number. The block becomes an Id if both bounds are the same, and a Range otherwise.
    ///
    /// # Preconditions
    ///
    /// `max` is at least the least number of the block.
    pub fn set_max(&mut self, max: Asn)
        requires { (as_bounds self.old).0 ≤ max }
        ensures bounds { as_bounds self.new ≡ ((as_bounds self.old).0, max) }
        ensures value { self.new ≡ new_as_block ((as_bounds self.old).0, max) }
    {
        *self = <AsBlock as Block>::new(AsBlock::min(self), max);
    }

    /// Returns whether the block has all AS numbers.
    pub fn is_whole_range(&self) -> bool
        ensures { IsTrue result ↔ (as_bounds self.now ≡ (0, 4294967295)) }
    {
        AsBlock::min(self) == Asn::MIN && AsBlock::max(self) == Asn::MAX
    }

    /// Returns an iterator over the numbers, ascending.
    pub fn iter(self) -> AsBlockIter
        ensures numbers { IsListOf (IsWithin (as_bounds self)) result }
        ensures list { result ≡ numbers_within (as_bounds self) }
        ensures in_order { (as_bounds self).0 ≤ (as_bounds self).1 }
    {
        AsBlockIter::over(AsRange::new(AsBlock::min(&self), AsBlock::max(&self)))
    }
}

/// Defines the form of `new`: an Id if both bounds are the same, and a Range otherwise.
impl Block for AsBlock {
    ghost use Rattle.std.specs.Prelude.{refl};
    ghost use Rattle.rpki_as_block.specs.Blocks.{as_bounds, new_as_block};
    ghost use Rattle.rpki_as_block.specs.BlockFormLaws.{new_as_block_bounds};

    type Item = Asn;

    ghost first = { 0 };

    ghost last = { 4294967295 };

    ghost number = { λ n. n };

    ghost item_at = { λ n. n };

    ghost bounds = { as_bounds };

    ghost form = { new_as_block };

    ghost in_order = { λ x y. refl };

    ghost no_gaps = { λ n low high. refl };

    ghost one_item = { λ x y same. same };

    ghost form_bounds = { λ b from ordered to. new_as_block_bounds b };

    fn new(min: Asn, max: Asn) -> AsBlock {
        if min == max {
            AsBlock::Id(min)
        } else {
            AsBlock::Range(AsRange::new(min, max))
        }
    }

    fn min(&self) -> Asn {
        AsBlock::min(self)
    }

    fn max(&self) -> Asn {
        let max = AsBlock::max(self);
        max.recall_invariant();
        max
    }

    fn next(item: Asn) -> Option<Asn> {
        <AsRange as Block>::next(item)
    }

    fn previous(item: Asn) -> Option<Asn> {
        <AsRange as Block>::previous(item)
    }

    fn bounds(&self) -> (Asn, Asn) {
        // A branch on the kind would follow no pattern, so the kind selects only where the bounds are read.
        let (min, max) = match self {
            AsBlock::Id(asn) => (asn, asn),
            AsBlock::Range(range) => range.as_bounds(),
        };
        max.recall_invariant();
        (*min, *max)
    }
}

/// Blocks are equal if and only if their bounds are the same. Their forms may differ.
impl PartialEq for AsBlock {
    ghost use Rattle.std.specs.Prelude.{◌≡◌, ◌↔◌, IsTrue};
    ghost use Rattle.rpki_block.specs.Equality.{have_same_bounds};
    ghost use Rattle.rpki_block.specs.EqualityLaws.{blocks_per};
    ghost use Rattle.rpki_as_block.specs.Blocks.{as_bounds};

    ghost eq = { have_same_bounds as_bounds };

    ghost laws = { blocks_per as_bounds };

    fn eq(&self, other: &AsBlock) -> bool
        ensures value { result ≡ have_same_bounds as_bounds self.now other.now }
        ensures same_bounds { IsTrue result ↔ (as_bounds self.now ≡ as_bounds other.now) }
    {
        AsBlock::min(self) == AsBlock::min(other) && AsBlock::max(self) == AsBlock::max(other)
    }
}

impl Eq for AsBlock {
    ghost use Rattle.rpki_block.specs.EqualityLaws.{blocks_equiv};
    ghost use Rattle.rpki_as_block.specs.Blocks.{as_bounds};

    ghost laws = { blocks_equiv as_bounds };
}

impl From<Asn> for AsBlock {
    ghost use Rattle.std.specs.Prelude.{◌≡◌};
    ghost use Rattle.rpki_as_block.specs.declared.block.AsBlock.TheVariants.{Id};

    ghost from_gives = { λ asn block. block ≡ Id asn };

    fn from(asn: Asn) -> AsBlock {
        AsBlock::Id(asn)
    }
}

impl From<AsRange> for AsBlock {
    ghost use Rattle.std.specs.Prelude.{◌≡◌};
    ghost use Rattle.rpki_as_block.specs.declared.block.AsBlock.TheVariants.{Range};

    ghost from_gives = { λ range block. block ≡ Range range };

    fn from(range: AsRange) -> AsBlock {
        AsBlock::Range(range)
    }
}

/// Iterates over the numbers, ascending.
impl IntoIterator for AsBlock {
    ghost use Rattle.rpki_block.specs.Bounds.{IsWithin};
    ghost use Rattle.rpki_as_block.specs.Blocks.{as_bounds};
    ghost use Rattle.rpki_as_block.specs.Numbers.{IsListOf};

    type Item = Asn;

    type IntoIter = AsBlockIter;

    ghost into_iter_gives = { λ block numbers. IsListOf (IsWithin (as_bounds block)) numbers };

    fn into_iter(self) -> AsBlockIter {
        self.iter()
    }
}
