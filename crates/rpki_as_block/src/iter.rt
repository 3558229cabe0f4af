//! The iterator over the AS numbers of a block, ascending. It allocates nothing.
ghost use Rattle.std.specs.Prelude.{◌≡◌, []};
ghost use Rattle.std.specs.Iterator.{YieldsFirst, item_count};

use crate::range::AsRange;
use rpki_base::asn::Asn;
use rpki_block::block::Block;
use std::marker::Model;

/// An iterator over the numbers of a block, ascending. Its model is the list of the numbers that are left.
#[derive(Debug, Drop)]
pub struct AsBlockIter {
    left: Option<AsRange>,
}

impl Model for AsBlockIter {
    ghost use Rattle.std.specs.Prelude.{ℕ, List};
    ghost use Rattle.rpki_as_block.specs.Numbers.{numbers_left};

    ghost Value = { List ℕ };

    ghost view = { λ i. numbers_left i.left };
}

impl AsBlockIter {
    ghost use Rattle.rpki_block.specs.Ranges.{range_bounds};
    ghost use Rattle.rpki_as_block.specs.Numbers.{numbers_within};

    /// Returns an iterator over the numbers of a range.
    pub fn over(range: AsRange) -> AsBlockIter
        ensures { result ≡ numbers_within (range_bounds range) }
    {
        AsBlockIter { left: Some(range) }
    }

    /// Returns an iterator over no numbers.
    pub fn none() -> AsBlockIter
        ensures { result ≡ [] }
    {
        AsBlockIter { left: None }
    }
}

impl Iterator for AsBlockIter {
    type Item = Asn;

    ghost next_gives = { YieldsFirst (λ numbers. numbers) };

    ghost remaining = { item_count (λ numbers. numbers) };

    #[tactic(auto, using(crate::proofs::IntervalNumberLemmas::makes_progress, crate::proofs::IntervalNumberLemmas::numbers_first, crate::proofs::IntervalNumberLemmas::numbers_single))]
    fn next(&mut self) -> Option<Asn> {
        let range = self.left.take()?;
        let (min, max) = range.bounds();
        if min < max {
            self.left = Some(AsRange::new(min.add(1), max));
        }
        Some(min)
    }
}
