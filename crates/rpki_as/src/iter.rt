//! Iterators over AS numbers, ascending. They allocate nothing.
ghost use Rattle.std.specs.Prelude.{◌≡◌};
ghost use Rattle.std.specs.Iterator.{YieldsFirst, item_count};

use rpki_as_block::block::AsBlock;
pub use rpki_as_block::iter::AsBlockIter;
use rpki_base::asn::Asn;
use std::marker::Model;
use std::slice::Iter;

/// An iterator over the numbers of a set, ascending. Its model is the list of the numbers that are left.
#[derive(Debug, Drop)]
pub struct AsnIter<'a> {
    current: AsBlockIter,
    later: Iter<'a, AsBlock>,
}

impl<'a> Model for AsnIter<'a> {
    ghost use Rattle.std.specs.Prelude.{ℕ, List, ◌++◌};
    ghost use Rattle.std.specs.Slice.Iter.{iter_rest};
    ghost use Rattle.rpki_as_block.specs.Numbers.{numbers_of};

    ghost Value = { List ℕ };

    ghost view = { λ i. i.current ++ numbers_of (iter_rest i.later) };
}

impl<'a> AsnIter<'a> {
    ghost use Rattle.std.specs.Slice.Iter.{iter_rest};
    ghost use Rattle.rpki_as_block.specs.Numbers.{numbers_of};

    /// Returns an iterator over the numbers of `blocks`, in their order.
    pub(crate) fn over(blocks: Iter<'a, AsBlock>) -> AsnIter<'a>
        ensures { result ≡ numbers_of (iter_rest blocks.entry) }
    {
        AsnIter {
            current: AsBlockIter::none(),
            later: blocks,
        }
    }
}

impl Iterator for AsnIter<'_> {
    type Item = Asn;

    ghost next_gives = { YieldsFirst (λ numbers. numbers) };

    ghost remaining = { item_count (λ numbers. numbers) };

    #[tactic(auto, using(crate::proofs::RunNumberLemmas::numbers_step, rpki_as_block::proofs::IntervalNumberLemmas::makes_progress))]
    fn next(&mut self) -> Option<Asn> {
        if let Some(asn) = self.current.next() {
            return Some(asn);
        }
        let Some(block) = self.later.next() else {
            return None;
        };
        self.current = block.iter();
        self.current.next()
    }
}
