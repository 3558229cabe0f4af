//! Ranges of AS numbers.
ghost use Rattle.std.specs.Prelude.{◌≡◌, ◌≤◌};

use rpki_base::asn::Asn;
use rpki_base::asn::print::fmt_asn_range;
use rpki_block::block::Block;
use std::fmt;
use std::marker::Model;

/// The AS numbers from a least one to a greatest one, which may be the same (RFC 3779, 3.2.3.8).
#[derive(Clone, Copy, Debug, PartialEq, Eq)]
pub struct AsRange {
    min: Asn,
    max: Asn,
}

impl Model for AsRange {
    ghost use Rattle.std.specs.Prelude.{◌≤◌};
    ghost use Rattle.rpki_block.specs.Ranges.{RangeValue};

    ghost Value = { RangeValue };

    ghost view = { λ r. record { min = r.min; max = r.max } };

    ghost invariant = { λ r. r.min ≤ r.max };

    ghost inverse = { λ r. record { min = r.min; max = r.max } };
}

impl AsRange {
    ghost use Rattle.std.specs.Prelude.{◌+◌};
    ghost use Rattle.rpki_block.specs.Bounds.{IsWithin};
    ghost use Rattle.rpki_block.specs.Ranges.{range_bounds};
    ghost use Rattle.rpki_as_block.specs.Numbers.{IsSizeOf};

    /// Returns the range from `min` to `max`.
    ///
    /// # Preconditions
    ///
    /// `max` is not below `min`.
    pub fn new(min: Asn, max: Asn) -> AsRange
        requires { min ≤ max }
        ensures { result ≡ record { min = min; max = max } }
    {
        AsRange { min, max }
    }

    /// Returns the range of all AS numbers, 0 to 4294967295.
    pub fn all() -> AsRange
        ensures { result ≡ record { min = 0; max = 4294967295 } }
    {
        AsRange::new(Asn::MIN, Asn::MAX)
    }

    /// Returns the least number.
    pub fn min(self) -> Asn
        ensures value { result ≡ self.min }
        ensures in_order { self.min ≤ self.max }
    {
        self.min
    }

    /// Returns the greatest number.
    pub fn max(self) -> Asn
        ensures value { result ≡ self.max }
        ensures in_order { self.min ≤ self.max }
    {
        self.max
    }

    /// Returns references to the least and to the greatest number.
    pub(crate) fn as_bounds(&self) -> (&Asn, &Asn)
        ensures min { result.0.now ≡ self.now.min }
        ensures max { result.1.now ≡ self.now.max }
        ensures in_order { self.now.min ≤ self.now.max }
    {
        (&self.min, &self.max)
    }

    /// Returns the count of the range's numbers, 1 to 2^32.
    #[tactic(auto, using(crate::proofs::IntervalNumberLemmas::interval_size))]
    pub fn asn_count(self) -> u64
        ensures from_bounds { result + self.min ≡ self.max + 1 }
        ensures size { IsSizeOf (IsWithin (range_bounds self)) result }
    {
        u64::from(self.max.into_u32()) - u64::from(self.min.into_u32()) + 1
    }
}

/// Defines the form of `new`, which is the only form of a range.
impl Block for AsRange {
    ghost use Rattle.std.specs.Prelude.{refl};
    ghost use Rattle.rpki_block.specs.Ranges.{range_bounds, new_range};

    type Item = Asn;

    ghost first = { 0 };

    ghost last = { 4294967295 };

    ghost number = { λ n. n };

    ghost item_at = { λ n. n };

    ghost bounds = { range_bounds };

    ghost form = { new_range };

    ghost in_order = { λ x y. refl };

    ghost no_gaps = { λ n low high. refl };

    ghost one_item = { λ x y same. same };

    ghost form_bounds = { λ b from ordered to. refl };

    fn new(min: Asn, max: Asn) -> AsRange {
        AsRange { min, max }
    }

    fn min(&self) -> Asn {
        self.min
    }

    fn max(&self) -> Asn {
        let max = self.max;
        max.recall_invariant();
        max
    }

    fn next(item: Asn) -> Option<Asn> {
        item.into_u32().checked_add(1).map(Asn::from_u32)
    }

    fn previous(item: Asn) -> Option<Asn> {
        item.into_u32().checked_sub(1).map(Asn::from_u32)
    }

    fn bounds(&self) -> (Asn, Asn) {
        self.max.recall_invariant();
        (self.min, self.max)
    }
}

/// Prints both numbers, even if they are the same, as in `AS3-AS5`.
impl fmt::Display for AsRange {
    ghost use Rattle.std.specs.Prelude.{Some};
    ghost use Rattle.rpki_as_block.specs.BlockText.{as_range_text};

    ghost output = { λ r. Some (as_range_text r) };

    fn fmt<W: fmt::Write>(&self, f: &mut fmt::Formatter<W>) -> fmt::Result {
        fmt_asn_range(self.min, self.max, f)
    }
}
