//! A kind of block of its own: pairs of `u64`, the smaller or equal one first.
use rpki_chain::block::Block;
use std::fmt;
use std::marker::Model;
use std::str::FromStr;

/// All numbers from `min` to `max`.
#[derive(Drop)]
pub struct Pair {
    min: u64,
    max: u64,
}

impl Model for Pair {
    ghost use Rattle.std.specs.Prelude.{◌≤◌};
    ghost use Rattle.rpki_block.specs.Ranges.{RangeValue};

    ghost Value = { RangeValue };

    ghost view = { λ p. record { min = p.min; max = p.max } };

    ghost invariant = { λ p. p.min ≤ p.max };

    ghost inverse = { λ p. record { min = p.min; max = p.max } };
}

impl Block for Pair {
    ghost use Rattle.std.specs.Prelude.{refl};
    ghost use Rattle.rpki_block.specs.Ranges.{range_bounds, new_range};

    type Item = u64;

    ghost first = { 0 };

    ghost last = { 18446744073709551615 };

    ghost number = { λ n. n };

    ghost item_at = { λ n. n };

    ghost bounds = { range_bounds };

    ghost form = { new_range };

    ghost in_order = { λ x y. refl };

    ghost no_gaps = { λ n low high. refl };

    ghost one_item = { λ x y same. same };

    ghost form_bounds = { λ b from ordered to. refl };

    fn new(min: u64, max: u64) -> Self {
        Pair { min, max }
    }

    fn min(&self) -> u64 {
        self.min
    }

    fn max(&self) -> u64 {
        self.max
    }

    fn next(item: u64) -> Option<u64> {
        item.checked_add(1)
    }

    fn previous(item: u64) -> Option<u64> {
        item.checked_sub(1)
    }
}

/// The error for a text that is neither a number nor two numbers in order with a dash between them.
#[derive(Clone, Copy, Drop)]
pub struct ParsePairError;

impl fmt::Display for ParsePairError {
    fn fmt<W: fmt::Write>(&self, f: &mut fmt::Formatter<W>) -> fmt::Result {
        f.write_str("no pair of numbers")
    }
}

impl FromStr for Pair {
    type Err = ParsePairError;

    fn from_str(text: &str) -> Result<Pair, ParsePairError> {
        let (min, max) = text.split_once('-').unwrap_or((text, text));
        match (u64::from_str(min), u64::from_str(max)) {
            (Ok(min), Ok(max)) if min <= max => Ok(Pair { min, max }),
            _ => Err(ParsePairError),
        }
    }
}

impl fmt::Display for Pair {
    fn fmt<W: fmt::Write>(&self, f: &mut fmt::Formatter<W>) -> fmt::Result {
        write!(f, "{}-{}", self.min, self.max)
    }
}
