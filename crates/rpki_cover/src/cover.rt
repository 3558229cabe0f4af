//! The cover list of a range of numbers, one prefix after another.
ghost use Rattle.std.specs.Prelude.{◌≡◌, ◌+◌, ◌*◌, ◌^◌, ◌<◌, ◌≤◌, [], length, MatchOption};
ghost use Rattle.std.specs.Iterator.{YieldsFirst, item_count};
ghost use Rattle.rpki_cover.specs.Covers.{IsShortestCover};
ghost use Rattle.rpki_cover.specs.Walk.{free_bits};

use std::marker::Model;

/// A prefix of numbers: a first number, and the number of its leading bits that are fixed. The other bits of the
/// first number are zero.
#[derive(Clone, Copy, Debug)]
pub struct NumberPrefix {
    first: u128,
    len: u8,
}

impl Model for NumberPrefix {
    ghost use Rattle.rpki_cover.specs.Prefixes.{PrefixValue};

    ghost Value = { PrefixValue };

    ghost view = { λ p. record { first = p.first; len = p.len } };

    ghost inverse = { λ p. record { first = p.first; len = p.len } };
}

impl NumberPrefix {
    /// Returns the first number, which is the lowest one.
    pub fn first(self) -> u128
        ensures { result ≡ self.first }
    {
        self.first
    }

    /// Returns the number of fixed leading bits.
    pub fn len(self) -> u8
        ensures { result ≡ self.len }
    {
        self.len
    }
}

/// An iterator over the cover list of a range of numbers of one width, ascending.
///
/// The cover list has exactly the maximal prefixes inside the range. Its union is the range, and no list of prefixes
/// with that union is shorter.
///
/// The model of the iterator is the list of the prefixes that are left.
#[derive(Debug, Drop)]
pub struct Cover {
    width: u8,
    left: Option<(u128, u128)>,
}

impl Model for Cover {
    ghost use Rattle.std.specs.Prelude.{List, ◌≤◌, ◌<◌, ◌^◌, IfSome};
    ghost use Rattle.rpki_cover.specs.Prefixes.{PrefixValue};
    ghost use Rattle.rpki_cover.specs.Walk.{left_cover};

    ghost Value = { List PrefixValue };

    ghost view = { λ c. left_cover c.width c.left };

    ghost invariant = { λ c. (c.width ≤ 128)
        × IfSome c.left (λ r. (r.0 ≤ r.1) × (r.1 < 2 ^ c.width)) };
}

impl Cover {
    /// Returns an iterator over the cover list of the numbers from `first` to `last`, inclusive, as numbers of
    /// `width` bits.
    ///
    /// The list has at most `2 * width - 2` prefixes if `width` is 2 or more.
    ///
    /// # Preconditions
    ///
    /// - `width` is at most 128.
    /// - `first` is at most `last`.
    /// - `last` is below 2^`width`.
    #[tactic(auto, using(crate::proofs::CoverCounts::cover_list_few, crate::proofs::ShortestCover::range_cover))]
    pub fn new(width: u8, first: u128, last: u128) -> Cover
        requires width { width ≤ 128 }
        requires order { first ≤ last }
        requires below { last < 2 ^ width }
        ensures cover { IsShortestCover width (λ n. (first ≤ n) × (n ≤ last)) result }
        ensures few { 2 ≤ width → length result + 2 ≤ 2 * width }
    {
        Cover {
            width,
            left: Some((first, last)),
        }
    }
}

/// Returns a cover without prefixes.
impl Default for Cover {
    ghost is_default = { λ cover. cover ≡ [] };

    fn default() -> Cover {
        Cover {
            width: 0,
            left: None,
        }
    }
}

impl Iterator for Cover {
    type Item = NumberPrefix;

    ghost next_gives = { YieldsFirst (λ prefixes. prefixes) };

    ghost remaining = { item_count (λ prefixes. prefixes) };

    #[tactic(auto, using(crate::proofs::CoverSteps::left_next))]
    fn next(&mut self) -> Option<NumberPrefix> {
        let Some((first, last)) = self.left else {
            return None;
        };
        let free = free_bits(self.width, first, last);
        self.left = rest_after(first, last, free);
        Some(NumberPrefix {
            first,
            len: self.width - free,
        })
    }
}

/// Returns the number of bits that are not fixed in the largest prefix that begins with `first` and ends at `last` or
/// before.
///
/// It is at most the number of trailing zeros of `first`, and at most the binary logarithm of the count of numbers from
/// `first` to `last`.
#[tactic(auto, using(crate::proofs::FreeBits::greatest_by))]
fn free_bits(width: u8, first: u128, last: u128) -> u8
    requires width { width ≤ 128 }
    requires order { first ≤ last }
    requires below { last < 2 ^ width }
    ensures value { result ≡ free_bits width first last }
    ensures most { result ≤ width }
{
    let aligned = first.trailing_zeros();
    let fitting = match (last - first).checked_add(1) {
        Some(count) => count.ilog2(),
        None => 128,
    };
    (aligned.min(fitting) as u8).min(width)
}

/// Returns the bounds of the numbers that are left after the first 2^`free` numbers, or None if no number is left.
fn rest_after(first: u128, last: u128, free: u8) -> Option<(u128, u128)>
    ensures { MatchOption result (last < first + 2 ^ free)
        (λ r. (r ≡ (first + 2 ^ free, last)) × (first + 2 ^ free ≤ last)) }
{
    if free >= 128 {
        return None;
    }
    let next = first.checked_add(1 << free)?;
    if next <= last {
        Some((next, last))
    } else {
        None
    }
}
