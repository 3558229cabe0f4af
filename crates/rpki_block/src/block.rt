//! A block of resources: a range of items of one kind.
ghost use Rattle.std.specs.Prelude.{◌≡◌, ℕ, ◌+◌, ◌<◌, ◌≤◌, ◌↔◌, ◌⊎◌, IsTrue, MatchOption, IfSome, IfNone, min, max};
ghost use Rattle.std.specs.Ordering.{nat_cmp};
ghost use Rattle.rpki_block.specs.Bounds.{IsWithin, IsBeside, IsNew};

/// A range of items, from a minimum to a maximum with all items between them (RFC 3779, 2 and 3).
///
/// An item denotes a whole number, and items compare as their numbers. The items of a kind denote all whole numbers
/// from the kind's first to its last. The values of a type may have several forms, such as a single number and a range.
/// `new` must then return the same form for the same bounds.
pub trait Block: Drop {
    /// The type of the items.
    type Item: Copy + Eq + Ord;

    /// The number of the kind's first item.
    ghost first: { ℕ };

    /// The number of the kind's last item.
    ghost last: { ℕ };

    /// The number that an item denotes.
    ghost number: { Self.Item → ℕ };

    /// The item that denotes a number.
    ghost item_at: { ℕ → Self.Item };

    /// The numbers of the minimum and of the maximum.
    ghost bounds: { Self → ℕ × ℕ };

    /// The block with given bounds, in the form that `new` gives.
    ghost form: { ℕ × ℕ → Self };

    /// Returns the block from `min` to `max`.
    ///
    /// # Preconditions
    ///
    /// `max` is not below `min`.
    fn new(min: Self::Item, max: Self::Item) -> Self
        requires { number min ≤ number max }
        ensures bounds { bounds result ≡ (number min, number max) }
        ensures value { result ≡ form (number min, number max) };

    /// Returns the smallest item. It is never above the largest.
    fn min(&self) -> Self::Item
        ensures value { number result ≡ (bounds self.now).0 }
        ensures from_first { first ≤ number result }
        ensures ordered { (bounds self.now).0 ≤ (bounds self.now).1 };

    /// Returns the largest item. It is never below the smallest.
    fn max(&self) -> Self::Item
        ensures value { number result ≡ (bounds self.now).1 }
        ensures to_last { number result ≤ last }
        ensures ordered { (bounds self.now).0 ≤ (bounds self.now).1 };

    /// Returns the item after `item`, or None if and only if `item` is the kind's last.
    fn next(item: Self::Item) -> Option<Self::Item>
        ensures { MatchOption result (number item ≡ last)
            (λ next. (number item < last) × (number next ≡ number item + 1)) };

    /// Returns the item before `item`, or None if and only if `item` is the kind's first.
    fn previous(item: Self::Item) -> Option<Self::Item>
        ensures { MatchOption result (number item ≡ first)
            (λ previous. (first < number item) × (number previous + 1 ≡ number item)) };

    /// Returns the smallest and the largest item.
    fn bounds(&self) -> (Self::Item, Self::Item)
        ensures min { number result.0 ≡ (bounds self.now).0 }
        ensures max { number result.1 ≡ (bounds self.now).1 }
        ensures from_first { first ≤ number result.0 }
        ensures ordered { number result.0 ≤ number result.1 }
        ensures to_last { number result.1 ≤ last }
    {
        (self.min(), self.max())
    }

    /// Returns whether `item` is in the block.
    fn contains(&self, item: Self::Item) -> bool
        ensures { IsTrue result ↔ IsWithin (bounds self.now) (number item) }
    {
        self.min() <= item && self.max() >= item
    }

    /// Returns whether the blocks have an item in common.
    fn intersects(&self, other: &Self) -> bool
        ensures { IsTrue result ↔
            ((n : ℕ) × IsWithin (bounds self.now) n × IsWithin (bounds other.now) n) }
    {
        self.min() <= other.max() && self.max() >= other.min()
    }

    /// Returns whether each item of the block is in `other`.
    fn is_encompassed(&self, other: &Self) -> bool
        ensures { IsTrue result ↔
            ((n : ℕ) → IsWithin (bounds self.now) n → IsWithin (bounds other.now) n) }
    {
        other.min() <= self.min() && other.max() >= self.max()
    }

    /// Returns the block of the items of both, in the form of `new`, or None if the blocks neither overlap nor touch.
    fn sum(&self, other: &Self) -> Option<Self>
        ensures over { IfSome result (λ sum. (n : ℕ) → IsWithin (bounds sum) n ↔
            (IsWithin (bounds self.now) n ⊎ IsWithin (bounds other.now) n)) }
        ensures new_form { IfSome result (IsNew bounds form) }
        ensures apart { IfNone result (IsBeside (bounds self.now) (bounds other.now) → ⊥) }
    {
        let (min, max) = self.bounds();
        let (low, high) = other.bounds();
        if let Some(next) = Self::next(max) {
            if next < low {
                return None;
            }
        }
        if let Some(next) = Self::next(high) {
            if next < min {
                return None;
            }
        }
        let first = if min <= low { min } else { low };
        let last = if max <= high { high } else { max };
        Some(Self::new(first, last))
    }

    /// Returns whether the blocks have the same bounds. Their forms may differ.
    fn is_equivalent(&self, other: &Self) -> bool
        ensures { IsTrue result ↔ (bounds self.now ≡ bounds other.now) }
    {
        self.min() == other.min() && self.max() == other.max()
    }

    /// Items compare as their numbers.
    ghost in_order: { (x y : Self.Item) → Self.Item.cmp x y ≡ nat_cmp (number x) (number y) };

    /// Each number from the first to the last has an item.
    ghost no_gaps: { (n : ℕ) → first ≤ n → n ≤ last → number (item_at n) ≡ n };

    /// Items with the same number are the same.
    ghost one_item: { (x y : Self.Item) → number x ≡ number y → x ≡ y };

    /// The block with given bounds has these bounds.
    ghost form_bounds: { (b : ℕ × ℕ) → first ≤ b.0 → b.0 ≤ b.1 → b.1 ≤ last →
        bounds (form b) ≡ b };
}
