//! Words and their meanings.
ghost use Rattle.std.specs.Prelude.{◌≡◌, ◌≢◌, IfSome, IfNone};
ghost use Rattle.std.specs.List.{All, Any};

use std::cmp::Ordering;

/// Returns the meaning of a word in a table, or `None` if the table does not have it.
pub fn named<T: Copy>(words: &[(&str, T)], name: &str) -> Option<T>
    ensures some { IfSome result (λ meaning. Any (λ row. (row.0.now ≡ name.now) × (row.1 ≡ meaning))
        words.now) }
    ensures none { IfNone result (All (λ row. row.0.now ≢ name.now) words.now) }
{
    for (word, meaning) in words {
        if *word == name {
            return Some(*meaning);
        }
    }
    None
}

/// Returns the word for an order.
pub fn order_word(order: Ordering) -> &'static str {
    match order {
        Ordering::Less => "less",
        Ordering::Equal => "equal",
        Ordering::Greater => "greater",
    }
}
