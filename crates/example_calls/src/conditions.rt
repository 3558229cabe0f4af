//! Meets the preconditions of calls by a comparison.
ghost use Rattle.std.specs.Prelude.{◌≡◌, ◌+◌, ◌≤◌, ◌<◌, MatchOption};
ghost use Rattle.rpki_block.specs.Ranges.{range_bounds};

use rpki_resources::repository::resources::{AsRange, Asn};

/// Returns the range between two AS numbers, in either order.
///
/// [`AsRange::new`] requires the least number first.
pub fn between(one: Asn, other: Asn) -> AsRange
    ensures in_order { one ≤ other → range_bounds result ≡ (one, other) }
    ensures turned { other < one → range_bounds result ≡ (other, one) }
{
    if one <= other {
        AsRange::new(one, other)
    } else {
        AsRange::new(other, one)
    }
}

/// Returns the next AS number, or None after the last one.
///
/// [`Asn::add`] requires a sum that is an AS number.
pub fn next_asn(asn: Asn) -> Option<Asn>
    ensures { MatchOption result (asn ≡ 4294967295) (λ next. next ≡ asn + 1) }
{
    if asn == Asn::MAX {
        return None;
    }
    Some(asn.add(1))
}
