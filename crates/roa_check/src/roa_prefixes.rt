//! The prefixes of a ROA that its certificate's resources don't include (RFC 9582, 5).
ghost use Rattle.std.specs.Prelude.{◌≡◌, ◌↔◌, IsTrue};
ghost use Rattle.roa_check.specs.Inside.{IsFirstOutside, IsPrefixInside, prefix_numbers};
ghost use Rattle.rpki_ip.specs.Ranges.{range_bounds};

use rpki_ip::{AddressFamily, AddressRange};
use rpki_prefix::{MaxLenPrefix, Prefix};
use rpki_resources::repository::resources::{Addr, ResourceSet};
use std::alloc::Allocator;

/// Returns the addresses of a prefix as numbers of 128 bits, as sets of resources have them.
fn addresses(prefix: Prefix) -> AddressRange
    ensures { range_bounds result ≡ prefix_numbers prefix }
{
    let min = Addr::from(prefix.min_addr());
    let max = Addr::from(prefix.max_addr());
    if prefix.is_v4() {
        AddressRange::new(min, max.to_max(32))
    } else {
        AddressRange::new(min, max)
    }
}

/// Returns whether the set's addresses of the prefix's family include each address of the prefix.
fn is_inside<A: Allocator>(set: &ResourceSet<A>, prefix: Prefix) -> bool
    ensures { IsTrue result ↔ IsPrefixInside set.now prefix }
{
    let family = if prefix.is_v4() {
        AddressFamily::Ipv4
    } else {
        AddressFamily::Ipv6
    };
    set.contains_roa_address(family, addresses(prefix))
}

/// Returns the index of the first prefix that isn't inside the set's addresses of its family (RFC 9582, 5).
///
/// Indices are counted from 0. The call returns None if each prefix is inside. It ignores maximum lengths, because they
/// add no addresses. It allocates nothing.
pub fn outside<A: Allocator>(set: &ResourceSet<A>, prefixes: &[MaxLenPrefix]) -> Option<usize>
    ensures { IsFirstOutside set.now prefixes.now result }
{
    for (at, prefix) in prefixes.iter().enumerate() {
        if !is_inside(set, prefix.prefix()) {
            return Some(at);
        }
    }
    None
}
