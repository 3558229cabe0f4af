//! The number of a family.
ghost use Rattle.std.specs.Prelude.{◌≡◌, ◌≢◌, MatchOption};
ghost use Rattle.rpki_der.specs.declared.family.AddressFamily.{AddressFamily as Family};
ghost use Rattle.pigyelund_routes.specs.Families.{family_number};

use rpki_der::family::AddressFamily;

/// Returns the family with this number, 4 for IPv4 and 6 for IPv6, or `None` for any other number.
///
/// `AF_INET`, `AF_INET6` and the numbers of RFC 3779, 2.2.3.3 are no such numbers.
pub fn family_of(number: u32) -> Option<AddressFamily>
    ensures { MatchOption result ((family : Family) → number ≢ family_number family)
        (λ family. number ≡ family_number family) }
{
    match number {
        4 => Some(AddressFamily::Ipv4),
        6 => Some(AddressFamily::Ipv6),
        _ => None,
    }
}
