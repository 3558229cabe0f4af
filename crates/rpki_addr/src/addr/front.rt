//! Reads an address at the front of a text.
ghost use Rattle.std.specs.Prelude.{◌≡◌, ℕ, List, IfSome, MatchOption};
ghost use Rattle.rpki_addr.specs.AddressText.{IsIpv4Text, IsIpv6Text};
ghost use Rattle.rpki_addr.specs.AddressFronts.{IsAtFront, EndsIpv4, EndsIpv6};

use super::read::{take_ipv4, take_ipv6};
use super::{Ipv4Addr, Ipv6Addr};

/// Returns an IPv4 address that `text` begins with, and the text after it, if the call finds one.
///
/// An address that is not followed by a digit is always found.
#[tactic(auto, using(crate::proofs::AddressFronts::ipv4_reader, crate::proofs::AddressFronts::found))]
pub fn ipv4_at_front(text: &[u8]) -> Option<(Ipv4Addr, &[u8])>
    ensures found { IfSome result (λ found. IsAtFront IsIpv4Text text.now found.0 found.1.now) }
    // An address that is not followed by a digit is found.
    ensures each { (n : ℕ) (rest : List ℕ) → IsAtFront IsIpv4Text text.now n rest → EndsIpv4 rest
        → MatchOption result ⊥ (λ found. (found.0 ≡ n) × (found.1.now ≡ rest)) }
{
    match take_ipv4(text) {
        Some((bits, rest)) => Some((Ipv4Addr::from_bits(bits), rest)),
        None => None,
    }
}

/// Returns an IPv6 address that `text` begins with, and the text after it, if the call finds one.
///
/// An address that is not followed by a hexadecimal digit, a dot or a colon is always found.
#[tactic(auto, using(crate::proofs::AddressFronts::ipv6_reader, crate::proofs::AddressFronts::found))]
pub fn ipv6_at_front(text: &[u8]) -> Option<(Ipv6Addr, &[u8])>
    ensures found { IfSome result (λ found. IsAtFront IsIpv6Text text.now found.0 found.1.now) }
    // An address that is not followed by a hexadecimal digit, a dot or a colon is found.
    ensures each { (n : ℕ) (rest : List ℕ) → IsAtFront IsIpv6Text text.now n rest → EndsIpv6 rest
        → MatchOption result ⊥ (λ found. (found.0 ≡ n) × (found.1.now ≡ rest)) }
{
    match take_ipv6(text) {
        Some((bits, rest)) => Some((Ipv6Addr::from_bits(bits), rest)),
        None => None,
    }
}
