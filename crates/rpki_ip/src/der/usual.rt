//! Reads prefixes and ranges of the usual form in one pass over their octets: their lengths have one octet.
ghost use Rattle.std.specs.Prelude.{◌≡◌, ℕ, ◌-◌, ◌*◌, ◌/◌, ◌^◌, ◌≤◌, Ok, IfSome, length, take};
ghost use Rattle.rpki_der.specs.Der.{big_endian};
ghost use Rattle.rpki_der.specs.Families.{bits_of};
ghost use Rattle.rpki_der.specs.Reading.{refined, tagged_at};
ghost use Rattle.rpki_ip.specs.PrefixDer.{prefix_at};
ghost use Rattle.rpki_ip.specs.RangeDer.{range_in};

use crate::addr::Addr;
use crate::der::prefix::beginning_with;
use crate::family::AddressFamily;
use crate::prefix::Prefix;
use crate::range::AddressRange;
use rpki_der::tag;

/// Returns the address of the first sixteen octets. Zeros stand for octets that are missing.
///
/// Sixteen octets are one read of a fixed length, also if the prefix has fewer.
#[inline(always)]
#[tactic(auto, using(crate::proofs::UsualPrefixes::first_octets_of))]
fn address_at_front(octets: &[u8]) -> Addr
    ensures { (k : ℕ) → k ≤ 16 → k ≤ length octets.now
        → result / 2 ^ (128 - 8 * k) ≡ big_endian (take k octets.now) }
{
    if octets.len() < 16 {
        return beginning_with(octets);
    }
    beginning_with(&octets[..16])
}

/// Returns the prefix of `family` at the front, and the octets after it.
///
/// The unused bits count as zero, even if they are set. Returns None if the length has the long form, or if the octets
/// do not begin with such a prefix.
#[inline(always)]
#[tactic(auto, using(crate::proofs::UsualPrefixes::usual_prefix_at))]
pub fn prefix_at_front(octets: &[u8], family: AddressFamily) -> Option<(Prefix, &[u8])>
    ensures { IfSome result (λ found.
        prefix_at (bits_of family) octets.now ≡ Ok (found.0, found.1.now)) }
{
    let [tag, len, unused, after @ ..] = octets else {
        return None;
    };
    let (len, unused) = (*len as usize, *unused as usize);
    if *tag != tag::BIT_STRING || len == 0 || unused > 7 {
        return None;
    }
    let count = len - 1;
    if after.len() < count || 8 * count < unused {
        return None;
    }
    let bits = 8 * count - unused;
    if bits > family.max_addr_len() as usize {
        return None;
    }
    let prefix = Prefix::new(address_at_front(after), bits as u8);
    Some((prefix, &after[count..]))
}

/// Returns the range of `family` at the front, and the octets after it.
///
/// Returns None if a length has the long form, or if the octets do not begin with the SEQUENCE of such a range.
#[inline(always)]
#[tactic(auto, using(crate::proofs::UsualPrefixes::usual_range_at))]
pub fn range_at_front(octets: &[u8], family: AddressFamily) -> Option<(AddressRange, &[u8])>
    ensures { IfSome result (λ found. refined (tagged_at 48) (range_in (bits_of family)) octets.now
        ≡ Ok (found.0, found.1.now)) }
{
    let [tag, len, content @ ..] = octets else {
        return None;
    };
    let len = *len as usize;
    if *tag != tag::SEQUENCE || len >= 128 || content.len() < len {
        return None;
    }
    let Some((first, rest)) = prefix_at_front(content, family) else {
        return None;
    };
    let Some((second, rest)) = prefix_at_front(rest, family) else {
        return None;
    };
    if rest.len() != content.len() - len || first.min() > second.max() {
        return None;
    }
    Some((AddressRange::new(first.min(), second.max()), rest))
}
