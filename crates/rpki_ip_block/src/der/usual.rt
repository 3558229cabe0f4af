//! Reads blocks of the usual form in one pass over their octets: a prefix, or a SEQUENCE of two, with lengths of one
//! octet.
ghost use Rattle.std.specs.Prelude.{◌≡◌, Ok, IfSome};
ghost use Rattle.rpki_der.specs.Families.{bits_of};
ghost use Rattle.rpki_ip_block.specs.BlockReading.{ip_block_at};

use crate::block::IpBlock;
use rpki_ip::der::usual::{prefix_at_front, range_at_front};
use rpki_ip::family::AddressFamily;

/// Returns the block of `family` at the front, and the octets after it, as a lenient cursor reads them.
///
/// Returns None if a length has the long form (X.690, 8.1.3.5), or if the octets do not begin with such a block.
#[inline(always)]
#[tactic(auto, using(crate::proofs::UsualBlocks::prefix_block_found, crate::proofs::UsualBlocks::range_block_found))]
pub(super) fn usual_block(octets: &[u8], family: AddressFamily) -> Option<(IpBlock, &[u8])>
    ensures { IfSome result (λ found.
        ip_block_at (bits_of family) octets.now ≡ Ok (found.0, found.1.now)) }
{
    if let Some((prefix, rest)) = prefix_at_front(octets, family) {
        return Some((IpBlock::Prefix(prefix), rest));
    }
    let Some((range, rest)) = range_at_front(octets, family) else {
        return None;
    };
    Some((IpBlock::Range(range), rest))
}
