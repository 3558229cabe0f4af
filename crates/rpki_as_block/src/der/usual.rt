//! Reads blocks of the usual form in one pass over their octets: an INTEGER, or a SEQUENCE of two, with lengths of one
//! octet.
ghost use Rattle.std.specs.Prelude.{◌≡◌, ◌+◌, ◌*◌, ◌≤◌, ◌<◌, Ok, IfSome};
ghost use Rattle.rpki_der.specs.Reading.{unsigned, value_at};
ghost use Rattle.rpki_base.specs.AsnDer.{as_number_at};
ghost use Rattle.rpki_as_block.specs.AsDerReading.{as_block_at, as_range_in};

use crate::block::AsBlock;
use crate::range::AsRange;
use rpki_base::asn::Asn;
use rpki_der::tag;

/// Returns the tag and the content of the value at the front, and the octets after it.
///
/// Returns None if the length has the long form (X.690, 8.1.3.5), or if the octets do not begin with a value.
#[inline(always)]
#[tactic(auto, unfolding(rpki_der::specs::Reading::value_at, rpki_der::specs::Reading::length_at))]
fn short_value(octets: &[u8]) -> Option<(u8, &[u8], &[u8])>
    ensures { IfSome result (λ found. value_at octets.now
        ≡ Ok (record { tag = found.0; content = found.1.now }, found.2.now)) }
{
    let [tag, len, after @ ..] = octets else {
        return None;
    };
    let len = *len as usize;
    if *tag % 32 == 31 || len >= 128 || after.len() < len {
        return None;
    }
    let (content, rest) = after.split_at(len);
    Some((*tag, content, rest))
}

/// Returns the number of the first two octets of an INTEGER of several octets.
///
/// Returns None if the INTEGER is negative, or if its first nine bits are zeros (X.690, 8.3.2).
#[inline(always)]
fn first_two(first: u8, second: u8) -> Option<u32>
    ensures { IfSome result (λ number. (number ≡ first * 256 + second)
        × (128 ≤ number) × (number < 32768)) }
{
    let number = first as u32 * 256 + second as u32;
    if number < 128 || number >= 32768 {
        return None;
    }
    Some(number)
}

/// Returns the AS number in the content of an INTEGER. Returns None for any other content.
#[inline(always)]
#[tactic(auto, unfolding(rpki_der::specs::Reading::unsigned))]
fn usual_number(content: &[u8]) -> Option<Asn>
    ensures { IfSome result (λ number. unsigned content.now ≡ Ok number) }
{
    let number = match content {
        [first] if *first < 128 => *first as u32,
        [first, second] => first_two(*first, *second)?,
        [first, second, third] => first_two(*first, *second)? * 256 + *third as u32,
        [first, second, third, fourth] => {
            first_two(*first, *second)? * 65536 + *third as u32 * 256 + *fourth as u32
        }
        [0, second, third, fourth, fifth] if *second >= 128 => {
            (*second as u32 * 256 + *third as u32) * 65536 + *fourth as u32 * 256 + *fifth as u32
        }
        _ => return None,
    };
    Some(Asn::from_u32(number))
}

/// Returns the AS number at the front, and the octets after it.
///
/// Returns None if the length has the long form, or if the octets do not begin with an AS number.
#[inline(always)]
#[tactic(auto, unfolding(rpki_der::specs::Reading::refined, rpki_der::specs::Reading::tagged_at))]
fn number_at_front(octets: &[u8]) -> Option<(Asn, &[u8])>
    ensures { IfSome result (λ found. as_number_at octets.now ≡ Ok (found.0, found.1.now)) }
{
    let (tag, content, rest) = short_value(octets)?;
    if tag != tag::INTEGER {
        return None;
    }
    Some((usual_number(content)?, rest))
}

/// Returns the range in the content of a SEQUENCE, if both numbers have the usual form.
#[inline(always)]
#[tactic(auto, unfolding(rpki_der::specs::SequenceReading::pair_in, crate::specs::AsDerReading::range_of))]
fn usual_range(content: &[u8]) -> Option<AsRange>
    ensures { IfSome result (λ range. as_range_in content.now ≡ Ok range) }
{
    let Some((min, rest)) = number_at_front(content) else {
        return None;
    };
    let Some((max, rest)) = number_at_front(rest) else {
        return None;
    };
    if min > max || !rest.is_empty() {
        return None;
    }
    Some(AsRange::new(min, max))
}

/// Returns the block at the front, and the octets after it.
///
/// Returns None if a length has the long form, or if the octets do not begin with a block.
#[inline(always)]
#[tactic(auto, unfolding(rpki_der::specs::Reading::refined, rpki_der::specs::SequenceReading::by_tag))]
pub(super) fn usual_block(octets: &[u8]) -> Option<(AsBlock, &[u8])>
    ensures { IfSome result (λ found. as_block_at octets.now ≡ Ok (found.0, found.1.now)) }
{
    let (tag, content, rest) = short_value(octets)?;
    let block = match tag {
        tag::INTEGER => AsBlock::Id(usual_number(content)?),
        tag::SEQUENCE => AsBlock::Range(usual_range(content)?),
        _ => return None,
    };
    Some((block, rest))
}
