//! The value at the front of octets: its tag, its length and its content.

ghost use Rattle.std.specs.Prelude.{◌≡◌, ◌≤◌, length, IfOk};
ghost use Rattle.rpki_der.specs.Der.{big_endian};
ghost use Rattle.rpki_der.specs.Reading.{Gives, length_at, long_length_at, value_at};
ghost use Rattle.rpki_der.specs.Views.{is_strict_in, tlv};

use crate::content::Content;
use crate::error::DerError;

/// Returns the number that octets spell, the most significant first.
#[tactic(auto, using(crate::proofs::NumberOctets::big_endian_more, crate::proofs::NumberOctets::digit_more, crate::proofs::NumberOctets::digits_fit, std::proofs::lemmas::Grind::common_steps))]
pub(crate) fn number_of(digits: &[u8]) -> u64
    requires { length digits.now ≤ 8 }
    ensures number { result ≡ big_endian digits.now }
{
    let mut number: u64 = 0;
    for digit in digits {
        number = number * 256 + *digit as u64;
    }
    number
}

// Reads the length in the next `count` octets, and returns it with the octets after it.
#[tactic(auto, unfolding(crate::specs::Reading::long_length_at))]
fn long_length_of(count: usize, octets: &[u8]) -> Result<(usize, &[u8]), DerError>
    ensures exact { Gives (λ x. (x.0, x.1.now)) result (long_length_at count octets.now) }
{
    if count == 0 || count > 8 {
        return Err(DerError::BadLength);
    }
    if octets.len() < count {
        return Err(DerError::Truncated);
    }
    let (digits, rest) = octets.split_at(count);
    let length = number_of(digits);
    if octets[0] == 0 || length < 128 {
        return Err(DerError::BadLength);
    }
    Ok((length as usize, rest))
}

// Reads the length at the front of octets, and returns it with the octets after it.
#[tactic(auto, unfolding(crate::specs::Reading::length_at))]
fn length_of(octets: &[u8]) -> Result<(usize, &[u8]), DerError>
    ensures exact { Gives (λ x. (x.0, x.1.now)) result (length_at octets.now) }
{
    let [first, rest @ ..] = octets else {
        return Err(DerError::Truncated);
    };
    let first = *first as usize;
    if first < 128 {
        return Ok((first, rest));
    }
    long_length_of(first - 128, rest)
}

/// Reads the value at the front of octets, for a cursor of the given mode. Returns it with the octets after it.
#[tactic(auto, unfolding(crate::specs::Reading::value_at))]
pub(crate) fn value_of(octets: &[u8], strict: bool) -> Result<(Content<'_>, &[u8]), DerError>
    ensures exact { Gives (λ x. (tlv x.0, x.1.now)) result (value_at octets.now) }
    ensures mode { IfOk result (λ x. is_strict_in x.0 ≡ strict) }
{
    let [tag, rest @ ..] = octets else {
        return Err(DerError::Truncated);
    };
    let tag = *tag;
    if tag % 32 == 31 {
        return Err(DerError::BadTag);
    }
    let (length, rest) = length_of(rest)?;
    if rest.len() < length {
        return Err(DerError::Truncated);
    }
    let (octets, rest) = rest.split_at(length);
    Ok((
        Content {
            tag,
            octets,
            strict,
        },
        rest,
    ))
}
