//! Parses and prints AS blocks.
ghost use Rattle.std.specs.Prelude.{Some, MatchOption};
ghost use Rattle.rpki_block.specs.Ranges.{range_bounds};
ghost use Rattle.rpki_as_block.specs.BlockText.{ReadsAsBlock, as_block_text, IsAsRangeBetween, NoRange};

use crate::at_index::block_at;
use crate::block::AsBlock;
use crate::error::FromStrError;
use crate::range::AsRange;
use rpki_base::asn::Asn;
use std::fmt;
use std::str::FromStr;

/// Returns the range between two AS numbers, if both texts are AS numbers and the first number is at most the second.
fn read_range(left: &str, right: &str) -> Option<AsRange>
    ensures { MatchOption result (NoRange left.now right.now)
        (λ r. IsAsRangeBetween left.now right.now (range_bounds r)) }
{
    let min = Asn::from_str(left).ok()?;
    let max = Asn::from_str(right).ok()?;
    if min > max {
        return None;
    }
    Some(AsRange::new(min, max))
}

/// Returns the block that a text in any form denotes.
fn read_any(text: &str) -> Result<AsBlock, FromStrError>
    ensures { ReadsAsBlock text.now result }
{
    let Some((left, right)) = text.split_once('-') else {
        return Ok(AsBlock::Id(Asn::from_str(text)?));
    };
    match read_range(left, right) {
        Some(range) => Ok(AsBlock::Range(range)),
        None => Err(FromStrError::BadRange),
    }
}

/// Parses a text such as `AS7` or `7` as an Id, and two such texts around the first dash as a Range.
///
/// # Errors
///
/// - [`FromStrError::BadAsn`]: the text has no dash, and is not an AS number.
/// - [`FromStrError::BadRange`]: the texts around the first dash are not two AS numbers, or the first number is above
///   the second.
impl FromStr for AsBlock {
    type Err = FromStrError;

    ghost from_str_gives = { ReadsAsBlock };

    fn from_str(text: &str) -> Result<AsBlock, FromStrError> {
        let bytes = text.as_bytes();
        match block_at(bytes, 0) {
            Some((block, end)) if end == bytes.len() => Ok(block),
            _ => read_any(text),
        }
    }
}

/// Prints an Id as its number, as in `AS7`, and a Range as both its numbers, as in `AS3-AS5`.
impl fmt::Display for AsBlock {
    ghost output = { λ b. Some (as_block_text b) };

    fn fmt<W: fmt::Write>(&self, f: &mut fmt::Formatter<W>) -> fmt::Result {
        match self {
            AsBlock::Id(asn) => write!(f, "{asn}"),
            AsBlock::Range(range) => write!(f, "{range}"),
        }
    }
}
