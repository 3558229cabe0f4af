//! The input of the program: what a holder had and what it gets, each a line of three lists.
ghost use Rattle.std.specs.Prelude.{◌≡◌, IfOk, MatchResult, map};
ghost use Rattle.std.specs.Str.Lines.{lines};
ghost use Rattle.rpki_resources.specs.Memory.{IfRefused};
ghost use Rattle.example_holdings.specs.Inputs.{AreLists, HasInputFault, HasOtherCount, IsInput, lists_of};

use rpki_resources::OrMemory;
use std::alloc::{AllocError, Allocator};
use thiserror::Error;

/// Three lists of resources, separated by semicolons.
#[derive(Clone, Copy)]
pub struct Lists<'a> {
    /// AS numbers.
    pub asn: &'a str,
    /// IPv4 addresses.
    pub ipv4: &'a str,
    /// IPv6 addresses.
    pub ipv6: &'a str,
}

/// The resources that a holder had, and those that it gets.
#[derive(Clone, Copy)]
pub struct Input<'a> {
    /// The first line: what the holder had.
    pub had: Lists<'a>,
    /// The second line: what the holder gets.
    pub gets: Lists<'a>,
}

/// A fault of an input.
#[derive(Clone, Copy, Debug, PartialEq, Eq, Error)]
pub enum InputError {
    /// The text doesn't have two lines. The field is their number.
    #[error("two lines are wanted, there are {0}")]
    Lines(usize),
    /// The first line doesn't have three lists. The field is their number.
    #[error("what was had: three lists are wanted, there are {0}")]
    Had(usize),
    /// The second line doesn't have three lists. The field is their number.
    #[error("what is got: three lists are wanted, there are {0}")]
    Gets(usize),
}

/// Cuts a text into its two lines, and each line into its three lists.
///
/// # Errors
///
/// - `Refused`: the text doesn't have exactly two lines, or a line doesn't have exactly three lists. The fault has the
///   number of lines, or the number of lists of the first such line.
/// - `Memory`: an allocation failed.
pub fn read_input<A: Allocator + Copy>(
    alloc: A,
    text: &str,
) -> Result<Input<'_>, OrMemory<InputError>>
    ensures { MatchResult result (IsInput text.now) (IfRefused (HasInputFault text.now)) }
{
    let lines = lines_of(alloc, text)?;
    let (had, gets) = match lines.as_slice() {
        [had, gets] => (*had, *gets),
        others => return Err(OrMemory::Refused(InputError::Lines(others.len()))),
    };
    let had = match read_lists(alloc, had) {
        Ok(lists) => lists,
        Err(OrMemory::Refused(count)) => return Err(OrMemory::Refused(InputError::Had(count))),
        Err(OrMemory::Memory(error)) => return Err(OrMemory::Memory(error)),
    };
    match read_lists(alloc, gets) {
        Ok(gets) => Ok(Input { had, gets }),
        Err(OrMemory::Refused(count)) => Err(OrMemory::Refused(InputError::Gets(count))),
        Err(OrMemory::Memory(error)) => Err(OrMemory::Memory(error)),
    }
}

/// Returns the three lists of a line.
///
/// # Errors
///
/// - `Refused` with the number of lists if there aren't exactly three.
/// - `Memory` if an allocation fails.
fn read_lists<A: Allocator + Copy>(alloc: A, line: &str) -> Result<Lists<'_>, OrMemory<usize>>
    ensures { MatchResult result (AreLists line.now) (IfRefused (HasOtherCount line.now)) }
{
    let lists = parts_of(alloc, line)?;
    match lists.as_slice() {
        [asn, ipv4, ipv6] => Ok(Lists { asn, ipv4, ipv6 }),
        others => Err(OrMemory::Refused(others.len())),
    }
}

/// Returns the lines of a text.
fn lines_of<A: Allocator>(alloc: A, text: &str) -> Result<Vec<&str, A>, AllocError>
    ensures { IfOk result (λ parts. map (λ line. line.now) parts.items ≡ lines text.now) }
{
    text.lines().collect(alloc)
}

/// Returns the parts of a line between its semicolons.
fn parts_of<A: Allocator>(alloc: A, line: &str) -> Result<Vec<&str, A>, AllocError>
    ensures { IfOk result (λ parts. map (λ part. part.now) parts.items ≡ lists_of line.now) }
{
    line.split(';').collect(alloc)
}
