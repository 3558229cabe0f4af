//! DER values that are truncated and altered, for one reader.
ghost use Rattle.std.specs.Prelude.{◌<◌, length};

use crate::claims::Families;
use crate::modes::Mode;
use crate::values::{Item, Reader, Skip, Value};
use hex::FromHexError;
use rpki_as::blocks::AsBlocks;
use rpki_as::resources::AsResources;
use rpki_base::memory::OrMemory;
use rpki_der::{Cursor, DerError};
use rpki_ipres::blocks::IpBlocks;
use rpki_ipres::resources::IpResources;
use std::alloc::{AllocError, Allocator, Global};
use test_support::print::cut_at;
use test_support::{Outcome, Refusing, refuse_in_turn};

/// Maximum number of requests for memory of one read.
const REQUESTS: u64 = 64;

/// Number of reads for each fault, at the index of its number, and at 0 without fault.
type Counts = [u64; 16];

/// The result of one read of some octets, as a number, or `None` if the read is wrong.
///
/// - The number of the fault, if the cursor is where it was.
/// - 0 for a value that is read back from its encoding. In strict mode this encoding is also the octets that were
///   taken.
/// - 0 for a value that is skipped.
type Reading = Option<u8>;

/// A reader, and the mode of its cursors.
type ModalReader = (Mode, Reader);

/// Answers `altered READER HEX` and `alteredstrict READER HEX`.
///
/// It reads these octets truncated at each octet, and the octets with each octet replaced by each of the 256 values.
/// For both series it prints how many are read, and how many are refused with each fault.
pub fn answer(alloc: Global, mode: Mode, operands: &str) -> Result<String, AllocError> {
    let (name, text) = cut_at(operands, ' ');
    let Some(reader) = Reader::named(name) else {
        return String::from_str(alloc, "no such reader of octets");
    };
    match hex::decode(alloc, text) {
        Ok(mut octets) => count_all(alloc, (mode, reader), &mut octets),
        Err(FromHexError::OutOfMemory) => Err(AllocError),
        Err(_) => String::from_str(alloc, "no hexadecimal"),
    }
}

fn count_all(alloc: Global, reader: ModalReader, octets: &mut [u8]) -> Result<String, AllocError> {
    let mut beginnings = [0; 16];
    let mut replaced = [0; 16];
    for at in 0..octets.len() {
        let is_right = count(alloc, reader, &octets[..at], &mut beginnings)?;
        if !is_right || !count_place(alloc, reader, octets, at, &mut replaced)? {
            return format!(in alloc; "wrong at {at}");
        }
    }
    text(alloc, &beginnings, &replaced)
}

/// Counts the reads with each value of the octet at an index. Returns false if one of them is wrong.
fn count_place(
    alloc: Global,
    reader: ModalReader,
    octets: &mut [u8],
    at: usize,
    counts: &mut Counts,
) -> Result<bool, AllocError>
    requires { at < length octets.old }
{
    let mut is_right = true;
    let kept = octets[at];
    for octet in 0..=255 {
        octets[at] = octet;
        is_right = count(alloc, reader, octets, counts)? && is_right;
    }
    octets[at] = kept;
    Ok(is_right)
}

/// Counts a read. Returns false if it is wrong, also with memory refused.
fn count(
    alloc: Global,
    reader: ModalReader,
    octets: &[u8],
    counts: &mut Counts,
) -> Result<bool, AllocError> {
    let reading = read(alloc, reader, octets)?;
    let refused = refuse_in_turn(alloc, REQUESTS, |refusing: &Refusing| {
        outcome(refusing, reader, octets, reading)
    });
    Ok(count_one(reading, counts) && refused.is_ok())
}

/// Counts a read at the index of its number. Returns false if it has no number.
fn count_one(reading: Reading, counts: &mut Counts) -> bool {
    let Some(number) = reading else {
        return false;
    };
    match counts.get_mut(number as usize) {
        Some(count) => {
            *count = count.saturating_add(1);
            true
        }
        None => false,
    }
}

fn outcome(refusing: &Refusing, reader: ModalReader, octets: &[u8], expected: Reading) -> Outcome {
    match read(refusing, reader, octets) {
        Ok(reading) if reading == expected => Outcome::Expected,
        Ok(_) => Outcome::Unexpected,
        Err(AllocError) => Outcome::OutOfMemory,
    }
}

fn read<A: Allocator + Copy>(
    alloc: A,
    (mode, reader): ModalReader,
    octets: &[u8],
) -> Result<Reading, AllocError> {
    let cursor = mode.cursor(octets);
    match reader {
        Reader::Item(reader) => read_value::<A, Item>(alloc, reader, cursor),
        Reader::Skip(skip) => read_skipped(skip, cursor),
        Reader::AsBlocks => read_value::<A, AsBlocks<A>>(alloc, (), cursor),
        Reader::IpBlocks(family) => read_value::<A, IpBlocks<A>>(alloc, family, cursor),
        Reader::AsResources => read_value::<A, AsResources<A>>(alloc, (), cursor),
        Reader::IpResources(family) => read_value::<A, IpResources<A>>(alloc, family, cursor),
        Reader::Families => read_value::<A, Families<A>>(alloc, (), cursor),
    }
}

fn read_value<A: Allocator + Copy, V: Value<A>>(
    alloc: A,
    reader: V::Reader,
    cursor: Cursor<'_>,
) -> Result<Reading, AllocError> {
    let mut ahead = cursor;
    match V::take(alloc, reader, &mut ahead) {
        Ok(value) => read_back(alloc, reader, &value, (cursor, ahead.rest())),
        Err(error) => refused(error, ahead.rest().len() == cursor.rest().len()),
    }
}

/// Skips a value, which is not read back. If the value is absent, skipping it in no octets finds none too.
fn read_skipped(skip: Skip, cursor: Cursor<'_>) -> Result<Reading, AllocError> {
    let mut ahead = cursor;
    match skip.skip(&mut ahead) {
        Ok(Some(())) => Ok(Some(0)),
        Ok(None) => Ok(same(matches!(skip.skip(&mut Cursor::new(&[])), Ok(None)))),
        Err(fault) => {
            let is_in_place = ahead.rest().len() == cursor.rest().len();
            refused(OrMemory::Refused(fault), is_in_place)
        }
    }
}

/// Returns the number of a fault. The refusal must leave the cursor where it was.
fn refused(error: OrMemory<DerError>, is_in_place: bool) -> Result<Reading, AllocError> {
    if !is_in_place {
        return Ok(None);
    }
    match error {
        OrMemory::Refused(fault) => Ok(Some(fault.number())),
        OrMemory::Memory(error) => Err(error),
    }
}

/// Writes a value that was read at a cursor, and reads it again.
fn read_back<A: Allocator + Copy, V: Value<A>>(
    alloc: A,
    reader: V::Reader,
    value: &V,
    (cursor, rest): (Cursor<'_>, &[u8]),
) -> Result<Reading, AllocError> {
    let mut octets = Vec::new(alloc);
    value.encode(&mut octets)?;
    if cursor.is_strict() && !is_in_two(cursor.rest(), &octets, rest) {
        return Ok(None);
    }
    read_again(alloc, reader, value, &octets)
}

/// Returns whether octets are the first ones followed by the last ones.
fn is_in_two(octets: &[u8], first: &[u8], last: &[u8]) -> bool {
    octets.strip_prefix(first) == Some(last)
}

fn read_again<A: Allocator + Copy, V: Value<A>>(
    alloc: A,
    reader: V::Reader,
    value: &V,
    octets: &[u8],
) -> Result<Reading, AllocError> {
    let mut cursor = Cursor::new(octets);
    match V::take(alloc, reader, &mut cursor) {
        Ok(again) => Ok(same(value.is(&again) && cursor.is_empty())),
        Err(OrMemory::Refused(_)) => Ok(None),
        Err(OrMemory::Memory(error)) => Err(error),
    }
}

/// Returns the result of a read for a value that is read back, or is not.
fn same(is_same: bool) -> Reading {
    if is_same { Some(0) } else { None }
}

fn text(alloc: Global, beginnings: &Counts, replaced: &Counts) -> Result<String, AllocError> {
    let mut text = String::from_str(alloc, "cut: ")?;
    append_all(&mut text, beginnings)?;
    write!(text, "; replaced: ")?;
    append_all(&mut text, replaced)?;
    Ok(text)
}

fn append_all(text: &mut String, counts: &Counts) -> Result<(), AllocError> {
    let read = counts[0];
    write!(text, "read {read}")?;
    for number in 1..counts.len() {
        append(text, number, counts[number])?;
    }
    Ok(())
}

/// Appends the number of reads with a fault, if there are any.
fn append(text: &mut String, number: usize, count: u64) -> Result<(), AllocError> {
    if count > 0 {
        write!(text, ", {number}: {count}")?;
    }
    Ok(())
}
