//! Answers of the readers of DER.
use crate::claims::Families;
use crate::modes::Mode;
use crate::values::{Item, Reader, Skip, Value, octets as octets_of};
use hex::FromHexError;
use rpki_as::blocks::AsBlocks;
use rpki_as::resources::AsResources;
use rpki_base::memory::OrMemory;
use rpki_der::{Content, Cursor, DerError};
use rpki_ip::family::AddressFamily;
use rpki_ipres::blocks::IpBlocks;
use rpki_ipres::resources::IpResources;
use std::alloc::{AllocError, Allocator};
use test_support::print;

/// The answer to give about a value that was read.
#[derive(Clone, Copy)]
pub enum Form {
    /// Its printed form, and the remaining octets.
    Printed,
    /// The octets that are written for it.
    Written,
}

/// Answers `take READER HEX`, `strict READER HEX` and `written READER HEX`.
pub fn answer<A: Allocator + Copy>(
    alloc: A,
    (mode, form): (Mode, Form),
    name: &str,
    text: &str,
) -> Result<String<A>, AllocError> {
    match hex::decode(alloc, text) {
        Ok(octets) => taken(alloc, form, name, mode.cursor(&octets)),
        Err(FromHexError::OutOfMemory) => Err(AllocError),
        Err(_) => String::from_str(alloc, "no hexadecimal"),
    }
}

fn taken<A: Allocator + Copy>(
    alloc: A,
    form: Form,
    name: &str,
    cursor: Cursor<'_>,
) -> Result<String<A>, AllocError> {
    match Reader::named(name) {
        Some(reader) => read(alloc, form, reader, cursor),
        None if name == "tlv" => content(alloc, cursor),
        None => String::from_str(alloc, "no such reader of octets"),
    }
}

fn read<A: Allocator + Copy>(
    alloc: A,
    form: Form,
    reader: Reader,
    cursor: Cursor<'_>,
) -> Result<String<A>, AllocError> {
    let asked = (form, reader.printed_family());
    match reader {
        Reader::Item(reader) => read_value::<A, Item>(alloc, asked, reader, cursor),
        Reader::Skip(skip) => skipped(alloc, form, skip, cursor),
        Reader::AsBlocks => read_value::<A, AsBlocks<A>>(alloc, asked, (), cursor),
        Reader::IpBlocks(family) => read_value::<A, IpBlocks<A>>(alloc, asked, family, cursor),
        Reader::AsResources => read_value::<A, AsResources<A>>(alloc, asked, (), cursor),
        Reader::IpResources(family) => {
            read_value::<A, IpResources<A>>(alloc, asked, family, cursor)
        }
        Reader::Families => read_value::<A, Families<A>>(alloc, asked, (), cursor),
    }
}

fn read_value<A: Allocator + Copy, V: Value<A>>(
    alloc: A,
    asked: (Form, AddressFamily),
    reader: V::Reader,
    cursor: Cursor<'_>,
) -> Result<String<A>, AllocError> {
    let mut ahead = cursor;
    match V::take(alloc, reader, &mut ahead) {
        Ok(value) => value_text(alloc, asked, &value, ahead.rest()),
        Err(error) => refused(alloc, error, ahead.rest().len() == cursor.rest().len()),
    }
}

/// Prints a value in the notation of a family and the remaining octets, or the octets of the value.
fn value_text<A: Allocator + Copy, V: Value<A>>(
    alloc: A,
    asked: (Form, AddressFamily),
    value: &V,
    rest: &[u8],
) -> Result<String<A>, AllocError> {
    match asked {
        (Form::Printed, family) => with_rest(alloc, value.text(alloc, family), rest),
        (Form::Written, _) => octets_of(alloc, value),
    }
}

/// Prints whether a value was skipped. A skipped value is written as no octets.
fn skipped<A: Allocator + Copy>(
    alloc: A,
    form: Form,
    skip: Skip,
    cursor: Cursor<'_>,
) -> Result<String<A>, AllocError> {
    let mut ahead = cursor;
    match skip.skip(&mut ahead) {
        Ok(found) => skipped_text(alloc, form, found, ahead.rest()),
        Err(fault) => {
            let is_in_place = ahead.rest().len() == cursor.rest().len();
            refused(alloc, OrMemory::Refused(fault), is_in_place)
        }
    }
}

fn skipped_text<A: Allocator + Copy>(
    alloc: A,
    form: Form,
    found: Option<()>,
    rest: &[u8],
) -> Result<String<A>, AllocError> {
    match (form, found) {
        (Form::Printed, Some(())) => with_rest(alloc, String::from_str(alloc, "skipped"), rest),
        (Form::Printed, None) => with_rest(alloc, String::from_str(alloc, "none"), rest),
        (Form::Written, _) => Ok(String::new(alloc)),
    }
}

/// Prints a fault. A reader that refuses must leave the cursor where it was.
fn refused<A: Allocator + Copy>(
    alloc: A,
    error: OrMemory<DerError>,
    is_in_place: bool,
) -> Result<String<A>, AllocError> {
    if is_in_place {
        print::refused(alloc, error)
    } else {
        String::from_str(alloc, "refused with the cursor moved")
    }
}

/// Reads one value of any tag, and prints its tag and its content.
fn content<A: Allocator + Copy>(alloc: A, cursor: Cursor<'_>) -> Result<String<A>, AllocError> {
    let mut ahead = cursor;
    match ahead.take_value() {
        Ok(content) => with_rest(alloc, content_text(alloc, content), ahead.rest()),
        Err(fault) => {
            let is_in_place = ahead.rest().len() == cursor.rest().len();
            refused(alloc, OrMemory::Refused(fault), is_in_place)
        }
    }
}

fn content_text<A: Allocator + Copy>(
    alloc: A,
    content: Content<'_>,
) -> Result<String<A>, AllocError> {
    let octets = hex::encode(alloc, content.bytes())?;
    let tag = content.tag();
    format!(in alloc; "{tag:02x} {octets}")
}

/// Prints the text, and then the remaining octets.
fn with_rest<A: Allocator + Copy>(
    alloc: A,
    text: Result<String<A>, AllocError>,
    rest: &[u8],
) -> Result<String<A>, AllocError> {
    let text = text?;
    if rest.is_empty() {
        return Ok(text);
    }
    let rest = hex::encode(alloc, rest)?;
    format!(in alloc; "{text} +{rest}")
}
