//! The memory that the readers and writers of DER request.
use crate::claims::Families;
use crate::values::{Reader, Value};
use hex::FromHexError;
use rpki_as::blocks::AsBlocks;
use rpki_as::resources::AsResources;
use rpki_der::Cursor;
use rpki_ipres::blocks::IpBlocks;
use rpki_ipres::resources::IpResources;
use std::alloc::{AllocError, Global};
use test_support::asked::Asked;
use test_support::print::cut_at;
use test_support::{Plan, Refusing};

/// Answers `requests take READER HEX` and `requests written READER HEX`.
///
/// A value that was read is alive until the counts are read.
pub fn answer(alloc: Global, operands: &str) -> Result<String, AllocError> {
    let (call, rest) = cut_at(operands, ' ');
    let (name, text) = cut_at(rest, ' ');
    let Some(reader) = Reader::named(name) else {
        return String::from_str(alloc, "no such reader of octets");
    };
    match hex::decode(alloc, text) {
        Ok(octets) => of_reader(alloc, call, reader, Cursor::new(&octets)),
        Err(FromHexError::OutOfMemory) => Err(AllocError),
        Err(_) => String::from_str(alloc, "no hexadecimal"),
    }
}

fn of_reader(
    alloc: Global,
    call: &str,
    reader: Reader,
    cursor: Cursor<'_>,
) -> Result<String, AllocError> {
    let counting = &Refusing::new(alloc, Plan::RefuseNone);
    match reader {
        Reader::AsBlocks => of_value::<AsBlocks<&Refusing>>(alloc, counting, call, (), cursor),
        Reader::IpBlocks(family) => {
            of_value::<IpBlocks<&Refusing>>(alloc, counting, call, family, cursor)
        }
        Reader::AsResources => {
            of_value::<AsResources<&Refusing>>(alloc, counting, call, (), cursor)
        }
        Reader::IpResources(family) => {
            of_value::<IpResources<&Refusing>>(alloc, counting, call, family, cursor)
        }
        Reader::Families => of_value::<Families<&Refusing>>(alloc, counting, call, (), cursor),
        _ => String::from_str(alloc, "no such reader of lists"),
    }
}

fn of_value<'a, V: Value<&'a Refusing>>(
    alloc: Global,
    counting: &'a Refusing,
    call: &str,
    reader: V::Reader,
    cursor: Cursor<'_>,
) -> Result<String, AllocError> {
    let mut ahead = cursor;
    let before = Asked::of(counting);
    match V::take(counting, reader, &mut ahead) {
        Ok(_) if call == "take" => before.since(alloc, counting),
        Ok(value) => of_written(alloc, counting, &value),
        Err(_) => String::from_str(alloc, "refused"),
    }
}

fn of_written<'a, V: Value<&'a Refusing>>(
    alloc: Global,
    counting: &'a Refusing,
    value: &V,
) -> Result<String, AllocError> {
    let before = Asked::of(counting);
    let mut output = Vec::new(counting);
    value.encode(&mut output)?;
    before.since(alloc, counting)
}
