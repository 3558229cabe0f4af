// Single values: the number of the error of what a reader refuses.
use crate::checks::same;
use rpki_der::{Cursor, DerError};

/// A reader of a value.
#[derive(Clone, Copy)]
enum Reader {
    BitString,
    Null,
    Octets,
    Sequence,
}

/// Returns the number of the error, and 0 without error.
fn number_of<T: Drop>(taken: Result<T, DerError>) -> u8 {
    match taken {
        Ok(_) => 0,
        Err(fault) => fault.number(),
    }
}

fn fault(reader: Reader, octets: &[u8]) -> u8 {
    let mut cursor = Cursor::new(octets);
    match reader {
        Reader::BitString => number_of(cursor.take_bit_string()),
        Reader::Null => number_of(cursor.take_null()),
        Reader::Octets => number_of(cursor.take_octets()),
        Reader::Sequence => number_of(cursor.take_sequence()),
    }
}

// Octets, and the number of their error.
const FAULTS: [(Reader, &[u8], u8); 22] = [
    (Reader::BitString, b"\x03\x00", 5),
    (Reader::BitString, b"\x03\x01\x01", 5),
    (Reader::BitString, b"\x03\x01\x07", 5),
    (Reader::BitString, b"\x03\x02\x08\x00", 5),
    (Reader::BitString, b"\x03\x02\xff\x00", 5),
    (Reader::BitString, b"\x23\x02\x00\x0a", 2),
    (Reader::BitString, b"\x02\x01\x05", 2),
    (Reader::BitString, b"\x03\x02\x00", 1),
    (Reader::Null, b"\x05\x00", 0),
    (Reader::Null, b"\x05\x01\x00", 6),
    (Reader::Null, b"\x04\x00", 2),
    (Reader::Null, b"\x05", 1),
    (Reader::Null, b"\x05\x81\x00", 3),
    (Reader::Null, b"", 1),
    (Reader::Octets, b"\x04\x00", 0),
    (Reader::Octets, b"\x24\x00", 2),
    (Reader::Octets, b"\x04\x01", 1),
    (Reader::Sequence, b"\x30\x00", 0),
    (Reader::Sequence, b"\x30\x02\x05\x00", 0),
    (Reader::Sequence, b"\x31\x00", 2),
    (Reader::Sequence, b"\x10\x00", 2),
    (Reader::Sequence, b"\x30\x01", 1),
];

#[test]
fn faults_of_values(rt: HostRuntime) {
    for (reader, octets, number) in &FAULTS {
        same(&rt, fault(*reader, octets), *number);
    }
}
