//! The VRPs of a file.
use hex::FromHexError;
use roa_origin::Vrp;
use roa_vrps::read_vrps;
use std::alloc::{AllocError, Allocator};
use test_support::print::{append, refused};

/// Answers `vrps TEXT`, in which `|` is the end of a line.
pub fn of_text<A: Allocator + Copy>(alloc: A, text: &str) -> Result<String<A>, AllocError> {
    let octets = with_line_ends(alloc, text)?;
    answer(alloc, &octets)
}

/// Returns the octets of a text in which `|` is the end of a line.
pub fn with_line_ends<A: Allocator + Copy>(alloc: A, text: &str) -> Result<Vec<u8, A>, AllocError> {
    let mut octets = Vec::new(alloc);
    for octet in text.as_bytes() {
        octets.push(if *octet == b'|' { b'\n' } else { *octet })?;
    }
    Ok(octets)
}

/// Answers `octets HEX`.
pub fn of_octets<A: Allocator + Copy>(alloc: A, text: &str) -> Result<String<A>, AllocError> {
    match hex::decode(alloc, text) {
        Ok(octets) => answer(alloc, &octets),
        Err(FromHexError::OutOfMemory) => Err(AllocError),
        Err(_) => String::from_str(alloc, "no hexadecimal"),
    }
}

fn answer<A: Allocator + Copy>(alloc: A, file: &[u8]) -> Result<String<A>, AllocError> {
    match read_vrps(alloc, file) {
        Ok(vrps) => listed(alloc, &vrps),
        Err(fault) => refused(alloc, fault),
    }
}

/// Returns VRPs as a list.
pub fn listed<A: Allocator + Copy>(alloc: A, vrps: &[Vrp]) -> Result<String<A>, AllocError> {
    let mut list = String::new(alloc);
    for (prefix, asn) in vrps {
        append(&mut list, ", ", *prefix)?;
        append(&mut list, " ", *asn)?;
    }
    Ok(list)
}
