//! Certificates: the claims of their extensions, and the resources that they leave of an issuer's.
//!
//! A certificate is `WORD HEX HEX`: a word, the AS identifiers and the IP address blocks. The word is `refuse` or
//! `trim` for overclaimed resources. It begins with `canonical-` if only canonical octets are accepted. An absent
//! extension is `-`.
use crate::claims::{mode_named, result_text};
use crate::triples::read as set_of;
use hex::FromHexError;
use rpki_extensions::anchor::anchor_set;
use rpki_extensions::encoding::Encoding;
use rpki_extensions::extensions::{Claims, Extensions};
use rpki_extensions::issued::verified_octets;
use rpki_extensions::path::{verified_below, verified_path};
use rpki_extensions::write::{
    write_as_claim, write_as_extension, write_ip_claims, write_ip_extension,
};
use rpki_resources::repository::resources::{Overclaim, ResourceSet};
use std::alloc::{AllocError, Allocator};
use test_support::print::{cut_at, refused};

/// Answers the lines about certificates. Their certificates are between `|`.
///
/// - `rewritten CERTIFICATE`: the claims, written again
/// - `anchor_set CERTIFICATE`: the resources of a trust anchor
/// - `verified_below ANCHOR | CERTIFICATE | ..`: what a path leaves
/// - `verified_octets A ; B ; C | CERTIFICATE`: what a certificate leaves of an issuer's three lists
/// - `verified_path A ; B ; C | CERTIFICATE | ..`: what a path leaves of them
pub fn answer<A: Allocator + Copy>(
    alloc: A,
    command: &str,
    operands: &str,
) -> Result<String<A>, AllocError> {
    match command {
        "verified_octets" | "verified_path" => {
            let (lists, path) = cut_at(operands, '|');
            of_path(alloc, command, lists, path)
        }
        _ => of_path(alloc, command, "", operands),
    }
}

fn of_path<A: Allocator + Copy>(
    alloc: A,
    command: &str,
    lists: &str,
    path: &str,
) -> Result<String<A>, AllocError> {
    let certificates = read(alloc, path)?;
    of_certificates(alloc, command, lists, &certificates)
}

fn of_certificates<A: Allocator + Copy>(
    alloc: A,
    command: &str,
    lists: &str,
    certificates: &[Certificate<A>],
) -> Result<String<A>, AllocError> {
    let mut list = Vec::with_capacity(alloc, certificates.len())?;
    for certificate in certificates {
        list.push(certificate.extensions())?;
    }
    of_extensions(alloc, command, lists, &list)
}

fn of_extensions<A: Allocator + Copy>(
    alloc: A,
    command: &str,
    lists: &str,
    certificates: &[Extensions<'_>],
) -> Result<String<A>, AllocError> {
    match (command, certificates.split_first()) {
        ("rewritten", Some((certificate, _))) => rewritten(alloc, certificate),
        ("anchor_set", Some((certificate, _))) => result_text(
            alloc,
            anchor_set(alloc, certificate),
        ),
        ("verified_below", Some((anchor, path))) => {
            result_text(alloc, verified_below(alloc, anchor, path))
        }
        _ => of_issuer(alloc, command, lists, certificates),
    }
}

fn of_issuer<A: Allocator + Copy>(
    alloc: A,
    command: &str,
    lists: &str,
    certificates: &[Extensions<'_>],
) -> Result<String<A>, AllocError> {
    match set_of(alloc, lists) {
        Ok(issuer) => left_of(alloc, command, &issuer, certificates),
        Err(error) => refused(alloc, error),
    }
}

fn left_of<A: Allocator + Copy>(
    alloc: A,
    command: &str,
    issuer: &ResourceSet<A>,
    certificates: &[Extensions<'_>],
) -> Result<String<A>, AllocError> {
    match (command, certificates.first()) {
        ("verified_octets", Some(certificate)) => {
            result_text(alloc, verified_octets(alloc, issuer, certificate))
        }
        _ => result_text(alloc, verified_path(alloc, issuer, certificates)),
    }
}

// ---- reading

/// The octets of a certificate's extensions, and how to read them.
#[derive(Drop)]
struct Certificate<A: Allocator> {
    numbers: Option<Vec<u8, A>>,
    addresses: Option<Vec<u8, A>>,
    encoding: Encoding,
    mode: Overclaim,
}

impl<A: Allocator> Certificate<A> {
    fn extensions(&self) -> Extensions<'_> {
        Extensions {
            numbers: slice_of(&self.numbers),
            addresses: slice_of(&self.addresses),
            encoding: self.encoding,
            mode: self.mode,
        }
    }
}

fn slice_of<A: Allocator>(octets: &Option<Vec<u8, A>>) -> Option<&[u8]> {
    match octets {
        Some(octets) => Some(octets.as_slice()),
        None => None,
    }
}

/// Returns the certificates between the `|` of a path.
fn read<A: Allocator + Copy>(alloc: A, path: &str) -> Result<Vec<Certificate<A>, A>, AllocError> {
    let mut certificates = Vec::new(alloc);
    for text in path.split('|') {
        if !text.is_empty() {
            certificates.push(certificate_of(alloc, text.trim())?)?;
        }
    }
    Ok(certificates)
}

fn certificate_of<A: Allocator + Copy>(alloc: A, text: &str) -> Result<Certificate<A>, AllocError> {
    let (word, extensions) = cut_at(text, ' ');
    let (numbers, addresses) = cut_at(extensions, ' ');
    let (encoding, mode) = match word.strip_prefix("canonical-") {
        Some(mode) => (Encoding::Canonical, mode_named(mode)),
        None => (Encoding::Any, mode_named(word)),
    };
    let numbers = octets(alloc, numbers)?;
    let addresses = octets(alloc, addresses)?;
    Ok(Certificate {
        numbers,
        addresses,
        encoding,
        mode,
    })
}

/// Returns the octets of a text in hexadecimal, and `None` for any other text, such as `-`.
fn octets<A: Allocator>(alloc: A, text: &str) -> Result<Option<Vec<u8, A>>, AllocError> {
    match hex::decode(alloc, text) {
        Ok(octets) => Ok(Some(octets)),
        Err(FromHexError::OutOfMemory) => Err(AllocError),
        Err(_) => Ok(None),
    }
}

// ---- writing

/// Answers `written A ; B ; C` with the octets of both extensions.
pub fn written<A: Allocator + Copy>(alloc: A, lists: &str) -> Result<String<A>, AllocError> {
    match set_of(alloc, lists) {
        Ok(set) => written_of(alloc, &set),
        Err(error) => refused(alloc, error),
    }
}

fn written_of<A: Allocator + Copy>(
    alloc: A,
    set: &ResourceSet<A>,
) -> Result<String<A>, AllocError> {
    let numbers = octets_text(alloc, write_as_extension(alloc, set))?;
    let addresses = octets_text(alloc, write_ip_extension(alloc, set))?;
    format!(in alloc; "{numbers} {addresses}")
}

fn rewritten<A: Allocator + Copy>(
    alloc: A,
    certificate: &Extensions<'_>,
) -> Result<String<A>, AllocError> {
    match certificate.claims(alloc) {
        Ok(claims) => claims_text(alloc, &claims),
        Err(error) => refused(alloc, error),
    }
}

fn claims_text<A: Allocator + Copy>(alloc: A, claims: &Claims<A>) -> Result<String<A>, AllocError> {
    let numbers = octets_text(alloc, write_as_claim(alloc, &claims.asn))?;
    let addresses = octets_text(alloc, write_ip_claims(alloc, &claims.ipv4, &claims.ipv6))?;
    format!(in alloc; "{numbers} {addresses}")
}

/// Prints the octets of an extension, and `-` if it is absent.
fn octets_text<A: Allocator + Copy>(
    alloc: A,
    octets: Result<Option<Vec<u8, A>>, AllocError>,
) -> Result<String<A>, AllocError> {
    match octets {
        Ok(Some(octets)) => hex::encode(alloc, octets.as_slice()),
        Ok(None) => String::from_str(alloc, "-"),
        Err(error) => Err(error),
    }
}
