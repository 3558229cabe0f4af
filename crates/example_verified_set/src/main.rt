//! The program `example_verified_set`: prints the resources that an issuer verifies of a certificate, or the reason why
//! it refuses the certificate.
//!
//! Its arguments are:
//!
//! - the issuer's AS numbers, IPv4 addresses and IPv6 addresses, each a list;
//! - two files with the values of the certificate extensions: AS identifiers and IP address blocks;
//! - a mode.
//!
//! The modes `refuse` and `trim` say what happens to overclaimed resources. The modes `canonical-refuse` and
//! `canonical-trim` also reject encodings that aren't canonical.
#![tactic(auto)]

use rpki_extensions::encoding::Encoding;
use rpki_extensions::extensions::Extensions;
use rpki_extensions::issued::verified_octets;
use rpki_resources::OrMemory;
use rpki_resources::repository::resources::{Overclaim, ResourceSet};
use std::process::ExitCode;
use std::{env, fs};

fn main(rt: HostRuntime) -> anyhow::Result<ExitCode> {
    let words = env::args(&rt)?.collect::<Vec<String>>(rt.alloc())?;
    let [_, asn, ipv4, ipv6, numbers, addresses, mode] = words.as_slice() else {
        anyhow::bail!("arguments: ASN-LIST IPV4-LIST IPV6-LIST NUMBERS-FILE ADDRESSES-FILE MODE");
    };
    let Some(reading) = reading_named(mode) else {
        anyhow::bail!("modes: refuse, trim, canonical-refuse, canonical-trim");
    };
    let issuer = ResourceSet::from_strs(rt.alloc(), asn, ipv4, ipv6)?;
    verify_files(&rt, &issuer, [numbers, addresses], reading)
}

/// Returns which encodings are accepted and what happens to overclaimed resources, by the name of a mode.
fn reading_named(mode: &str) -> Option<(Encoding, Overclaim)> {
    match mode {
        "refuse" => Some((Encoding::Any, Overclaim::Refuse)),
        "trim" => Some((Encoding::Any, Overclaim::Trim)),
        "canonical-refuse" => Some((Encoding::Canonical, Overclaim::Refuse)),
        "canonical-trim" => Some((Encoding::Canonical, Overclaim::Trim)),
        _ => None,
    }
}

/// Prints the resources that the issuer verifies of the octets in two files.
fn verify_files(
    rt: &HostRuntime,
    issuer: &ResourceSet,
    files: [&str; 2],
    (encoding, mode): (Encoding, Overclaim),
) -> anyhow::Result<ExitCode> {
    let numbers = fs::read(rt, files[0])?;
    let addresses = fs::read(rt, files[1])?;
    let certificate = Extensions {
        numbers: Some(&numbers),
        addresses: Some(&addresses),
        encoding,
        mode,
    };
    verify(rt, issuer, &certificate)
}

/// Prints the resources that the issuer verifies of a certificate, or the whole reason why it refuses the certificate.
///
/// An [`anyhow::Error`] would keep only the first 120 bytes of the reason.
fn verify(
    rt: &HostRuntime,
    issuer: &ResourceSet,
    certificate: &Extensions,
) -> anyhow::Result<ExitCode> {
    match verified_octets(rt.alloc(), issuer, certificate) {
        Ok(set) => {
            println!(rt; "{set}")?;
            Ok(ExitCode::SUCCESS)
        }
        Err(OrMemory::Refused(reason)) => {
            eprintln!(rt; "Error: {reason}")?;
            Ok(ExitCode::FAILURE)
        }
        Err(OrMemory::Memory(error)) => Err(error.into()),
    }
}
