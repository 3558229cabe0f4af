//! Values that meet each precondition of this crate, with an answer that is not out of memory.
use crate::{addresses, claims};
use rpki_as::AsResources;
use rpki_chain::path::{Overclaim, Step};
use rpki_der::family::Ipv4Family;
use rpki_family::blocks::FamilyBlocks;
use rpki_ipres::IpResources;
use rpki_text::memory::OrMemory;
use std::alloc::Global;

/// Returns the printed text of a path of one claim, or None if out of memory.
fn path(alloc: Global) -> Option<String> {
    rpki_ipres::laws::claims_of_families(); // so that the proof sees that a claim on IPv4 is whole
    let root = FamilyBlocks::<Ipv4Family>::from_str(alloc, "10.0.0.0/8").ok()?;
    let listed = FamilyBlocks::<Ipv4Family>::from_str(alloc, "10.0.0.0-10.0.0.9").ok()?;
    let steps = [Step {
        claim: listed.to_ip_resources().ok()?,
        mode: Overclaim::Refuse,
    }];
    match addresses::path(alloc, &root, &steps) {
        Ok((Err(OrMemory::Memory(_)), _)) => None,
        Ok((_, text)) => Some(text),
        Err(_) => None,
    }
}

/// Returns the number of octets of AS resources that are read back, or None if out of memory.
fn numbers(alloc: Global) -> Option<usize> {
    let claim = AsResources::inherit();
    match claims::numbers_read_back(alloc, &claim, b"") {
        Ok((_, octets, (Ok(_), Ok(_), Ok(_)))) => Some(octets.len()),
        _ => None,
    }
}

/// Returns the number of octets of claims on addresses that are read back, or None if out of memory.
fn families(alloc: Global) -> Option<usize> {
    let v4 = IpResources::inherit();
    let v6 = IpResources::missing();
    match claims::addresses_read_back(alloc, &v4, &v6, b"") {
        Ok((octets, Ok(_), Ok(_))) => Some(octets.len()),
        _ => None,
    }
}

#[test]
fn each_premise_is_met(rt: HostRuntime) {
    let text = path(rt.alloc());
    assert!(rt; text.is_some_and(|text| text.as_str() == "10.0.0.0-10.0.0.9"));
    // SEQUENCE, [0], NULL (RFC 3779, 3.2.3.3)
    assert!(rt; numbers(rt.alloc()) == Some(6));
    // SEQUENCE, SEQUENCE, OCTET STRING of two octets, NULL (RFC 3779, 2.2.3)
    assert!(rt; families(rt.alloc()) == Some(10));
}
