//! Answers about claims: the resources that they list, their copies, and what they leave of an issuer's set.
use rpki_as::blocks::AsBlocks;
use rpki_as::resources::AsResources;
use rpki_as::verify::OverclaimedAsResources;
use rpki_base::memory::OrMemory;
use rpki_chain::path::Overclaim;
use rpki_ipres::blocks::IpBlocks;
use rpki_ipres::overclaim::OverclaimedIpResources;
use rpki_ipres::resources::IpResources;
use std::alloc::{AllocError, Allocator};
use std::fmt;
use test_support::print::{self, cut_at};

/// Answers `claim QUESTION A` and `claim QUESTION A|B`.
pub fn answer<A: Allocator + Copy>(
    alloc: A,
    question: &str,
    operands: &str,
) -> Result<String<A>, AllocError> {
    match question {
        "as" | "copy_as" => of_as(alloc, question, operands),
        "ip" | "copy_ip" => of_ip(alloc, question, operands),
        "issued_as" => as_issued(alloc, operands),
        "issued_ip" => ip_issued(alloc, operands),
        "fault_as" => as_fault(alloc, operands),
        "fault_ip" | "fault_v4" | "fault_v6" => ip_fault(alloc, question, operands),
        _ => String::from_str(alloc, "no such command"),
    }
}

/// Prints a value, or the fault that was returned instead.
pub fn result_text<T: fmt::Display + Drop, E: fmt::Display + Drop, A: Allocator + Copy>(
    alloc: A,
    found: Result<T, OrMemory<E>>,
) -> Result<String<A>, AllocError> {
    match found {
        Ok(found) => print::value(alloc, found),
        Err(error) => print::refused(alloc, error),
    }
}

fn of_as<A: Allocator + Copy>(
    alloc: A,
    question: &str,
    list: &str,
) -> Result<String<A>, AllocError> {
    match AsBlocks::from_str(alloc, list) {
        Ok(set) => of_as_claim(alloc, question, &AsResources::blocks(set)),
        Err(error) => print::refused(alloc, error),
    }
}

/// Prints the resources that a claim lists, or the copy of the claim.
fn of_as_claim<A: Allocator + Copy>(
    alloc: A,
    question: &str,
    claim: &AsResources<A>,
) -> Result<String<A>, AllocError> {
    match question {
        "as" => result_text(alloc, claim.to_blocks()),
        _ => print::made(alloc, claim.clone()),
    }
}

fn of_ip<A: Allocator + Copy>(
    alloc: A,
    question: &str,
    list: &str,
) -> Result<String<A>, AllocError> {
    match IpBlocks::from_str(alloc, list) {
        Ok(set) => of_ip_claim(alloc, question, &IpResources::blocks(set)),
        Err(error) => print::refused(alloc, error),
    }
}

/// Prints the resources that a claim lists, or that its copy lists.
fn of_ip_claim<A: Allocator + Copy>(
    alloc: A,
    question: &str,
    claim: &IpResources<A>,
) -> Result<String<A>, AllocError> {
    match question {
        "ip" => listed(alloc, claim),
        _ => copy_listed(alloc, claim.clone()),
    }
}

fn copy_listed<A: Allocator + Copy>(
    alloc: A,
    copy: Result<IpResources<A>, AllocError>,
) -> Result<String<A>, AllocError> {
    match copy {
        Ok(copy) => listed(alloc, &copy),
        Err(error) => Err(error),
    }
}

/// Prints the addresses that a claim lists.
fn listed<A: Allocator + Copy>(alloc: A, claim: &IpResources<A>) -> Result<String<A>, AllocError> {
    match claim.to_blocks() {
        Ok(set) => print::value(alloc, set.as_v6()),
        Err(error) => print::refused(alloc, error),
    }
}

// ---- what claims leave of an issuer's set

/// Returns the mode for an overclaim with this name.
pub fn mode_named(word: &str) -> Overclaim {
    match word {
        "trim" => Overclaim::Trim,
        _ => Overclaim::Refuse,
    }
}

/// Answers `issued_as MODE ISSUER|CLAIM`.
fn as_issued<A: Allocator + Copy>(alloc: A, operands: &str) -> Result<String<A>, AllocError> {
    let (mode, lists) = cut_at(operands, ' ');
    let (issuer, claim) = cut_at(lists, '|');
    match AsBlocks::from_str(alloc, issuer) {
        Ok(issuer) => as_issued_by(alloc, mode_named(mode), &issuer, claim),
        Err(error) => print::refused(alloc, error),
    }
}

fn as_issued_by<A: Allocator + Copy>(
    alloc: A,
    mode: Overclaim,
    issuer: &AsBlocks<A>,
    list: &str,
) -> Result<String<A>, AllocError> {
    match AsBlocks::from_str(alloc, list) {
        Ok(set) => as_left(alloc, mode, issuer, &AsResources::blocks(set)),
        Err(error) => print::refused(alloc, error),
    }
}

fn as_left<A: Allocator + Copy>(
    alloc: A,
    mode: Overclaim,
    issuer: &AsBlocks<A>,
    claim: &AsResources<A>,
) -> Result<String<A>, AllocError> {
    result_text(alloc, issuer.verify_issued(alloc, claim, mode))
}

/// Answers `issued_ip MODE ISSUER|CLAIM`.
fn ip_issued<A: Allocator + Copy>(alloc: A, operands: &str) -> Result<String<A>, AllocError> {
    let (mode, lists) = cut_at(operands, ' ');
    let (issuer, claim) = cut_at(lists, '|');
    match IpBlocks::from_str(alloc, issuer) {
        Ok(issuer) => ip_issued_by(alloc, mode_named(mode), &issuer, claim),
        Err(error) => print::refused(alloc, error),
    }
}

fn ip_issued_by<A: Allocator + Copy>(
    alloc: A,
    mode: Overclaim,
    issuer: &IpBlocks<A>,
    list: &str,
) -> Result<String<A>, AllocError> {
    match IpBlocks::from_str(alloc, list) {
        Ok(set) => ip_left(alloc, mode, issuer, &IpResources::blocks(set)),
        Err(error) => print::refused(alloc, error),
    }
}

fn ip_left<A: Allocator + Copy>(
    alloc: A,
    mode: Overclaim,
    issuer: &IpBlocks<A>,
    claim: &IpResources<A>,
) -> Result<String<A>, AllocError> {
    match issuer.verify_issued(alloc, claim, mode) {
        Ok(set) => print::value(alloc, set.as_v6()),
        Err(error) => ip_refused(alloc, error),
    }
}

fn ip_refused<A: Allocator + Copy>(
    alloc: A,
    error: OrMemory<OverclaimedIpResources<A>>,
) -> Result<String<A>, AllocError> {
    match error {
        OrMemory::Refused(fault) => print::error(alloc, fault.v6()),
        OrMemory::Memory(error) => Err(error),
    }
}

// ---- faults

/// Prints the copy of the fault of a set whose issuer has nothing.
fn as_fault<A: Allocator + Copy>(alloc: A, list: &str) -> Result<String<A>, AllocError> {
    match AsBlocks::from_str(alloc, list) {
        Ok(set) => as_fault_below(alloc, &set, &AsResources::missing()),
        Err(error) => print::refused(alloc, error),
    }
}

fn as_fault_below<A: Allocator + Copy>(
    alloc: A,
    set: &AsBlocks<A>,
    issuer: &AsResources<A>,
) -> Result<String<A>, AllocError> {
    match set.verify_covered(alloc, issuer) {
        Ok(()) => String::from_str(alloc, "ok"),
        Err(error) => as_copy(alloc, error),
    }
}

fn as_copy<A: Allocator + Copy>(
    alloc: A,
    error: OrMemory<OverclaimedAsResources<A>>,
) -> Result<String<A>, AllocError> {
    match error {
        OrMemory::Refused(fault) => print::made(alloc, fault.clone()),
        OrMemory::Memory(error) => Err(error),
    }
}

/// Prints the copy of the fault of a set whose issuer has nothing, as one of a family if the question names it.
fn ip_fault<A: Allocator + Copy>(
    alloc: A,
    question: &str,
    list: &str,
) -> Result<String<A>, AllocError> {
    match IpBlocks::from_str(alloc, list) {
        Ok(set) => ip_fault_below(alloc, question, &set, &IpResources::missing()),
        Err(error) => print::refused(alloc, error),
    }
}

fn ip_fault_below<A: Allocator + Copy>(
    alloc: A,
    question: &str,
    set: &IpBlocks<A>,
    issuer: &IpResources<A>,
) -> Result<String<A>, AllocError> {
    match set.verify_covered(alloc, issuer) {
        Ok(()) => String::from_str(alloc, "ok"),
        Err(error) => ip_copy(alloc, question, error),
    }
}

fn ip_copy<A: Allocator + Copy>(
    alloc: A,
    question: &str,
    error: OrMemory<OverclaimedIpResources<A>>,
) -> Result<String<A>, AllocError> {
    match error {
        OrMemory::Refused(fault) => copy_of(alloc, question, fault),
        OrMemory::Memory(error) => Err(error),
    }
}

fn copy_of<A: Allocator + Copy>(
    alloc: A,
    question: &str,
    fault: OverclaimedIpResources<A>,
) -> Result<String<A>, AllocError> {
    match question {
        "fault_v4" => v4_copy(alloc, fault),
        "fault_v6" => print::made(alloc, fault.v6().clone()),
        _ => either_copy(alloc, fault.clone()),
    }
}

fn v4_copy<A: Allocator + Copy>(
    alloc: A,
    fault: OverclaimedIpResources<A>,
) -> Result<String<A>, AllocError> {
    if fault.excess().is_whole_v4() {
        print::made(alloc, fault.v4().clone())
    } else {
        String::from_str(alloc, "no whole addresses")
    }
}

fn either_copy<A: Allocator + Copy>(
    alloc: A,
    copy: Result<OverclaimedIpResources<A>, AllocError>,
) -> Result<String<A>, AllocError> {
    match copy {
        Ok(copy) => print::value(alloc, copy.excess().as_v6()),
        Err(error) => Err(error),
    }
}
