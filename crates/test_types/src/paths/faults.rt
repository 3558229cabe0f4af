// The three errors that are called `FromStrError`, by their output for one text.
use rpki_base::memory::OrMemory;
use rpki_resources::repository::resources::{AsBlock, IpBlock, ResourceSet, asres, ipres, set};
use std::alloc::Global;
use std::process::Abort;
use std::str::FromStr;
use test_support::prints;

fn holds(rt: &impl Abort, is_so: bool) {
    assert!(rt; is_so);
}

fn of_as_blocks() -> Result<AsBlock, asres::FromStrError> {
    AsBlock::from_str("AS1-")
}

fn of_addresses() -> Result<IpBlock, ipres::FromStrError> {
    IpBlock::from_str("10.0.0.5-10.0.0.4")
}

fn of_sets(alloc: Global) -> Result<ResourceSet, OrMemory<set::FromStrError>> {
    ResourceSet::from_strs(alloc, "AS1-", "x", "")
}

fn as_fault_prints(alloc: Global) -> bool {
    match of_as_blocks() {
        Err(fault) => prints(alloc, &fault, "Bad AS range. Expected format: AS#-AS#") == Ok(true),
        Ok(_) => false,
    }
}

fn ip_fault_prints(alloc: Global) -> bool {
    match of_addresses() {
        Err(fault) => prints(alloc, &fault, "invalid address range") == Ok(true),
        Ok(_) => false,
    }
}

fn set_fault_prints(alloc: Global) -> bool {
    let text = "cannot parse ASN resources: Bad AS range. Expected format: AS#-AS#";
    match of_sets(alloc) {
        Err(fault) => prints(alloc, &fault, text) == Ok(true),
        Ok(_) => false,
    }
}

#[test]
fn texts_are_refused(rt: HostRuntime) {
    holds(&rt, as_fault_prints(rt.alloc()));
    holds(&rt, ip_fault_prints(rt.alloc()));
    holds(&rt, set_fault_prints(rt.alloc()));
}
