// Sets that are checked against their issuer. If the issuer has all of a set, no request for memory is made.
use crate::checks::holds;
use rpki_as::blocks::AsBlocks;
use rpki_as::resources::AsResources;
use rpki_ipres::blocks::IpBlocks;
use rpki_ipres::resources::IpResources;
use test_support::{Plan, Refusing};

/// Returns the claim of a list, or `None` if the list is invalid.
fn listed<'a>(refusing: &'a Refusing, list: &str) -> Option<AsResources<&'a Refusing>> {
    match AsBlocks::from_str(refusing, list) {
        Ok(set) => Some(AsResources::blocks(set)),
        Err(_) => None,
    }
}

fn claim<'a>(refusing: &'a Refusing, text: &str) -> Option<AsResources<&'a Refusing>> {
    match text {
        "inherit" => Some(AsResources::inherit()),
        "missing" => Some(AsResources::missing()),
        list => listed(refusing, list),
    }
}

// A set, and the claim of an issuer that has all of it.
const COVERED: [(&str, &str); 4] = [
    ("AS5", "inherit"),
    ("", "missing"),
    ("AS2-AS3", "AS1-AS4"),
    ("", "AS1-AS4"),
];

fn covers<'a>(
    refusing: &'a Refusing,
    issuer: &AsResources<&'a Refusing>,
    own: &AsBlocks<&'a Refusing>,
) -> bool {
    let asked = refusing.asked();
    own.verify_covered(refusing, issuer).is_ok() && refusing.asked() == asked
}

fn is_set_covered<'a>(refusing: &'a Refusing, own: &AsBlocks<&'a Refusing>, text: &str) -> bool {
    match claim(refusing, text) {
        Some(issuer) => covers(refusing, &issuer, own),
        None => false,
    }
}

fn is_covered(refusing: &Refusing, list: &str, issuer: &str) -> bool {
    match AsBlocks::from_str(refusing, list) {
        Ok(own) => is_set_covered(refusing, &own, issuer),
        Err(_) => false,
    }
}

#[test]
fn sets_are_covered(rt: HostRuntime) {
    let refusing = Refusing::new(rt.alloc(), Plan::RefuseNone);
    for (list, issuer) in &COVERED {
        holds(&rt, is_covered(&refusing, list, issuer));
    }
}

fn ip_listed<'a>(refusing: &'a Refusing, list: &str) -> Option<IpResources<&'a Refusing>> {
    match IpBlocks::from_str(refusing, list) {
        Ok(set) => Some(IpResources::blocks(set)),
        Err(_) => None,
    }
}

fn ip_claim<'a>(refusing: &'a Refusing, text: &str) -> Option<IpResources<&'a Refusing>> {
    match text {
        "inherit" => Some(IpResources::inherit()),
        "missing" => Some(IpResources::missing()),
        list => ip_listed(refusing, list),
    }
}

// A set of addresses, and the claim of an issuer that has all of it.
const IP_COVERED: [(&str, &str); 4] = [
    ("10.0.0.0/24", "inherit"),
    ("", "missing"),
    ("10.0.0.0/25", "10.0.0.0/24"),
    ("2001:db8:8000::/33", "2001:db8::/32"),
];

fn covers_addresses<'a>(
    refusing: &'a Refusing,
    issuer: &IpResources<&'a Refusing>,
    own: &IpBlocks<&'a Refusing>,
) -> bool {
    let asked = refusing.asked();
    own.verify_covered(refusing, issuer).is_ok() && refusing.asked() == asked
}

fn is_ip_set_covered<'a>(refusing: &'a Refusing, own: &IpBlocks<&'a Refusing>, text: &str) -> bool {
    match ip_claim(refusing, text) {
        Some(issuer) => covers_addresses(refusing, &issuer, own),
        None => false,
    }
}

fn is_ip_covered(refusing: &Refusing, list: &str, issuer: &str) -> bool {
    match IpBlocks::from_str(refusing, list) {
        Ok(own) => is_ip_set_covered(refusing, &own, issuer),
        Err(_) => false,
    }
}

#[test]
fn sets_of_addresses_are_covered(rt: HostRuntime) {
    let refusing = Refusing::new(rt.alloc(), Plan::RefuseNone);
    for (list, issuer) in &IP_COVERED {
        holds(&rt, is_ip_covered(&refusing, list, issuer));
    }
}
