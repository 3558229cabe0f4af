//! The links of a table's VRPs, by which a lookup gets from a prefix to the shorter ones that cover it.
ghost use Rattle.std.specs.Prelude.{◌≡◌, ◌-◌, ◌^◌, ◌<◌, ◌≤◌, IfOk, length, slice_index_or};
ghost use Rattle.rpki_prefix.specs.Values.{IsFamilyPrefix};
ghost use Rattle.roa_origin.specs.Links.{AreLinks, AreUpTo, IsInOrder, IsLink, IsTable, NoneCovers};
ghost use Rattle.roa_origin.specs.Vrps.{CoversRoute, Vrp};

use crate::packed_vrp::PackedVrp;
use crate::route_key::RouteKey;
use std::alloc::{AllocError, Allocator};

/// The maximum number of VRPs in a table. With this limit its links and starts take half the memory.
const MOST: usize = 0xffff_ffff;

/// The link of a VRP to shorter prefixes.
///
/// `first` is the index of the first VRP with the same prefix. `back` is the index, plus one, of the nearest earlier
/// VRP of another prefix that covers this one, or 0 if no VRP does.
#[derive(Clone, Copy)]
pub(crate) struct Link {
    pub(crate) first: u32,
    pub(crate) back: u32,
}

/// Returns how many of the first `from` VRPs are left after the last ones that don't cover the route are dropped.
///
/// Each step leads to a prefix that covers the one before it. So the call compares the last VRP with the route, and
/// after that compares lengths only. Each step gets to a shorter prefix, so there are at most 129 steps.
pub(crate) fn nearest(vrps: &[PackedVrp], links: &[Link], from: usize, route: &RouteKey) -> usize
    requires in_order { IsInOrder vrps.now }
    requires is_prefix { IsFamilyPrefix route.now.0 }
    requires up_to { AreUpTo vrps.now from route.now.0 }
    requires linked { AreLinks vrps.now links.now }
    requires within { from ≤ length links.now }
    requires as_many { length links.now ≤ length vrps.now }
    ensures back { result ≤ from }
    ensures none { NoneCovers vrps.now route.now.0 result from }
    ensures found { (d : Vrp) → 0 < result →
        CoversRoute route.now.0 (slice_index_or vrps.now (result - 1) d) }
{
    if from == 0 {
        return 0;
    }
    let limit = vrps[from - 1].covering_limit(route);
    let mut at = from;
    while at > 0 && !vrps[at - 1].is_shorter_than(limit) {
        at = links[at - 1].back as usize;
    }
    at
}

/// Returns the link of the VRP at index `at`, by the links of the earlier VRPs.
fn next_link(vrps: &[PackedVrp], links: &[Link], at: usize) -> Link
    requires in_order { IsInOrder vrps.now }
    requires within { at < length vrps.now }
    requires few { length vrps.now < 2 ^ 32 }
    requires as_many { length links.now ≡ at }
    requires linked { AreLinks vrps.now links.now }
    ensures { (d : Vrp) → IsLink vrps.now at (slice_index_or vrps.now at d) result }
{
    if at == 0 {
        return Link { first: 0, back: 0 };
    }
    let vrp = &vrps[at];
    if vrps[at - 1].has_prefix_of(vrp) {
        return links[at - 1];
    }
    let back = nearest(vrps, links, at, &vrp.route_key());
    Link {
        first: at as u32,
        back: back as u32,
    }
}

/// Returns the link of each VRP.
///
/// # Errors
///
/// [`AllocError`] if an allocation fails, or if there are more than [`MOST`] VRPs.
pub(crate) fn links<A: Allocator>(alloc: A, vrps: &[PackedVrp]) -> Result<Vec<Link, A>, AllocError>
    requires { IsInOrder vrps.now }
    ensures links { IfOk result (λ links. IsTable vrps.now links.items) }
    ensures few { IfOk result (λ _. length vrps.now < 2 ^ 32) }
{
    if vrps.len() > MOST {
        return Err(AllocError);
    }
    let mut links = Vec::with_capacity(alloc, vrps.len())?;
    for at in 0..vrps.len() {
        let link = next_link(vrps, links.as_slice(), at);
        links.push(link)?;
    }
    Ok(links)
}
