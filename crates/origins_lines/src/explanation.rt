//! Explains the outcome for a route by the VRPs that cover it.
ghost use Rattle.std.specs.Prelude.{◌≡◌, ◌↔◌, ◌+◌, ◌≤◌, ◌++◌, ℕ, List, IsTrue, OnOk, codes, length, take};
ghost use Rattle.std.specs.String.{string_bytes};
ghost use Rattle.roa_origin.specs.Tables.{as_sent};
ghost use Rattle.roa_origin.specs.Vrps.{IsLawfulVrp};
ghost use Rattle.origins_lines.specs.Begun.{IsLookedUp};
ghost use Rattle.origins_lines.specs.Outcomes.{asked_asn};
ghost use Rattle.origins_lines.specs.Explanations.{IsReason, IsNextText, IsExplanationText, asn_key, item_text, max_length_key, object_start, reason_and_vrp_text, reason_text, vrp_object};

use crate::begun::AskedRoute;
use crate::outcome::asked_asn;
use roa_origin::Vrp;
use roa_routes::buffer::{
    MAX_ASN, MAX_PREFIX, push_before, put_all, put_asn, put_dash_and_len, put_prefix,
};
use rpki_addr::addr::print::{put, put_octet};
use rpki_base::Asn;
use rpki_prefix::Prefix;
use std::alloc::{AllocError, Allocator};

/// The relation of a VRP that covers a route to the route (RFC 6811, 2).
#[derive(Clone, Copy, Debug, PartialEq, Eq)]
pub enum Reason {
    /// The VRP matches the route.
    Match,
    /// The VRP has the AS of the route, and the route's prefix is longer than its maximum length.
    Length,
    /// The VRP has another AS, or AS0. The length of the route is not considered.
    As,
}

/// The form in which the VRPs that cover a route are printed.
#[derive(Clone, Copy, Debug, PartialEq, Eq)]
pub enum Form {
    /// Words, each after a space, for example ` match:192.0.2.0/23-24:AS64496`.
    Words,
    /// Objects of JSON (RFC 8259), with commas between them.
    Json,
}

/// Returns the relation of a VRP that covers a route to the route.
fn reason_for(route: Prefix, asn: Asn, vrp: &Vrp) -> Reason
    ensures { IsReason route asn vrp.now result }
{
    if asn == Asn::MIN || vrp.1 != asn {
        return Reason::As;
    }
    if route.len() <= vrp.0.resolved_max_len() {
        Reason::Match
    } else {
        Reason::Length
    }
}

/// Appends each VRP that covers a route, once, with its relation to the route.
pub(crate) fn push_why<A: Allocator>(
    text: &mut String<A>,
    form: Form,
    asked: &AskedRoute<'_>,
) -> Result<(), AllocError>
    requires { IsLookedUp asked.now }
    ensures { OnOk result ((why : List ℕ)
        × IsExplanationText form asked.now.route.prefix (asked_asn asked.now.route.origin)
        asked.now.lookup.vrps why
        × (string_bytes text.new ≡ string_bytes text.old ++ why)) }
{
    let route = asked.route.prefix;
    let asn = asked_asn(asked.route.origin);
    route.recall_invariant();
    let mut last = None;
    for vrp in asked.lookup.covering() {
        vrp.0.recall_invariant();
        vrp.1.recall_invariant();
        let reason = reason_for(route, asn, &vrp);
        push_next(text, form, reason, &last, &vrp)?;
        last = Some(vrp);
    }
    Ok(())
}

/// Appends a VRP with its relation to a route. Appends nothing if the VRP is the same, as it is sent, as `last`, the
/// VRP before it.
fn push_next<A: Allocator>(
    text: &mut String<A>,
    form: Form,
    reason: Reason,
    last: &Option<Vrp>,
    vrp: &Vrp,
) -> Result<(), AllocError>
    requires { IsLawfulVrp vrp.now }
    ensures { OnOk result ((more : List ℕ) × IsNextText form reason last.now vrp.now more
        × (string_bytes text.new ≡ string_bytes text.old ++ more)) }
{
    match last {
        Some(before) if is_same(before, vrp) => Ok(()),
        Some(_) => push_item(text, form, false, reason, vrp),
        None => push_item(text, form, true, reason, vrp),
    }
}

/// Returns whether two VRPs are the same, as they are sent.
fn is_same(one: &Vrp, other: &Vrp) -> bool
    ensures { IsTrue result ↔ (as_sent one.now ≡ as_sent other.now) }
{
    one.1 == other.1
        && one.0.prefix() == other.0.prefix()
        && one.0.resolved_max_len() == other.0.resolved_max_len()
}

/// The maximum number of bytes of the text of a VRP, which is that of an object after a comma. It has texts between the
/// values, a reason of six letters, a prefix, a length of three digits and an AS number.
const MAX_ITEM: usize = 1 + 48 + 6 + MAX_PREFIX + 3 + MAX_ASN;

/// Appends a VRP with its relation to a route.
fn push_item<A: Allocator>(
    text: &mut String<A>,
    form: Form,
    is_first: bool,
    reason: Reason,
    vrp: &Vrp,
) -> Result<(), AllocError>
    requires { IsLawfulVrp vrp.now }
    ensures { OnOk result (string_bytes text.new ≡ string_bytes text.old ++ item_text form is_first reason vrp.now) }
{
    let mut out = [0; MAX_ITEM];
    let end = put_item(&mut out, form, is_first, reason, vrp);
    push_before(text, &out, end)
}

/// Writes a VRP with its relation to a route at the front of a buffer, and returns the end index. An object of JSON
/// that is not the first has a comma before it.
fn put_item(out: &mut [u8], form: Form, is_first: bool, reason: Reason, vrp: &Vrp) -> usize
    requires { 114 ≤ length out.old }
    ensures text { take result out.new ≡ item_text form is_first reason vrp.now }
    ensures end { result ≤ 114 }
{
    match (form, is_first) {
        (Form::Words, _) => put_word(out, reason, vrp),
        (Form::Json, true) => put_object(out, 0, reason, vrp),
        (Form::Json, false) => {
            let end = put(out, 0, b',');
            put_object(out, end, reason, vrp)
        }
    }
}

/// Writes a word after a space.
fn put_word(out: &mut [u8], reason: Reason, vrp: &Vrp) -> usize
    requires { 69 ≤ length out.old }
    ensures text { take result out.new ≡ reason_and_vrp_text reason vrp.now }
    ensures end { result ≤ 69 }
{
    let end = put_all(out, 0, before_prefix(reason));
    let end = put_prefix(out, end, vrp.0.prefix());
    let end = put_dash_and_len(out, end, vrp.0.resolved_max_len());
    let end = put(out, end, b':');
    put_asn(out, end, vrp.1)
}

/// Returns a space, a reason and a colon.
fn before_prefix(reason: Reason) -> &'static [u8]
    ensures text { result.now ≡ codes " " ++ reason_text reason ++ codes ":" }
    ensures len { length result.now ≤ 8 }
{
    match reason {
        Reason::Match => b" match:",
        Reason::Length => b" length:",
        Reason::As => b" as:",
    }
}

/// Writes an object of JSON from index `at` on.
fn put_object(out: &mut [u8], at: usize, reason: Reason, vrp: &Vrp) -> usize
    requires { at + 113 ≤ length out.old }
    ensures text { take result out.new ≡ take at out.old ++ vrp_object reason vrp.now }
    ensures end { result ≤ at + 113 }
{
    let end = put_all(out, at, object_start(reason));
    let end = put_prefix(out, end, vrp.0.prefix());
    let end = put_all(out, end, max_length_key().as_bytes());
    let end = put_octet(out, end, vrp.0.resolved_max_len());
    let end = put_all(out, end, asn_key().as_bytes());
    let end = put_asn(out, end, vrp.1);
    put_all(out, end, b"\"}")
}

/// Returns the beginning of an object of JSON, which has the reason and the key of the prefix.
fn object_start(reason: Reason) -> &'static [u8]
    ensures text { result.now ≡ object_start reason }
    ensures len { length result.now ≤ 29 }
{
    match reason {
        Reason::Match => b"{\"reason\":\"match\",\"prefix\":\"",
        Reason::Length => b"{\"reason\":\"length\",\"prefix\":\"",
        Reason::As => b"{\"reason\":\"as\",\"prefix\":\"",
    }
}

/// Returns the text before the maximum length in an object of JSON.
#[tactic(auto, unfolding(crate::specs::Explanations::max_length_key))]
fn max_length_key() -> &'static str
    ensures text { result.now ≡ max_length_key }
    ensures len { length result.now ≡ 15 }
{
    "\",\"max_length\":"
}

/// Returns the text before the AS in an object of JSON.
#[tactic(auto, unfolding(crate::specs::Explanations::asn_key))]
fn asn_key() -> &'static str
    ensures text { result.now ≡ asn_key }
    ensures len { length result.now ≡ 8 }
{
    ",\"asn\":\""
}
