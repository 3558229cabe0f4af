//! The objects of JSON that answer lines with routes.
ghost use Rattle.std.specs.Prelude.{◌≡◌, ◌++◌, ℕ, List, [], OnOk};
ghost use Rattle.std.specs.String.{string_bytes};
ghost use Rattle.json.specs.Print.{quoted};
ghost use Rattle.origins_lines.specs.Answers.{IsFaultAnswer, IsLineValue, answer_head, origin_key, origin_value, outcome_members, route_prefix_key};
ghost use Rattle.origins_lines.specs.declared.explanation.Form.TheVariants as Form;

use crate::outcome::Outcome;
use json::Writer;
use roa_routes::{Route, RouteFault};
use rpki_base::Asn;
use std::alloc::{AllocError, Allocator};

/// Appends the beginning of the object for a route.
pub(crate) fn push_members<A: Allocator>(
    text: &mut String<A>,
    outcome: Outcome,
    route: &Route,
) -> Result<(), AllocError>
    ensures { OnOk result (string_bytes text.new ≡ string_bytes text.old
        ++ answer_head Form.Json outcome route.now) }
{
    let members = outcome_members(outcome);
    let before_prefix = route_prefix_key();
    let before_origin = origin_key();
    let prefix = route.prefix;
    write!(text, "{{{members}{before_prefix}{prefix}{before_origin}")?;
    push_origin(text, &route.origin)
}

/// Returns the text before the prefix of a route.
#[tactic(auto, unfolding(crate::specs::Answers::route_prefix_key))]
fn route_prefix_key() -> &'static str
    ensures { result.now ≡ route_prefix_key }
{
    ",\"prefix\":\""
}

/// Returns the text before the origin of a route.
#[tactic(auto, unfolding(crate::specs::Answers::origin_key))]
fn origin_key() -> &'static str
    ensures { result.now ≡ origin_key }
{
    "\",\"origin_asn\":"
}

/// Returns the members that say an outcome.
fn outcome_members(outcome: Outcome) -> &'static str
    ensures { result.now ≡ outcome_members outcome }
{
    match outcome {
        Outcome::Valid => "\"state\":\"valid\"",
        Outcome::InvalidLength => "\"state\":\"invalid\",\"reason\":\"length\"",
        Outcome::InvalidAs => "\"state\":\"invalid\",\"reason\":\"as\"",
        Outcome::NotFound => "\"state\":\"not-found\"",
    }
}

/// Appends the AS of an origin as a string, or null if it is unknown.
fn push_origin<A: Allocator>(text: &mut String<A>, origin: &Option<Asn>) -> Result<(), AllocError>
    ensures { OnOk result (string_bytes text.new ≡ string_bytes text.old ++ origin_value origin.now) }
{
    match origin {
        Some(asn) => write!(text, "\"{asn}\""),
        None => text.push_str("null"),
    }
}

/// Appends the object for a line that is not a route.
///
/// # Preconditions
///
/// `text` is empty.
pub(crate) fn write_fault_object<A: Allocator + Copy>(
    alloc: A,
    text: &mut String<A>,
    fault: RouteFault,
    line: &[u8],
) -> Result<(), AllocError>
    requires { string_bytes text.old ≡ [] }
    ensures { OnOk result (IsFaultAnswer Form.Json fault line.now (string_bytes text.new)) }
{
    text.push_str("{\"state\":\"error\",\"error\":")?;
    let said = format!(in alloc; "{fault}")?;
    push_quoted(alloc, text, said.as_str())?;
    text.push_str(",\"line\":")?;
    push_line(alloc, text, line)?;
    text.push_str("}")?;
    Ok(())
}

/// Appends a line as a string, or null if the line is not UTF-8.
fn push_line<A: Allocator + Copy>(
    alloc: A,
    text: &mut String<A>,
    line: &[u8],
) -> Result<(), AllocError>
    ensures { OnOk result ((value : List ℕ) × IsLineValue line.now value
        × (string_bytes text.new ≡ string_bytes text.old ++ value)) }
{
    match str::from_utf8(line) {
        Ok(line) => push_quoted(alloc, text, line),
        Err(_) => write!(text, "null"),
    }
}

/// Appends a text as a string of JSON (RFC 8259, 7).
#[tactic(auto, using(crate::proofs::AnswerLemmas::printed_string))]
fn push_quoted<A: Allocator + Copy>(
    alloc: A,
    text: &mut String<A>,
    said: &str,
) -> Result<(), AllocError>
    ensures { OnOk result (string_bytes text.new ≡ string_bytes text.old ++ quoted said.now) }
{
    let mut writer = Writer::new(Vec::new(alloc));
    writer.string(said)?;
    let octets = writer.into_inner();
    match str::from_utf8(octets.as_slice()) {
        Ok(quoted) => text.push_str(quoted),
        Err(_) => unreachable!(),
    }
}
