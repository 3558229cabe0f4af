//! The answer to a line with a route.
ghost use Rattle.std.specs.Prelude.{◌≡◌, ◌++◌, ℕ, List, [], OnOk};
ghost use Rattle.std.specs.String.{string_bytes};
ghost use Rattle.origins_lines.specs.Answers.{IsExplanationIf, IsFaultAnswer, IsRouteAnswer, answer_head, skipped_text};
ghost use Rattle.origins_lines.specs.Begun.{IsLookedUp};

use crate::begun::{AskedRoute, BegunRoute};
use crate::explanation::{Form, push_why};
use crate::json_answers::{push_members, write_fault_object};
use crate::outcome::{Outcome, asked_asn, outcome_of, word_for};
use lines_engine::answers::Answers;
use lines_engine::steps::Steps;
use roa_origin::OriginTable;
use roa_routes::route::read_route_matched;
use roa_routes::{Route, RouteFault};
use std::alloc::{AllocError, Allocator, Global};

/// Answers lines of routes by a table of VRPs.
///
/// In words the answer is `valid`, `invalid-length`, `invalid-as` or `not-found` ([`Outcome`](crate::Outcome)). For a
/// line of `bgpdump -m` that announces no route it is `skipped`. For an invalid line, which includes a blank one, it is
/// `error: ` and the fault.
///
/// An object of JSON (RFC 8259) has no white space. Its first member is `state`, whose value says which other members
/// follow:
///
/// | state | line | other members |
/// |---|---|---|
/// | `valid`, `not-found` | a route (RFC 6811, 2) | `prefix`; `origin_asn`, which is null if the origin is unknown |
/// | `invalid` | a route | `reason`, which is `length` or `as`; `prefix`; `origin_asn` |
/// | `skipped` | a line of `bgpdump -m` that announces no route | none |
/// | `error` | an invalid line | `error`, the fault; `line`, the line, which is null if it isn't UTF-8 |
#[derive(Drop)]
pub struct Routes<'a, B: Allocator = Global> {
    /// The VRPs.
    pub table: &'a OriginTable<B>,
    /// Whether an answer is words or an object of JSON.
    pub form: Form,
    /// Whether the answer to a route also has each VRP that covers the route.
    ///
    /// Each VRP is written once. The longest prefix comes first, then the least AS number, then the longest maximum
    /// length, which is always written.
    ///
    /// In words the VRPs follow the word of the outcome. A VRP is written as a space, its reason, the prefix, a dash,
    /// the maximum length, a colon and the AS. An example is ` match:192.0.2.0/23-24:AS64496`. The reason is `match:`,
    /// `length:` or `as:`.
    ///
    /// The object of a route has the member `vrps`, an array with an object for each VRP. Its members are `reason`,
    /// which is `match`, `length` or `as`, `prefix`, `max_length` and `asn`.
    pub why: bool,
}

impl<B: Allocator> Answers for Routes<'_, B> {
    ghost use Rattle.origins_lines.specs.Answers.{IsAnswerIn};

    ghost is_answer = { λ routes line text. IsAnswerIn routes.form routes.why routes.table.now line text };

    fn answer<A: Allocator + Copy>(
        &self,
        alloc: A,
        line: &[u8],
        text: &mut String<A>,
    ) -> Result<(), AllocError> {
        let begun = self.begin(line);
        self.end(alloc, line, &begun, text)
    }
}

impl<'a, B: Allocator> Steps for Routes<'a, B> {
    type Begun = BegunRoute<'a>;

    ghost use Rattle.origins_lines.specs.Begun.{IsBegun};

    ghost is_begun = { λ routes begun line. IsBegun routes.table.now begun line };

    fn begin(&self, line: &[u8]) -> BegunRoute<'a> {
        match read_route_matched(line) {
            Ok(Some(route)) => {
                let lookup = self.table.lookup(route.prefix, asked_asn(route.origin));
                BegunRoute::Asked(AskedRoute { route, lookup })
            }
            Ok(None) => BegunRoute::Skipped,
            Err(fault) => BegunRoute::Wrong(fault),
        }
    }

    fn advance(&self, begun: &mut BegunRoute<'a>) -> bool {
        match begun {
            BegunRoute::Asked(asked) => asked.lookup.advance(),
            BegunRoute::Skipped | BegunRoute::Wrong(_) => false,
        }
    }

    fn end<A: Allocator + Copy>(
        &self,
        alloc: A,
        line: &[u8],
        begun: &BegunRoute<'a>,
        text: &mut String<A>,
    ) -> Result<(), AllocError> {
        text.clear();
        match begun {
            BegunRoute::Asked(asked) => write_route(text, self.form, self.why, asked),
            BegunRoute::Skipped => text.push_str(skipped_text(self.form)),
            BegunRoute::Wrong(fault) => write_fault(alloc, text, self.form, *fault, line),
        }
    }
}

/// Returns the answer to a line that announces no route.
fn skipped_text(form: Form) -> &'static str
    ensures { result.now ≡ skipped_text form }
{
    match form {
        Form::Words => "skipped",
        Form::Json => "{\"state\":\"skipped\"}",
    }
}

/// Appends the outcome for a route that is looked up. If `why` is true, it also appends the explanation.
fn write_route<A: Allocator>(
    text: &mut String<A>,
    form: Form,
    why: bool,
    asked: &AskedRoute<'_>,
) -> Result<(), AllocError>
    requires empty { string_bytes text.old ≡ [] }
    requires asked { IsLookedUp asked.now }
    ensures { OnOk result (IsRouteAnswer form why asked.now.lookup.vrps asked.now.route (string_bytes text.new)) }
{
    push_head(text, form, outcome_of(&asked.lookup), &asked.route)?;
    push_explanation(text, form, why, asked)?;
    match form {
        Form::Words => Ok(()),
        Form::Json => text.push_str("}"),
    }
}

/// Appends the beginning of the answer to a route.
fn push_head<A: Allocator>(
    text: &mut String<A>,
    form: Form,
    outcome: Outcome,
    route: &Route,
) -> Result<(), AllocError>
    ensures { OnOk result (string_bytes text.new ≡ string_bytes text.old ++ answer_head form outcome route.now) }
{
    match form {
        Form::Words => text.push_str(word_for(outcome)),
        Form::Json => push_members(text, outcome, route),
    }
}

/// Appends the explanation, if `why` is true.
fn push_explanation<A: Allocator>(
    text: &mut String<A>,
    form: Form,
    why: bool,
    asked: &AskedRoute<'_>,
) -> Result<(), AllocError>
    requires { IsLookedUp asked.now }
    ensures { OnOk result ((explanation : List ℕ)
        × IsExplanationIf form why asked.now.lookup.vrps asked.now.route explanation
        × (string_bytes text.new ≡ string_bytes text.old ++ explanation)) }
{
    if !why {
        return Ok(());
    }
    match form {
        Form::Words => push_why(text, Form::Words, asked),
        Form::Json => {
            text.push_str(",\"vrps\":[")?;
            push_why(text, Form::Json, asked)?;
            text.push_str("]")
        }
    }
}

/// Appends the answer to a line that is not a route.
fn write_fault<A: Allocator + Copy>(
    alloc: A,
    text: &mut String<A>,
    form: Form,
    fault: RouteFault,
    line: &[u8],
) -> Result<(), AllocError>
    requires { string_bytes text.old ≡ [] }
    ensures { OnOk result (IsFaultAnswer form fault line.now (string_bytes text.new)) }
{
    match form {
        Form::Words => write!(text, "error: {fault}"),
        Form::Json => write_fault_object(alloc, text, fault, line),
    }
}
