//! The routes of lines.
ghost use Rattle.std.specs.Prelude.{◌≡◌, MatchResult};
ghost use Rattle.rpki_text.specs.Memory.{IfRefused};
ghost use Rattle.rpki_text.specs.Lines.{lines_of};
ghost use Rattle.pigyelund_routes.specs.RouteTexts.{AreLineRoutes, HaveFirstFault};

use crate::route::Route;
use crate::status;
use crate::text::route_fault_number;
use roa_routes::RouteFault;
use roa_routes::route::read_route_matched;
use rpki_text::line::cut_at_line_end;
use rpki_text::memory::OrMemory;
use std::alloc::Global;

/// The first invalid line of a text.
#[derive(Clone, Copy)]
pub struct LineFault {
    /// The number of the line, from 1.
    pub number: usize,
    /// The first fault of the line.
    pub fault: RouteFault,
}

impl LineFault {
    ghost use Rattle.pigyelund_routes.specs.RouteTexts.{line_fault_status};

    /// Returns the status of this fault.
    pub fn status(self) -> u32
        ensures { result ≡ line_fault_status self }
    {
        status::BAD_ROUTE + route_fault_number(self.fault)
    }
}

/// Returns the routes of the lines of a text in the form for C, in their order. A line that announces no route has
/// none.
///
/// # Errors
///
/// - `Refused`: the first invalid line.
/// - `Memory`: out of memory for the routes.
#[tactic(auto, using(crate::proofs::LineRouteLemmas::read_none, crate::proofs::LineRouteLemmas::read_more, crate::proofs::LineRouteLemmas::read_wrong))]
pub fn line_routes(alloc: Global, text: &[u8]) -> Result<Vec<Route, Global>, OrMemory<LineFault>>
    ensures { MatchResult result (λ list. AreLineRoutes (lines_of text.now) list.items)
        (IfRefused (HaveFirstFault 1 (lines_of text.now))) }
{
    let mut routes = Vec::new(alloc);
    let mut number = 0;
    let mut rest = text;
    while !rest.is_empty() {
        let (line, after) = cut_at_line_end(rest);
        number += 1;
        match read_route_matched(line) {
            Ok(Some(route)) => routes.push(Route::of(&route))?,
            Ok(None) => {}
            Err(fault) => return Err(OrMemory::Refused(LineFault { number, fault })),
        }
        rest = after;
    }
    Ok(routes)
}
