//! The outcome for a route: one word.
ghost use Rattle.std.specs.Prelude.{◌≡◌};
ghost use Rattle.origins_lines.specs.Outcomes.{IsOutcomeOf, asked_asn, outcome_text};

use roa_origin::{Lookup, Validity, ValidityAndAsn};
use rpki_base::Asn;

/// The validity of a route (RFC 6811, 2).
///
/// For an invalid route the outcome also says whether a VRP that covers the route has its AS.
#[derive(Clone, Copy, Debug, PartialEq, Eq)]
pub enum Outcome {
    /// A VRP matches the route.
    Valid,
    /// VRPs cover the route, none matches it, and at least one of them has its AS.
    InvalidLength,
    /// VRPs cover the route, and none of them has its AS.
    InvalidAs,
    /// No VRP covers the route.
    NotFound,
}

/// Returns the word for an outcome.
pub(crate) fn word_for(outcome: Outcome) -> &'static str
    ensures { result.now ≡ outcome_text outcome }
{
    match outcome {
        Outcome::Valid => "valid",
        Outcome::InvalidLength => "invalid-length",
        Outcome::InvalidAs => "invalid-as",
        Outcome::NotFound => "not-found",
    }
}

/// Returns the AS number to look up for `origin`. If the origin is unknown, it is AS0, which no VRP matches.
pub fn asked_asn(origin: Option<Asn>) -> Asn
    ensures { result ≡ asked_asn origin }
{
    origin.unwrap_or(Asn::MIN)
}

/// Returns the outcome for the route of a lookup.
///
/// The call passes once over the VRPs that cover the route ([`Lookup::validity_and_asn`]).
pub fn outcome_of(lookup: &Lookup<'_>) -> Outcome
    ensures { IsOutcomeOf lookup.now.route lookup.now.asn lookup.now.vrps result }
{
    let ValidityAndAsn {
        validity,
        has_covering_asn,
    } = lookup.validity_and_asn();
    match validity {
        Validity::Valid => Outcome::Valid,
        Validity::NotFound => Outcome::NotFound,
        Validity::Invalid if has_covering_asn => Outcome::InvalidLength,
        Validity::Invalid => Outcome::InvalidAs,
    }
}
