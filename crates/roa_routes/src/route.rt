//! The route that a line gives.
ghost use Rattle.std.specs.Prelude.{◌≡◌, ◌↔◌, ◌∷◌, [], ℕ, List, IsTrue, MatchOption, MatchResult};
ghost use Rattle.std.specs.List.{after_first, after_last, before_first};
ghost use Rattle.std.specs.Str.{trim};
ghost use Rattle.rpki_text.specs.Cuts.{is_comma, is_space};
ghost use Rattle.rpki_text.specs.Reading.{Answers};
ghost use Rattle.roa_routes.specs.Routes.{AreRouteWords, HasDumpFault, HasCommaForSpace, HasFaultBy, HasReadFault, HasRouteFault, HasRouteTextFault, HasWordFault, HaveWordsFault, IsAsnOrigin, IsDumpRoute, IsFieldAt, IsKindOf, IsNoAsnText, IsNoFieldAt, IsOtherWord, IsReadLine, IsReadOf, IsRouteBy, IsRouteText, IsUpdateName, IsWordOrigin, IsWordsFault, HasNoOrigin, fields_of};

use crate::fault::RouteFault;
use crate::usual::usual_route;
use rpki_base::Asn;
use rpki_prefix::Prefix;
use rpki_text::cut::cut_at;
use std::str::FromStr;

/// The index of the prefix among the fields of a dump's line.
const PREFIX_PLACE: usize = 5;

/// A route that a line gives.
///
/// Its prefix is checked, and its origin may be unknown. `pigyelund_routes::route::Route` is a struct for C.
#[derive(Clone, Copy, Debug, PartialEq, Eq)]
pub struct Route {
    /// The announced prefix.
    pub prefix: Prefix,
    /// The AS that originates the route, or None if its path gives no single AS.
    pub origin: Option<Asn>,
}

/// The kind of a line.
#[derive(Clone, Copy, Debug, PartialEq, Eq)]
enum Kind {
    /// A route of a dump. The field is the index of its path.
    Dump(usize),
    /// A line of a dump that announces no route.
    Skipped,
    /// Any other line: a prefix and an AS number are expected.
    Words,
}

/// Reads the route of a line, which has one of two forms.
///
/// - A prefix, a space and an AS number. White space may precede or follow each.
/// - A line of `bgpdump -m`, whose fields are separated by `|`. The first field is one of these:
///   - `TABLE_DUMP`, `TABLE_DUMP2`: a route of a table (RFC 6396, 4.2 and 4.3);
///   - `BGP4MP`, `BGP4MP_ET`, `BGP4MP_LOCAL`, `BGP4MP_ET_LOCAL`: an update, or the state of a session (RFC 6396, 4.4);
///   - `TABLE_DUMP2_AP`, or a name of an update with `_AP` at its end: the same, with a path identifier (RFC 8050).
///
/// The sixth field is the prefix and the seventh the path. In a line with a path identifier the eighth is the path. The
/// third field of an update is `A` if the line announces the route. Returns None if the third field is `W` or `STATE`:
/// the line withdraws a route, or says how the state of a session changed. A line with another third field is
/// invalid.
///
/// The last word of a path is the origin. The origin is unknown for three kinds of paths (RFC 6811, 2):
///
/// - an empty path;
/// - a path that ends in a set of AS numbers, such as `{64496,64497}`;
/// - a path that ends in a segment of a confederation. The last word of such a segment ends in `)` or `]`, as in
///   `(64512 64513)` and `[64512,64513]`.
///
/// # Errors
///
/// The first [`RouteFault`] of the line.
#[tactic(auto, using(crate::proofs::RouteLineLemmas::route_answers))]
pub fn read_route(line: &[u8]) -> Result<Option<Route>, RouteFault>
    ensures { Answers (IsReadLine line.now) (HasRouteFault line.now) result }
{
    read_route_matched(line)
}

/// Returns the route of a line, or None if it announces none, or its first fault.
///
/// A line of the usual form is read in one pass.
#[tactic(auto, using(crate::proofs::RouteLineLemmas::text_found))]
pub fn read_route_matched(line: &[u8]) -> Result<Option<Route>, RouteFault>
    ensures { MatchResult result (IsReadLine line.now) (HasRouteFault line.now) }
{
    match usual_route(line) {
        Some(route) => Ok(Some(route)),
        None => {
            let Ok(text) = str::from_utf8(line) else {
                return Err(RouteFault::NotUtf8);
            };
            read_text(text.trim())
        }
    }
}

/// Reads the route of a text: a prefix, a space and an AS number. White space may precede or follow each.
///
/// [`read_route`] reads a line of `bgpdump -m` too, which is no such text.
///
/// # Errors
///
/// The first [`RouteFault`] of the text, never [`RouteFault::TooFewFields`].
#[tactic(auto, using(crate::proofs::RouteLineLemmas::route_text_found))]
pub fn read_route_text(text: &[u8]) -> Result<Route, RouteFault>
    ensures { MatchResult result (IsRouteText text.now) (HasRouteTextFault text.now) }
{
    let Ok(text) = str::from_utf8(text) else {
        return Err(RouteFault::NotUtf8);
    };
    read_words(text.trim())
}

/// Returns the route of a text without white space at its ends, or None if it announces none, or its first fault.
fn read_text(text: &str) -> Result<Option<Route>, RouteFault>
    ensures { MatchResult result (IsReadOf text.now) (HasReadFault text.now) }
{
    match kind_of(text) {
        Kind::Dump(place) => Ok(Some(read_dump(text, place)?)),
        Kind::Skipped => Ok(None),
        Kind::Words => Ok(Some(read_words(text)?)),
    }
}

/// Returns the kind of a line without white space at its ends.
fn kind_of(line: &str) -> Kind
    ensures { IsKindOf line.now result }
{
    let (name, _) = cut_at(line, '|');
    match name {
        "TABLE_DUMP2" | "TABLE_DUMP" => Kind::Dump(6),
        "TABLE_DUMP2_AP" => Kind::Dump(7),
        "BGP4MP" | "BGP4MP_ET" | "BGP4MP_LOCAL" | "BGP4MP_ET_LOCAL" => update_kind(line, 6),
        "BGP4MP_AP" | "BGP4MP_ET_AP" | "BGP4MP_LOCAL_AP" | "BGP4MP_ET_LOCAL_AP" => {
            update_kind(line, 7)
        }
        _ => Kind::Words,
    }
}

/// Returns the kind of an update's line, whose path has the index `place` if it has one.
fn update_kind(line: &str, place: usize) -> Kind
    requires { (name : List ℕ) × IsFieldAt 0 line.now name × IsUpdateName name place }
    ensures { IsKindOf line.now result }
{
    match field_at(line, 2) {
        Some("A") => Kind::Dump(place),
        Some("W" | "STATE") => Kind::Skipped,
        _ => Kind::Words,
    }
}

/// Returns the field of a line at index `place`, or None if the line has fewer fields.
#[tactic(auto, using(crate::proofs::FieldLemmas::field_first, crate::proofs::FieldLemmas::field_next, crate::proofs::FieldLemmas::field_none))]
fn field_at(line: &str, place: usize) -> Option<&str>
    ensures { MatchOption result (IsNoFieldAt place line.now) (λ field. IsFieldAt place line.now field.now) }
{
    let mut rest = line;
    let mut left = place;
    while left > 0 {
        let (_, behind) = split_at_bar(rest)?;
        rest = behind;
        left -= 1;
    }
    match split_at_bar(rest) {
        Some((field, _)) => Some(field),
        None => Some(rest),
    }
}

/// Returns the text before the first `|` and the text after it, or None if there is no `|`.
#[tactic(auto, using(crate::proofs::FieldLemmas::cut_some, crate::proofs::FieldLemmas::cut_none))]
fn split_at_bar(text: &str) -> Option<(&str, &str)>
    ensures { MatchOption result (fields_of text.now ≡ text.now ∷ [])
        (λ cut. fields_of text.now ≡ cut.0.now ∷ fields_of cut.1.now) }
{
    text.split_once('|')
}

/// Returns the route of a prefix and an AS number with a space between them, or the first fault.
#[tactic(auto, using(crate::proofs::RouteLineLemmas::words_wrong))]
fn read_words(text: &str) -> Result<Route, RouteFault>
    ensures { MatchResult result (AreRouteWords text.now) (HaveWordsFault text.now) }
{
    // If the line has no space, the second text is empty, which is no AS number.
    let (before, behind) = cut_at(text, ' ');
    let first = before.trim();
    match read_pair(first, behind.trim()) {
        Ok(route) => Ok(route),
        Err(fault) => if has_comma_for_space(text) {
            Err(RouteFault::CommaForSpace)
        } else {
            Err(fault_of(first, fault))
        },
    }
}

/// Returns the fault of a line whose first word and its words together have this fault.
fn fault_of(first: &str, fault: RouteFault) -> RouteFault
    ensures { IsWordsFault first.now fault result }
{
    match fault {
        RouteFault::Prefix(_) if is_other_word(first) => RouteFault::OtherWord,
        _ => fault,
    }
}

/// Returns whether a word has a tab or is an AS number.
fn is_other_word(word: &str) -> bool
    ensures { IsTrue result ↔ IsOtherWord word.now }
{
    word.as_bytes().contains(&b'\t') || Asn::from_str(word).is_ok()
}

/// Returns whether a line has no space, and would be a route if its first comma were a space.
#[tactic(auto, using(crate::proofs::RouteLineLemmas::comma_route, crate::proofs::RouteLineLemmas::no_comma_route))]
fn has_comma_for_space(line: &str) -> bool
    ensures { IsTrue result ↔ HasCommaForSpace line.now }
{
    if line.split_once(' ').is_some() {
        return false;
    }
    let (prefix, origin) = parts_of(line);
    read_pair(prefix, origin).is_ok()
}

/// Returns the text before the first comma of a line and the text after it, both without white space at their ends. The
/// second is empty if there is no comma.
fn parts_of(line: &str) -> (&str, &str)
    ensures prefix { result.0.now ≡ trim (before_first is_comma line.now) }
    ensures origin { result.1.now ≡ trim (after_first is_comma line.now) }
{
    let (prefix, origin) = cut_at(line, ',');
    (prefix.trim(), origin.trim())
}

/// Returns the route of a prefix and an AS number.
fn read_pair(prefix: &str, origin: &str) -> Result<Route, RouteFault>
    ensures { MatchResult result (IsRouteBy (IsAsnOrigin origin.now) prefix.now)
        (HasFaultBy (IsNoAsnText origin.now) prefix.now) }
{
    let prefix = Prefix::from_str(prefix)?;
    let origin = Asn::from_str(origin)?;
    Ok(Route {
        prefix,
        origin: Some(origin),
    })
}

/// Returns the route of a dump's line whose path has the index `path_place`.
fn read_dump(line: &str, path_place: usize) -> Result<Route, RouteFault>
    ensures { MatchResult result (IsDumpRoute path_place line.now)
        (HasDumpFault path_place line.now) }
{
    let Some(prefix) = field_at(line, PREFIX_PLACE) else {
        return Err(RouteFault::TooFewFields);
    };
    let Some(path) = field_at(line, path_place) else {
        return Err(RouteFault::TooFewFields);
    };
    read_fields(prefix, last_word(path.trim()))
}

/// Returns the route of a prefix and the last word of a path.
fn read_fields(prefix: &str, word: &str) -> Result<Route, RouteFault>
    ensures { MatchResult result (IsRouteBy (IsWordOrigin word.now) prefix.now)
        (HasFaultBy (HasWordFault word.now) prefix.now) }
{
    let prefix = Prefix::from_str(prefix)?;
    let origin = if has_no_origin(word) {
        None
    } else {
        Some(Asn::from_str(word)?)
    };
    Ok(Route { prefix, origin })
}

/// Returns whether the last word of a path gives no origin: it is empty, or ends a set of AS numbers or a segment of a
/// confederation.
fn has_no_origin(word: &str) -> bool
    ensures { IsTrue result ↔ HasNoOrigin word.now }
{
    word.is_empty()
        || (word.starts_with('{') && word.ends_with('}'))
        || word.ends_with(')')
        || word.ends_with(']')
}

/// Returns the text after the last space, or the whole text if there is no space.
fn last_word(text: &str) -> &str
    ensures { result.now ≡ after_last is_space text.now }
{
    match text.rsplit_once(' ') {
        Some((_, word)) => word,
        None => text,
    }
}
