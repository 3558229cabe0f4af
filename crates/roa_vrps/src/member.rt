//! Members of JSON objects.
ghost use Rattle.std.specs.Prelude.{◌≡◌, ℕ, List, [], ◌∷◌, ◌++◌, MatchOption, MatchResult};
ghost use Rattle.json.specs.Json.{Json};
ghost use Rattle.json.specs.Value.{members_view, value_view};
ghost use Rattle.roa_vrps.specs.Members.{HasMemberFault, HasText, IsFound, Writes, name_of, named_values, values_in};

use crate::fault::MemberFault;
use json::Value;
use std::alloc::Allocator;
use std::fmt;

/// A member that an item must have.
#[derive(Clone, Copy, Debug, PartialEq, Eq)]
pub enum Member {
    /// The AS number, `asn`: a number or a string.
    Asn,
    /// The prefix, `prefix`: a string.
    Prefix,
    /// The maximum length, `maxLength`: a number.
    MaxLength,
}

impl Member {
    /// Returns the name of the member.
    pub fn name(self) -> &'static str
        ensures { result.now ≡ name_of self }
    {
        match self {
            Member::Asn => "asn",
            Member::Prefix => "prefix",
            Member::MaxLength => "maxLength",
        }
    }

    /// Returns the text of the member's value, or None if the value has another kind.
    fn text<'a, A: Allocator>(self, value: &Value<'a, A>) -> Option<&'a str>
        ensures { MatchOption result
            ((text : List ℕ) → ¬ Writes self text (value_view value.now))
            (λ text. Writes self text.now (value_view value.now)) }
    {
        match self {
            Member::Asn => match value.as_number() {
                Some(number) => Some(number),
                None => value.as_str(),
            },
            Member::Prefix => value.as_str(),
            Member::MaxLength => value.as_number(),
        }
    }
}

impl fmt::Display for Member {
    ghost use Rattle.std.specs.Prelude.{Some};
    ghost use Rattle.roa_vrps.specs.Members.{name_of};

    ghost output = { λ member. Some (name_of member) };

    fn fmt<W: fmt::Write>(&self, f: &mut fmt::Formatter<W>) -> fmt::Result {
        f.write_str(self.name())
    }
}

/// Returns the value of the only member of this name (RFC 8259, 4).
///
/// - `members`: the members of an object, as [`Value::Object`] has them.
/// - `name`: the name.
///
/// # Errors
///
/// - [`MemberFault::Missing`]: no member has this name.
/// - [`MemberFault::Repeated`]: several members have it.
#[tactic(auto, using(crate::proofs::MemberLemmas::one_named, crate::proofs::MemberLemmas::other_named))]
pub fn only<'v, 'a, A: Allocator>(
    members: &'v Vec<(&'a str, Value<'a, A>), A>,
    name: &str,
) -> Result<&'v Value<'a, A>, MemberFault>
    ensures { IsFound (values_in name.now (members_view members.now.items)) result }
{
    let mut found = Err(MemberFault::Missing);
    for member in members {
        if member.0 != name {
            continue;
        }
        found = another(found, &member.1);
    }
    found
}

/// Returns the result of the search after one more value of this name. `found` is the result before it.
#[tactic(auto, using(crate::proofs::MemberLemmas::more_wrong, crate::proofs::MemberLemmas::two_values))]
fn another<'v, 'a, A: Allocator>(
    found: Result<&'v Value<'a, A>, MemberFault>,
    value: &'v Value<'a, A>,
) -> Result<&'v Value<'a, A>, MemberFault>
    ensures { (before : List Json) → IsFound before found.entry
        → IsFound (before ++ value_view value.now ∷ []) result }
{
    match found {
        Err(MemberFault::Missing) => Ok(value),
        Err(fault) => Err(fault),
        Ok(_) => Err(MemberFault::Repeated),
    }
}

/// Returns the value of the only member of this name. A value that is not an object lacks the member.
pub(crate) fn named<'v, 'a, A: Allocator>(
    item: &'v Value<'a, A>,
    name: &str,
) -> Result<&'v Value<'a, A>, MemberFault>
    ensures { IsFound (named_values name.now (value_view item.now)) result }
{
    match item {
        Value::Object(members) => only(members, name),
        _ => Err(MemberFault::Missing),
    }
}

/// Returns the text of a member of an item. An item that is not an object lacks the member.
pub(crate) fn text_of<'a, A: Allocator>(
    member: Member,
    item: &Value<'a, A>,
) -> Result<&'a str, MemberFault>
    ensures { MatchResult result (λ text. HasText member (value_view item.now) text.now)
        (HasMemberFault member (value_view item.now)) }
{
    let value = named(item, member.name())?;
    match member.text(value) {
        Some(text) => Ok(text),
        None => Err(MemberFault::Kind),
    }
}
