//! Members of the objects of a SLURM file.
ghost use Rattle.std.specs.Prelude.{◌≡◌, MatchResult};
ghost use Rattle.json.specs.Json.{array, number, object, string};
ghost use Rattle.json.specs.Value.{items_view, members_view};
ghost use Rattle.roa_slurm.specs.Objects.{HasValue, IsArray, IsNumber, IsObject, IsString, IsWrongMember, slurm_name};

use json::Value;
use roa_vrps::MemberFault;
use roa_vrps::member::only;
use std::alloc::Allocator;
use std::fmt;

/// A member of an object of a SLURM file (RFC 8416, 3.2 to 3.4).
#[derive(Clone, Copy, Debug, PartialEq, Eq)]
pub enum SlurmMember {
    /// The version of the format, `slurmVersion`: the number 1.
    SlurmVersion,
    /// The filters, `validationOutputFilters`: an object.
    ValidationOutputFilters,
    /// The assertions, `locallyAddedAssertions`: an object.
    LocallyAddedAssertions,
    /// The filters of VRPs, `prefixFilters`: an array.
    PrefixFilters,
    /// The filters of router keys, `bgpsecFilters`: an array.
    BgpsecFilters,
    /// The added VRPs, `prefixAssertions`: an array.
    PrefixAssertions,
    /// The added router keys, `bgpsecAssertions`: an array.
    BgpsecAssertions,
    /// A prefix, `prefix`: a string.
    Prefix,
    /// An AS number, `asn`: a number.
    Asn,
    /// A maximum length, `maxPrefixLength`: a number.
    MaxPrefixLength,
    /// The identifier of a router key, `SKI`: a string.
    Ski,
    /// A router key, `routerPublicKey`: a string.
    RouterPublicKey,
    /// An explanation, `comment`: a string.
    Comment,
}

impl SlurmMember {
    /// Returns the name of the member.
    pub fn name(self) -> &'static str
        ensures { result.now ≡ slurm_name self }
    {
        match self {
            SlurmMember::SlurmVersion => "slurmVersion",
            SlurmMember::ValidationOutputFilters => "validationOutputFilters",
            SlurmMember::LocallyAddedAssertions => "locallyAddedAssertions",
            SlurmMember::PrefixFilters => "prefixFilters",
            SlurmMember::BgpsecFilters => "bgpsecFilters",
            SlurmMember::PrefixAssertions => "prefixAssertions",
            SlurmMember::BgpsecAssertions => "bgpsecAssertions",
            SlurmMember::Prefix => "prefix",
            SlurmMember::Asn => "asn",
            SlurmMember::MaxPrefixLength => "maxPrefixLength",
            SlurmMember::Ski => "SKI",
            SlurmMember::RouterPublicKey => "routerPublicKey",
            SlurmMember::Comment => "comment",
        }
    }
}

impl fmt::Display for SlurmMember {
    ghost use Rattle.std.specs.Prelude.{Some};
    ghost use Rattle.roa_slurm.specs.Objects.{slurm_name};

    ghost output = { λ member. Some (slurm_name member) };

    fn fmt<W: fmt::Write>(&self, f: &mut fmt::Formatter<W>) -> fmt::Result {
        f.write_str(self.name())
    }
}

/// Returns the text of the only member of this name, which has to be a number.
pub(crate) fn number_in<'a, A: Allocator>(
    members: &Vec<(&'a str, Value<'a, A>), A>,
    member: SlurmMember,
) -> Result<&'a str, MemberFault>
    ensures { MatchResult result
        (λ text. HasValue member (members_view members.now.items) (number text.now))
        (IsWrongMember member IsNumber (members_view members.now.items)) }
{
    let value = only(members, member.name())?;
    match value {
        Value::Number(text) => Ok(*text),
        _ => Err(MemberFault::Kind),
    }
}

/// Returns the text of the only member of this name, which has to be a string.
pub(crate) fn string_in<'a, A: Allocator>(
    members: &Vec<(&'a str, Value<'a, A>), A>,
    member: SlurmMember,
) -> Result<&'a str, MemberFault>
    ensures { MatchResult result
        (λ text. HasValue member (members_view members.now.items) (string text.now))
        (IsWrongMember member IsString (members_view members.now.items)) }
{
    let value = only(members, member.name())?;
    match value {
        Value::String(text) => Ok(*text),
        _ => Err(MemberFault::Kind),
    }
}

/// Returns the items of the only member of this name, which has to be an array.
pub(crate) fn items_in<'v, 'a, A: Allocator>(
    members: &'v Vec<(&'a str, Value<'a, A>), A>,
    member: SlurmMember,
) -> Result<&'v Vec<Value<'a, A>, A>, MemberFault>
    ensures { MatchResult result
        (λ found. HasValue member (members_view members.now.items) (array (items_view found.now.items)))
        (IsWrongMember member IsArray (members_view members.now.items)) }
{
    let value = only(members, member.name())?;
    match value {
        Value::Array(found) => Ok(found),
        _ => Err(MemberFault::Kind),
    }
}

/// Returns the members of the only member of this name, which has to be an object.
pub(crate) fn members_in<'v, 'a, A: Allocator>(
    members: &'v Vec<(&'a str, Value<'a, A>), A>,
    member: SlurmMember,
) -> Result<&'v Vec<(&'a str, Value<'a, A>), A>, MemberFault>
    ensures { MatchResult result
        (λ found. HasValue member (members_view members.now.items) (object (members_view found.now.items)))
        (IsWrongMember member IsObject (members_view members.now.items)) }
{
    let value = only(members, member.name())?;
    match value {
        Value::Object(found) => Ok(found),
        _ => Err(MemberFault::Kind),
    }
}
