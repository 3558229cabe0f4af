//! Members of an item of a SLURM file.
ghost use Rattle.std.specs.Prelude.{◌≡◌, ◌⊎◌, ◌-◌, ◌^◌, MatchOption, MatchResult, Some};
ghost use Rattle.json.specs.Json.{string};
ghost use Rattle.json.specs.Value.{members_view};
ghost use Rattle.rpki_prefix.specs.MaxLen.{IsMaxLenOf};
ghost use Rattle.rpki_text.specs.Numbers.{IsNumberText};
ghost use Rattle.roa_slurm.specs.Objects.{HasValue, IsString, Lacks};
ghost use Rattle.roa_slurm.specs.Parts.{GivesAsn, HasAsnMemberFault, HasMaxLengthFault, HasLongest, HasLongestFault, HasOptionalFault, GivesPrefix, HasPrefixMemberFault, HasRequiredText, HasRequiredTextFault, IsMissing};

use crate::fault::SlurmItemFault;
use crate::member::{SlurmMember, number_in, string_in};
use json::Value;
use roa_vrps::MemberFault;
use rpki_base::Asn;
use rpki_base::number::parse_u8;
use rpki_prefix::{MaxLenPrefix, Prefix};
use std::alloc::Allocator;
use std::str::FromStr;

/// Returns the prefix of an item, or None if it has none.
pub(crate) fn optional_prefix<'a, A: Allocator>(
    members: &Vec<(&'a str, Value<'a, A>), A>,
) -> Result<Option<Prefix>, SlurmItemFault>
    ensures { MatchResult result (GivesPrefix (members_view members.now.items))
        (HasPrefixMemberFault (members_view members.now.items)) }
{
    match string_in(members, SlurmMember::Prefix) {
        Ok(text) => match Prefix::from_str(text) {
            Ok(prefix) => Ok(Some(prefix)),
            Err(fault) => Err(SlurmItemFault::InvalidPrefix(fault)),
        },
        Err(MemberFault::Missing) => Ok(None),
        Err(fault) => Err(SlurmItemFault::Member(SlurmMember::Prefix, fault)),
    }
}

/// Returns the AS number of an item, or None if it has none.
pub(crate) fn optional_asn<'a, A: Allocator>(
    members: &Vec<(&'a str, Value<'a, A>), A>,
) -> Result<Option<Asn>, SlurmItemFault>
    ensures { MatchResult result (GivesAsn (members_view members.now.items))
        (HasAsnMemberFault (members_view members.now.items)) }
{
    match number_in(members, SlurmMember::Asn) {
        Ok(text) => match Asn::from_str(text) {
            Ok(asn) => Ok(Some(asn)),
            Err(fault) => Err(SlurmItemFault::InvalidAsn(fault)),
        },
        Err(MemberFault::Missing) => Ok(None),
        Err(fault) => Err(SlurmItemFault::Member(SlurmMember::Asn, fault)),
    }
}

/// Returns the prefix of an item that needs one.
pub(crate) fn required_prefix<'a, A: Allocator>(
    members: &Vec<(&'a str, Value<'a, A>), A>,
) -> Result<Prefix, SlurmItemFault>
    ensures { MatchResult result (λ prefix. GivesPrefix (members_view members.now.items) (Some prefix))
        (λ fault. HasPrefixMemberFault (members_view members.now.items) fault
        ⊎ IsMissing SlurmMember.Prefix (members_view members.now.items) fault) }
{
    match optional_prefix(members) {
        Ok(Some(prefix)) => Ok(prefix),
        Ok(None) => Err(SlurmItemFault::Member(SlurmMember::Prefix, MemberFault::Missing)),
        Err(fault) => Err(fault),
    }
}

/// Returns the AS number of an item that needs one.
pub(crate) fn required_asn<'a, A: Allocator>(
    members: &Vec<(&'a str, Value<'a, A>), A>,
) -> Result<Asn, SlurmItemFault>
    ensures { MatchResult result (λ asn. GivesAsn (members_view members.now.items) (Some asn))
        (λ fault. HasAsnMemberFault (members_view members.now.items) fault
        ⊎ IsMissing SlurmMember.Asn (members_view members.now.items) fault) }
{
    match optional_asn(members) {
        Ok(Some(asn)) => Ok(asn),
        Ok(None) => Err(SlurmItemFault::Member(SlurmMember::Asn, MemberFault::Missing)),
        Err(fault) => Err(fault),
    }
}

/// Returns the prefix with the maximum length of the item, or with its own length if the item has none.
pub(crate) fn with_max_len<'a, A: Allocator>(
    members: &Vec<(&'a str, Value<'a, A>), A>,
    prefix: Prefix,
) -> Result<MaxLenPrefix, SlurmItemFault>
    ensures { MatchResult result
        (λ whole. (len : _) × HasLongest (members_view members.now.items) prefix len
        × (whole ≡ record { prefix = prefix; max_len = Some len }))
        (HasLongestFault (members_view members.now.items) prefix) }
{
    match number_in(members, SlurmMember::MaxPrefixLength) {
        Ok(text) => of_number(prefix, text),
        Err(MemberFault::Missing) => Ok(MaxLenPrefix::saturating_new(prefix, Some(prefix.len()))),
        Err(fault) => Err(SlurmItemFault::Member(SlurmMember::MaxPrefixLength, fault)),
    }
}

/// Returns the prefix with the maximum length that a number gives.
fn of_number(prefix: Prefix, text: &str) -> Result<MaxLenPrefix, SlurmItemFault>
    ensures { MatchResult result
        (λ whole. (len : _) × IsNumberText (2 ^ 8 - 1) text.now len × IsMaxLenOf prefix (Some len)
        × (whole ≡ record { prefix = prefix; max_len = Some len }))
        (HasMaxLengthFault prefix text.now) }
{
    let len = match parse_u8(text) {
        Ok(len) => len,
        Err(fault) => return Err(SlurmItemFault::MaxLenFormat(fault)),
    };
    match MaxLenPrefix::new(prefix, Some(len)) {
        Ok(whole) => Ok(whole),
        Err(fault) => Err(SlurmItemFault::MaxLen(fault)),
    }
}

/// Returns the text of an optional string of an item, or None if it has none.
pub(crate) fn optional_text<'a, A: Allocator>(
    members: &Vec<(&'a str, Value<'a, A>), A>,
    member: SlurmMember,
) -> Result<Option<&'a str>, SlurmItemFault>
    ensures { MatchResult result (λ found. MatchOption found
        (Lacks member (members_view members.now.items))
        (λ text. HasValue member (members_view members.now.items) (string text.now)))
        (HasOptionalFault member IsString (members_view members.now.items)) }
{
    match string_in(members, member) {
        Ok(text) => Ok(Some(text)),
        Err(MemberFault::Missing) => Ok(None),
        Err(fault) => Err(SlurmItemFault::Member(member, fault)),
    }
}

/// Returns Ok if an item has exactly one such member, a string.
pub(crate) fn check_required_text<'a, A: Allocator>(
    members: &Vec<(&'a str, Value<'a, A>), A>,
    member: SlurmMember,
) -> Result<(), SlurmItemFault>
    ensures { MatchResult result (λ _. HasRequiredText member (members_view members.now.items))
        (HasRequiredTextFault member (members_view members.now.items)) }
{
    match string_in(members, member) {
        Ok(_) => Ok(()),
        Err(fault) => Err(SlurmItemFault::Member(member, fault)),
    }
}
