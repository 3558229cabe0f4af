//! Filters and assertions of router keys, which have no effect on VRPs.
ghost use Rattle.std.specs.Prelude.{MatchResult};
ghost use Rattle.json.specs.Value.{members_view};
ghost use Rattle.roa_slurm.specs.Entries.{AreKey, AreKeyFilter, HaveKeyFault, HaveKeyFilterFault};

use crate::fault::SlurmItemFault;
use crate::field::{check_required_text, optional_asn, optional_text, required_asn};
use crate::member::SlurmMember;
use json::Value;
use std::alloc::Allocator;

/// A filter of router keys, of which nothing is kept (RFC 8416, 3.3.2).
#[derive(Clone, Copy, Debug)]
pub struct KeyFilter;

/// An added router key, of which nothing is kept (RFC 8416, 3.4.2).
#[derive(Clone, Copy, Debug)]
pub struct KeyAssertion;

/// Returns Ok if members are those of a filter of router keys.
pub(crate) fn check_key_filter<'a, A: Allocator>(
    members: &Vec<(&'a str, Value<'a, A>), A>,
) -> Result<(), SlurmItemFault>
    ensures { MatchResult result (λ _. AreKeyFilter (members_view members.now.items))
        (HaveKeyFilterFault (members_view members.now.items)) }
{
    let asn = optional_asn(members)?;
    let identifier = optional_text(members, SlurmMember::Ski)?;
    let _comment = optional_text(members, SlurmMember::Comment)?;
    match (asn, identifier) {
        (None, None) => Err(SlurmItemFault::NoCriterion),
        _ => Ok(()),
    }
}

/// Returns Ok if members are those of an added router key.
pub(crate) fn check_key<'a, A: Allocator>(
    members: &Vec<(&'a str, Value<'a, A>), A>,
) -> Result<(), SlurmItemFault>
    ensures { MatchResult result (λ _. AreKey (members_view members.now.items))
        (HaveKeyFault (members_view members.now.items)) }
{
    let _asn = required_asn(members)?;
    check_required_text(members, SlurmMember::Ski)?;
    check_required_text(members, SlurmMember::RouterPublicKey)?;
    let _comment = optional_text(members, SlurmMember::Comment)?;
    Ok(())
}
