//! VRPs that a SLURM file adds.
ghost use Rattle.std.specs.Prelude.{MatchResult};
ghost use Rattle.json.specs.Value.{members_view};
ghost use Rattle.roa_slurm.specs.Entries.{AreAssertion, HaveAssertionFault};

use crate::fault::SlurmItemFault;
use crate::field::{optional_text, required_asn, required_prefix, with_max_len};
use crate::member::SlurmMember;
use json::Value;
use roa_vrps::Vrp;
use std::alloc::Allocator;

/// Returns the VRP that the members of an item give.
pub(crate) fn read_assertion<'a, A: Allocator>(
    members: &Vec<(&'a str, Value<'a, A>), A>,
) -> Result<Vrp, SlurmItemFault>
    ensures { MatchResult result (AreAssertion (members_view members.now.items))
        (HaveAssertionFault (members_view members.now.items)) }
{
    let prefix = required_prefix(members)?;
    let asn = required_asn(members)?;
    let prefix = with_max_len(members, prefix)?;
    let _comment = optional_text(members, SlurmMember::Comment)?;
    Ok((prefix, asn))
}
