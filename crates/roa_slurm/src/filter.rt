//! Filters of VRPs.
ghost use Rattle.std.specs.Prelude.{◌↔◌, IsTrue, MatchResult};
ghost use Rattle.json.specs.Value.{members_view};
ghost use Rattle.roa_slurm.specs.Applied.{IsRemovedBy};
ghost use Rattle.roa_slurm.specs.Entries.{AreFilter, HaveFilterFault};

use crate::fault::SlurmItemFault;
use crate::field::{optional_asn, optional_prefix, optional_text};
use crate::member::SlurmMember;
use json::Value;
use roa_vrps::Vrp;
use rpki_base::Asn;
use rpki_prefix::Prefix;
use std::alloc::Allocator;

/// A filter, which removes VRPs (RFC 8416, 3.3.1).
#[derive(Clone, Copy, Debug, PartialEq, Eq)]
pub enum PrefixFilter {
    /// Removes the VRPs whose prefix is this prefix or covered by it.
    ByPrefix(Prefix),
    /// Removes the VRPs of this AS.
    ByAsn(Asn),
    /// Removes the VRPs of this AS whose prefix is this prefix or covered by it.
    ByBoth(Prefix, Asn),
}

impl PrefixFilter {
    /// Returns whether the filter matches a VRP (RFC 8416, 3.3.1).
    pub fn matches(self, vrp: &Vrp) -> bool
        ensures { IsTrue result ↔ IsRemovedBy vrp.now self }
    {
        match self {
            PrefixFilter::ByPrefix(prefix) => prefix.covers(vrp.0.prefix()),
            PrefixFilter::ByAsn(asn) => vrp.1 == asn,
            PrefixFilter::ByBoth(prefix, asn) => vrp.1 == asn && prefix.covers(vrp.0.prefix()),
        }
    }
}

/// Returns the filter that the members of an item give.
pub(crate) fn read_filter<'a, A: Allocator>(
    members: &Vec<(&'a str, Value<'a, A>), A>,
) -> Result<PrefixFilter, SlurmItemFault>
    ensures { MatchResult result (AreFilter (members_view members.now.items))
        (HaveFilterFault (members_view members.now.items)) }
{
    let prefix = optional_prefix(members)?;
    let asn = optional_asn(members)?;
    let _comment = optional_text(members, SlurmMember::Comment)?;
    match (prefix, asn) {
        (Some(prefix), Some(asn)) => Ok(PrefixFilter::ByBoth(prefix, asn)),
        (Some(prefix), None) => Ok(PrefixFilter::ByPrefix(prefix)),
        (None, Some(asn)) => Ok(PrefixFilter::ByAsn(asn)),
        (None, None) => Err(SlurmItemFault::NoCriterion),
    }
}
