//! A table of VRPs as a cache sends them.
ghost use Rattle.std.specs.Prelude.{◌≡◌, IfOk, map};
ghost use Rattle.roa_origin.specs.Tables.{IsAscending, IsTableOf, as_sent};

use crate::vrp::Vrp;
use rpki_prefix::MaxLenPrefix;
use std::alloc::{AllocError, Allocator, Global};
use std::fmt;
use std::marker::Model;

/// VRPs as routers get them, ascending and without duplicates (RFC 9582, 4.3.2; RFC 8210, 5.6 and 5.7).
///
/// Each VRP has a maximum length. It is the prefix length if the ROA has no maximum length. VRPs are in the order of
/// their prefixes, then the longer maximum length first, then by the AS number. In contracts the value of a table is
/// the list of its VRPs.
///
/// A `VrpTable` owns its VRPs. [`crate::TableVrps`] is an iterator that borrows those of an [`crate::OriginTable`].
#[derive(Drop)]
pub struct VrpTable<A: Allocator = Global> {
    vrps: Vec<Vrp, A>,
}

impl<A: Allocator> Model for VrpTable<A> {
    ghost use Rattle.std.specs.Prelude.{List};
    ghost use Rattle.roa_origin.specs.Vrps.{Vrp};
    ghost use Rattle.roa_origin.specs.Tables.{IsAscending};

    ghost Value = { List Vrp };

    ghost view = { λ table. table.vrps.items };

    ghost invariant = { λ table. IsAscending table.vrps.items };
}

impl<A: Allocator> VrpTable<A> {
    /// Returns the table of VRPs in any order, with or without duplicates.
    ///
    /// A VRP without a maximum length, and one whose maximum length is its prefix length, become one VRP if they are
    /// otherwise equal.
    ///
    /// # Errors
    ///
    /// [`AllocError`] if an allocation fails.
    pub fn new(alloc: A, vrps: &[Vrp]) -> Result<VrpTable<A>, AllocError>
        ensures { IfOk result (IsTableOf vrps.now) }
    {
        rpki_prefix::laws::equal_where_the_same(); // so that the proof sees that only duplicates are dropped
        let mut table = sent(alloc, vrps)?;
        table.sort_unstable();
        table.dedup();
        Ok(VrpTable { vrps: table })
    }

    /// Returns the VRPs, ascending.
    pub fn as_slice(&self) -> &[Vrp]
        ensures value { result.now ≡ self.now }
        ensures ascending { IsAscending self.now }
    {
        self.vrps.as_slice()
    }

    /// Returns the table of VRPs that are ascending already.
    pub(crate) fn of(vrps: Vec<Vrp, A>) -> VrpTable<A>
        requires { IsAscending vrps.items }
        ensures { result ≡ vrps.items }
    {
        VrpTable { vrps }
    }
}

/// Prints the VRPs, ascending.
impl<A: Allocator> fmt::Debug for VrpTable<A> {
    fn fmt<W: fmt::Write>(&self, f: &mut fmt::Formatter<W>) -> fmt::Result {
        f.debug_list().entries(self.as_slice()).finish()
    }
}

/// Returns the VRPs as they are sent.
///
/// # Errors
///
/// [`AllocError`] if an allocation fails.
#[tactic(auto, using(std::proofs::lemmas::Grind::common_steps))]
fn sent<A: Allocator>(alloc: A, vrps: &[Vrp]) -> Result<Vec<Vrp, A>, AllocError>
    ensures { IfOk result (λ list. list.items ≡ map as_sent vrps.now) }
{
    let mut list = Vec::with_capacity(alloc, vrps.len())?;
    for vrp in vrps {
        list.push(with_max_len(vrp))?;
    }
    Ok(list)
}

/// Returns the VRP with a maximum length: its own, or else its prefix length.
pub(crate) fn with_max_len(vrp: &Vrp) -> Vrp
    ensures { result ≡ as_sent vrp.now }
{
    let (prefix, asn) = *vrp;
    prefix.recall_invariant();
    let max_len = Some(prefix.resolved_max_len());
    (MaxLenPrefix::saturating_new(prefix.prefix(), max_len), asn)
}
