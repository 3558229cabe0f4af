//! An iterator over the VRPs of a table.
ghost use Rattle.std.specs.Prelude.{◌≡◌};
ghost use Rattle.std.specs.Iterator.{YieldsFirst, item_count};

use crate::packed_vrp::PackedVrp;
use crate::vrp::Vrp;
use std::fmt;
use std::marker::Model;

/// An iterator over the VRPs of a table, in its order. In contracts its value is the list of the VRPs that are left.
///
/// This iterator borrows the VRPs of an [`crate::OriginTable`]. A [`crate::VrpTable`] owns its VRPs, each once, as a
/// cache sends them.
#[derive(Drop)]
pub struct TableVrps<'a> {
    vrps: &'a [PackedVrp],
}

impl<'a> Model for TableVrps<'a> {
    ghost use Rattle.std.specs.Prelude.{List};
    ghost use Rattle.roa_origin.specs.Vrps.{Vrp};

    ghost Value = { List Vrp };

    ghost view = { λ vrps. vrps.vrps.now };
}

impl<'a> TableVrps<'a> {
    /// Returns an iterator over VRPs.
    pub(crate) fn of(vrps: &'a [PackedVrp]) -> TableVrps<'a>
        ensures { result ≡ vrps.now }
    {
        TableVrps { vrps }
    }
}

/// Prints the VRPs that are left.
impl fmt::Debug for TableVrps<'_> {
    fn fmt<W: fmt::Write>(&self, f: &mut fmt::Formatter<W>) -> fmt::Result {
        f.debug_list().entries(TableVrps::of(self.vrps)).finish()
    }
}

impl Iterator for TableVrps<'_> {
    type Item = Vrp;

    ghost next_gives = { YieldsFirst (λ vrps. vrps) };

    ghost remaining = { item_count (λ vrps. vrps) };

    fn next(&mut self) -> Option<Vrp> {
        let (first, rest) = self.vrps.split_first()?;
        self.vrps = rest;
        Some(first.vrp())
    }
}
