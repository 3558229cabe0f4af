//! Filters and assertions of a SLURM file, and their application to VRPs.
ghost use Rattle.std.specs.Prelude.{◌↔◌, IfOk, IsTrue};
ghost use Rattle.roa_slurm.specs.Applied.{IsApplied, IsRemoved};

use crate::filter::PrefixFilter;
use roa_vrps::Vrp;
use std::alloc::{AllocError, Allocator, Global};

/// The filters and the added VRPs of a SLURM file (RFC 8416, 3.3.1 and 3.4.1).
#[derive(Drop)]
#[derive_where(Debug)]
pub struct Slurm<A: Allocator = Global> {
    /// The filters, in the order of the file.
    pub filters: Vec<PrefixFilter, A>,
    /// The VRPs that the file adds, in its order.
    pub assertions: Vec<Vrp, A>,
}

impl<A: Allocator> Slurm<A> {
    /// Returns the VRPs that no filter matches, and then the assertions (RFC 8416, 3.2, 3.3.1 and 3.4.1).
    ///
    /// - `alloc`: the allocator of the list.
    /// - `vrps`: the VRPs of a validator.
    ///
    /// The VRPs keep their order, and the assertions follow in theirs. No filter removes an assertion. The call
    /// compares each VRP with each filter.
    ///
    /// # Errors
    ///
    /// [`AllocError`] if an allocation for the list fails.
    pub fn apply<B: Allocator>(&self, alloc: B, vrps: &[Vrp]) -> Result<Vec<Vrp, B>, AllocError>
        ensures { IfOk result (λ changed. IsApplied self.now.filters.items
            self.now.assertions.items vrps.now changed.items) }
    {
        let mut changed = Vec::new(alloc);
        for vrp in vrps {
            if !self.removes(vrp) {
                changed.push(*vrp)?;
            }
        }
        changed.extend_from_slice(self.assertions.as_slice())?;
        Ok(changed)
    }

    /// Returns whether a filter matches a VRP (RFC 8416, 3.3.1).
    pub fn removes(&self, vrp: &Vrp) -> bool
        ensures { IsTrue result ↔ IsRemoved self.now.filters.items vrp.now }
    {
        self.filters.iter().any(|filter| filter.matches(vrp))
    }
}
