//! The VRPs of a file, with their expiries.
use crate::fault::ExpiryFault;
use crate::vrp::Vrp;
use std::alloc::Allocator;

/// The expiries of VRPs, in their order, or the first fault of an expiry.
pub(crate) type Expiries<A> = Result<Vec<Option<u64>, A>, ExpiryFault>;

/// The VRPs of a file, and their expiries. A reader that was not asked for expiries leaves them empty.
#[derive(Drop)]
pub(crate) struct Found<A: Allocator> {
    /// The VRPs, in the order of the file.
    pub vrps: Vec<Vrp, A>,
    /// The expiry of each VRP.
    pub expiries: Expiries<A>,
}
