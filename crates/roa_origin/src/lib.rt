//! Route origin validation (RFC 6811, RFC 9582), and the tables of VRPs that caches and routers exchange (RFC 8210).
//!
//! [`origin`] returns the validity of one route by a list of VRPs. An [`OriginTable`] does so for many routes, and
//! applies the changes that a cache sends. A [`VrpTable`] has the VRPs that a cache sends to routers.
//! [`VrpTable::changes_to`] finds the VRPs to announce and to withdraw from one table to the next.
//!
//! Use [`origin`] for a list that you already have. For many routes make a table once and look them up in it, as in
//! `example_calls::routes::count_invalid`:
//!
//! ```rust
//! for (route, asn) in routes {
//!     if table.origin(*route, *asn) == Validity::Invalid {
//!         count += 1;
//!     }
//! }
//! ```
//!
//! A cache that has sent one table, and then makes another, sends the changes, as in the program `rows_claims`:
//!
//! ```rust
//! let changes = sent.changes_to(alloc, next)?;
//! changes_text(
//!     alloc,
//!     changes.announced.as_slice(),
//!     changes.withdrawn.as_slice(),
//! )
//! ```
#![tactic(auto)]

mod changes;
pub mod covering;
pub mod laws;
mod links;
mod listing;
pub mod lookup;
mod packed_vrp;
mod reevaluation;
mod route_key;
mod sorting;
mod starts;
pub mod table;
mod updates;
pub mod validation;
mod vrp;
mod vrp_table;

pub use changes::VrpChanges;
pub use covering::Covering;
pub use listing::TableVrps;
pub use lookup::Lookup;
pub use reevaluation::changed_routes;
pub use table::OriginTable;
pub use updates::ChangeFault;
pub use validation::{Validity, ValidityAndAsn, origin};
pub use vrp::Vrp;
pub use vrp_table::VrpTable;
