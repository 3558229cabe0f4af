//! The three choices for a claim (missing, inherited from the issuer, or listed), and how overclaims are handled.

pub use rpki_chain::choice::{InheritedResources, Listed, ResourcesChoice};
pub use rpki_chain::path::{Overclaim, PathRefusal};
