//! The errors of a text of AS blocks, and of resources that are not a set by themselves.
pub use rpki_as_block::error::FromStrError;
use rpki_chain::choice::InheritedResources;
use thiserror::Error;

/// The error for inherited AS resources, which are not a set by themselves.
#[derive(Clone, Copy, Debug, PartialEq, Eq, Error)]
#[error("inherited AS resources")]
pub struct InheritedAsResources;

impl From<InheritedResources> for InheritedAsResources {
    fn from(_inherited: InheritedResources) -> InheritedAsResources {
        InheritedAsResources
    }
}
