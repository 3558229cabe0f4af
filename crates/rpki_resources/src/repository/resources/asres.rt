//! AS numbers: blocks, sets, claims, and the check along paths.

pub use rpki_as::block::AsBlock;
pub use rpki_as::blocks::AsBlocks;
pub use rpki_as::builder::{AsBlocksBuilder, AsResourcesBuilder};
pub use rpki_as::error::{FromStrError, InheritedAsResources};
pub use rpki_as::iter::{AsBlockIter, AsnIter};
pub use rpki_as::range::AsRange;
pub use rpki_as::resources::AsResources;
pub use rpki_as::verify::{AsStep, OverclaimedAsResources};
