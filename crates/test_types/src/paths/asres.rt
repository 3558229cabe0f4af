//! Types of `repository::resources::asres` by each of their names.
use crate::paths::Names;
use rpki_resources::repository::resources::{self, asres as there};
use std::marker::PhantomData;

pub const AS_BLOCK: Names<resources::AsBlock, 3> = [
    PhantomData::<there::AsBlock>,
    PhantomData::<rpki_as_block::block::AsBlock>,
    PhantomData::<rpki_as::AsBlock>,
];

pub const AS_RANGE: Names<resources::AsRange, 3> = [
    PhantomData::<there::AsRange>,
    PhantomData::<rpki_as_block::range::AsRange>,
    PhantomData::<rpki_as::AsRange>,
];

pub const AS_BLOCK_ITER: Names<resources::AsBlockIter, 3> = [
    PhantomData::<there::AsBlockIter>,
    PhantomData::<rpki_as_block::iter::AsBlockIter>,
    PhantomData::<rpki_as::AsBlockIter>,
];

pub const AS_BLOCKS: Names<resources::AsBlocks, 3> = [
    PhantomData::<there::AsBlocks>,
    PhantomData::<rpki_as::blocks::AsBlocks>,
    PhantomData::<rpki_as::AsBlocks>,
];

pub const AS_BLOCKS_BUILDER: Names<resources::AsBlocksBuilder, 3> = [
    PhantomData::<there::AsBlocksBuilder>,
    PhantomData::<rpki_as::builder::AsBlocksBuilder>,
    PhantomData::<rpki_as::AsBlocksBuilder>,
];

pub const AS_RESOURCES: Names<resources::AsResources, 3> = [
    PhantomData::<there::AsResources>,
    PhantomData::<rpki_as::resources::AsResources>,
    PhantomData::<rpki_as::AsResources>,
];

pub const AS_RESOURCES_BUILDER: Names<resources::AsResourcesBuilder, 3> = [
    PhantomData::<there::AsResourcesBuilder>,
    PhantomData::<rpki_as::builder::AsResourcesBuilder>,
    PhantomData::<rpki_as::AsResourcesBuilder>,
];

pub const INHERITED_AS_RESOURCES: Names<resources::InheritedAsResources, 3> = [
    PhantomData::<there::InheritedAsResources>,
    PhantomData::<rpki_as::error::InheritedAsResources>,
    PhantomData::<rpki_as::InheritedAsResources>,
];

pub const OVERCLAIMED_AS_RESOURCES: Names<resources::OverclaimedAsResources, 3> = [
    PhantomData::<there::OverclaimedAsResources>,
    PhantomData::<rpki_as::verify::OverclaimedAsResources>,
    PhantomData::<rpki_as::OverclaimedAsResources>,
];

pub const AS_STEP: Names<resources::AsStep, 3> = [
    PhantomData::<there::AsStep>,
    PhantomData::<rpki_as::verify::AsStep>,
    PhantomData::<rpki_as::AsStep>,
];

pub const ASN_ITER: Names<resources::AsnIter<'static>, 3> = [
    PhantomData::<there::AsnIter<'static>>,
    PhantomData::<rpki_as::iter::AsnIter<'static>>,
    PhantomData::<rpki_as::AsnIter<'static>>,
];

pub const FROM_STR_ERROR: Names<rpki_as::FromStrError, 2> = [
    PhantomData::<there::FromStrError>,
    PhantomData::<rpki_as_block::error::FromStrError>,
];
