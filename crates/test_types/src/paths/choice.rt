//! Types of `repository::resources::choice` by each of their names.
use crate::paths::Names;
use rpki_resources::repository::resources::{self, choice as there};
use std::marker::PhantomData;

pub const RESOURCES_CHOICE: Names<resources::ResourcesChoice<u32>, 3> = [
    PhantomData::<there::ResourcesChoice<u32>>,
    PhantomData::<rpki_chain::choice::ResourcesChoice<u32>>,
    PhantomData::<rpki_chain::ResourcesChoice<u32>>,
];

pub const INHERITED_RESOURCES: Names<rpki_chain::InheritedResources, 2> = [
    PhantomData::<there::InheritedResources>,
    PhantomData::<rpki_chain::choice::InheritedResources>,
];

pub const OVERCLAIM: Names<resources::Overclaim, 3> = [
    PhantomData::<there::Overclaim>,
    PhantomData::<rpki_chain::path::Overclaim>,
    PhantomData::<rpki_chain::Overclaim>,
];

pub const PATH_REFUSAL: Names<resources::PathRefusal<u32>, 3> = [
    PhantomData::<there::PathRefusal<u32>>,
    PhantomData::<rpki_chain::path::PathRefusal<u32>>,
    PhantomData::<rpki_chain::PathRefusal<u32>>,
];
