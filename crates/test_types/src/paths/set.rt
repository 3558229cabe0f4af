//! Types of `repository::resources::set` by each of their names.
use crate::paths::Names;
use rpki_resources::repository::resources::{self, set as there};
use std::marker::PhantomData;

pub const RESOURCE_SET: Names<resources::ResourceSet, 1> = [PhantomData::<there::ResourceSet>];

pub const RESOURCE_DIFF: Names<resources::ResourceDiff, 1> = [PhantomData::<there::ResourceDiff>];

pub const INHERIT_ERROR: Names<resources::InheritError, 1> = [PhantomData::<there::InheritError>];
