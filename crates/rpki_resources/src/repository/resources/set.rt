//! Sets of all three kinds of resources.

pub use crate::diff::ResourceDiff;
pub use crate::error::{FromStrError, InheritError};
pub use crate::set::ResourceSet;
