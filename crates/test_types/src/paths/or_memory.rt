//! A refusal or an out-of-memory error, by each of its names.
use crate::paths::Names;
use std::marker::PhantomData;

pub const OR_MEMORY: Names<rpki_text::memory::OrMemory<u32>, 2> = [
    PhantomData::<rpki_resources::OrMemory<u32>>,
    PhantomData::<rpki_base::OrMemory<u32>>,
];
