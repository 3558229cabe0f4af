//! The lists of blocks of the measured sets.
use crate::made_routes::Numbers;
use crate::measure::Set;
use std::alloc::{AllocError, Global};

/// How many steps a path has.
pub const STEPS: u32 = 10;

/// The blocks of all lists.
#[derive(Clone, Copy)]
pub enum Kind {
    /// Ranges.
    Ranges,
    /// Blocks as in certificates: three of four are a single AS number, or a prefix. The others are ranges.
    Mixed,
}

impl Kind {
    /// Returns the kind of a name.
    pub fn named(name: &str) -> Option<Kind> {
        match name {
            "ranges" => Some(Kind::Ranges),
            "mixed" => Some(Kind::Mixed),
            _ => None,
        }
    }

    /// Returns whether the block at an index is a single AS number or a prefix. The order of such blocks is irregular.
    fn is_single(self, at: u32) -> bool {
        match self {
            Kind::Ranges => false,
            Kind::Mixed => Numbers::after(u64::from(at)).below(4) > 0,
        }
    }
}

/// A list of blocks.
#[derive(Clone, Copy)]
pub enum List {
    /// The blocks of the first set of a call.
    One,
    /// The blocks of the second set of a call.
    Other,
    /// The blocks of the first set on a path.
    First(Path),
    /// The blocks that a step of a path claims. Steps are counted from 1.
    Step(Path, u32),
}

impl List {
    /// Returns the block at an index.
    fn block<S: Set>(self, kind: Kind, at: u32) -> Option<S::Block> {
        match self {
            List::One => S::block(at, false, kind.is_single(at)),
            List::Other => S::block(at, true, kind.is_single(at.wrapping_add(1))),
            List::First(path) => path.block::<S>(kind, at, 0),
            List::Step(path, step) => path.block::<S>(kind, at, step),
        }
    }
}

/// A path, whose steps refuse and trim overclaimed resources in turn.
///
/// In each step one block of `period` differs from what remains. It is shorter in a step that refuses, and longer in a
/// step that trims.
#[derive(Clone, Copy)]
pub struct Path {
    /// The distance between the indexes of the blocks that differ.
    pub period: u32,
}

impl Path {
    /// Returns the block at an index of the list of a step, or of the first set if the step is 0.
    fn block<S: Set>(self, kind: Kind, at: u32, step: u32) -> Option<S::Block> {
        let is_single = kind.is_single(at);
        let least = if is_single {
            0
        } else {
            at.wrapping_rem(8).wrapping_add(1)
        };
        S::block_on_path(at, least.wrapping_add(self.surplus(at, step)), is_single)
    }

    /// Returns by how much a block is longer than after the last step.
    fn surplus(self, at: u32, step: u32) -> u32 {
        let mut surplus = if step > 0 && !refuses(step) && self.differs(at, step) {
            2
        } else {
            0u32
        };
        for before in step..STEPS {
            let later = before.wrapping_add(1);
            if refuses(later) && self.differs(at, later) {
                surplus = surplus.wrapping_add(1);
            }
        }
        surplus
    }

    /// Returns whether a block differs from what remains.
    fn differs(self, at: u32, step: u32) -> bool {
        at.wrapping_add(1).abs_diff(step).checked_rem(self.period) == Some(0)
    }
}

/// Returns whether a step refuses overclaimed resources.
pub fn refuses(step: u32) -> bool {
    step.checked_rem(2) == Some(1)
}

/// Returns `count` blocks of a list, or fewer if they would pass the last AS number or address.
pub fn blocks<S: Set>(
    alloc: Global,
    kind: Kind,
    list: List,
    count: usize,
) -> Result<Vec<S::Block>, AllocError> {
    let mut blocks = Vec::new(alloc);
    for at in 0..count {
        let Ok(at) = u32::try_from(at) else { break };
        let Some(block) = list.block::<S>(kind, at) else {
            break
        };
        blocks.push(block)?;
    }
    Ok(blocks)
}
