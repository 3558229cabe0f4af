//! Measurements of sets of any kind.
use crate::lists::{self, Kind, List};
use rpki_base::memory::OrMemory;
use rpki_chain::path::Step;
use rpki_der::{Cursor, DerError};
use std::alloc::{AllocError, Global};
use std::io;
use std::time::Instant;

/// The distance in the other order between neighbouring blocks: a prime, so that each block comes once.
const STRIDE: usize = 7919;

/// A set of blocks of a kind.
pub trait Set: Sized + Drop {
    type Block: Copy;

    /// The claim in a step of a path.
    type Claim: Drop;

    /// Returns the block at an index of a set. The blocks of the other set begin at an offset.
    ///
    /// A single block is one AS number or a prefix. Any other block is a range. Returns None if the block would pass
    /// the last AS number or address.
    fn block(at: u32, is_other: bool, is_single: bool) -> Option<Self::Block>;

    /// Returns the block at an index of a set on a path. A block of greater length contains one of smaller length.
    fn block_on_path(at: u32, length: u32, is_single: bool) -> Option<Self::Block>;

    fn from_blocks(alloc: Global, blocks: &[Self::Block]) -> Result<Self, AllocError>;

    fn union(&self, alloc: Global, other: &Self) -> Result<Self, AllocError>;

    fn intersection(&self, alloc: Global, other: &Self) -> Result<Self, AllocError>;

    fn difference(&self, alloc: Global, other: &Self) -> Result<Self, AllocError>;

    fn contains(&self, other: &Self) -> bool;

    /// Returns how many blocks the set has.
    fn count(&self) -> usize;

    /// Returns how many blocks differ from the block at the same index of the other set.
    fn differing(&self, other: &Self) -> usize;

    /// Returns the claim of the set.
    fn claim(self) -> Self::Claim;

    /// Returns what remains of the set after a path.
    fn verify_path(&self, alloc: Global, steps: &[Step<Self::Claim>]) -> io::Result<Self>;

    /// Returns a SEQUENCE of blocks in their order.
    fn octets(alloc: Global, blocks: &[Self::Block]) -> Result<Vec<u8>, AllocError>;

    /// Reads the set of the blocks of a SEQUENCE.
    fn take(alloc: Global, cursor: &mut Cursor<'_>) -> Result<Self, OrMemory<DerError>>;

    /// Appends the set's octets.
    fn append(&self, octets: &mut Vec<u8>) -> Result<(), AllocError>;
}

/// The subject of a measurement: calls on sets of `count` blocks. `kind` is printed before the names of the calls.
#[derive(Clone, Copy)]
pub struct Measured<'a> {
    pub rt: &'a HostRuntime,
    pub kind: &'a str,
    pub lists: Kind,
    pub count: usize,
}

impl Measured<'_> {
    /// Returns the blocks of a list.
    fn blocks<S: Set>(self, list: List) -> Result<Vec<S::Block>, AllocError> {
        lists::blocks::<S>(self.rt.alloc(), self.lists, list, self.count)
    }

    /// Returns the set of a list.
    pub fn set<S: Set>(self, list: List) -> Result<S, AllocError> {
        let blocks = self.blocks::<S>(list)?;
        S::from_blocks(self.rt.alloc(), &blocks)
    }

    /// Prints the time of a call since the start, and the size of its result.
    pub fn report(self, name: &str, start: Instant, given: usize, unit: &str) -> io::Result<()> {
        self.report_time(name, start)?;
        println!(self.rt;
            "{}{name} at {} blocks: {given} {unit}",
            self.kind, self.count
        )
    }

    fn report_time(self, name: &str, start: Instant) -> io::Result<()> {
        let micros = start.elapsed(self.rt)?.as_micros();
        eprintln!(self.rt; "{}{name} {} {micros}", self.kind, self.count)
    }
}

/// A call that makes a set from two sets.
enum Call {
    Union,
    Intersection,
    Difference,
}

const CALLS: [Call; 3] = [Call::Union, Call::Intersection, Call::Difference];

impl Call {
    fn name(&self) -> &'static str {
        match self {
            Call::Union => "union",
            Call::Intersection => "intersection",
            Call::Difference => "difference",
        }
    }

    fn of<S: Set>(&self, alloc: Global, one: &S, other: &S) -> Result<S, AllocError> {
        match self {
            Call::Union => one.union(alloc, other),
            Call::Intersection => one.intersection(alloc, other),
            Call::Difference => one.difference(alloc, other),
        }
    }
}

/// Builds two sets, and measures the building of the first one from a list and the calls on both.
pub fn measure_operations<S: Set>(run: Measured<'_>) -> io::Result<()> {
    let blocks = run.blocks::<S>(List::One)?;
    let one: S = measure_building(run, &blocks)?;
    measure_with_other(run, &one)
}

/// Measures the time to make a set of ascending blocks.
fn measure_building<S: Set>(run: Measured<'_>, blocks: &[S::Block]) -> io::Result<S> {
    let start = Instant::now(run.rt)?;
    let set = S::from_blocks(run.rt.alloc(), blocks)?;
    run.report("from_blocks", start, set.count(), "blocks")?;
    Ok(set)
}

fn measure_with_other<S: Set>(run: Measured<'_>, one: &S) -> io::Result<()> {
    let other: S = run.set(List::Other)?;
    measure_calls(run, one, &other)
}

fn measure_calls<S: Set>(run: Measured<'_>, one: &S, other: &S) -> io::Result<()> {
    for call in &CALLS {
        measure_call(run, call, one, other)?;
    }
    measure_contains(run, one, other)
}

/// Measures the time to make a set from two sets.
fn measure_call<S: Set>(run: Measured<'_>, call: &Call, one: &S, other: &S) -> io::Result<()> {
    let start = Instant::now(run.rt)?;
    let set = call.of(run.rt.alloc(), one, other)?;
    run.report(call.name(), start, set.count(), "blocks")
}

/// Measures the time to find that the union of two sets contains the first one.
fn measure_contains<S: Set>(run: Measured<'_>, one: &S, other: &S) -> io::Result<()> {
    let union = one.union(run.rt.alloc(), other)?;
    measure_contained(run, one, &union)
}

fn measure_contained<S: Set>(run: Measured<'_>, one: &S, union: &S) -> io::Result<()> {
    let start = Instant::now(run.rt)?;
    let contained = union.contains(one);
    run.report("contains", start, usize::from(contained), "set")
}

/// Reads blocks from a SEQUENCE in which they don't ascend, and writes their set.
pub fn measure_der<S: Set>(run: Measured<'_>) -> io::Result<()> {
    let octets = octets::<S>(run)?;
    measure_octets::<S>(run, &octets)
}

fn measure_octets<S: Set>(run: Measured<'_>, octets: &[u8]) -> io::Result<()> {
    let set: S = measure_reading(run, "take_from", Cursor::new(octets))?;
    measure_writing(run, &set)
}

/// Reads canonical octets, once leniently and once strictly.
pub fn measure_modes<S: Set>(run: Measured<'_>) -> io::Result<()> {
    let octets = canonical::<S>(run)?;
    measure_in_modes::<S>(run, &octets)
}

fn measure_in_modes<S: Set>(run: Measured<'_>, octets: &[u8]) -> io::Result<()> {
    let _: S = measure_reading(run, "lenient", Cursor::new(octets))?;
    let _: S = measure_reading(run, "strict", Cursor::new_strict(octets))?;
    Ok(())
}

/// Returns a SEQUENCE of ascending blocks.
fn canonical<S: Set>(run: Measured<'_>) -> Result<Vec<u8>, AllocError> {
    let blocks = run.blocks::<S>(List::One)?;
    S::octets(run.rt.alloc(), &blocks)
}

/// Returns a SEQUENCE of blocks that aren't ascending.
fn octets<S: Set>(run: Measured<'_>) -> Result<Vec<u8>, AllocError> {
    let blocks = run.blocks::<S>(List::One)?;
    octets_of::<S>(run.rt.alloc(), &blocks)
}

fn octets_of<S: Set>(alloc: Global, blocks: &[S::Block]) -> Result<Vec<u8>, AllocError> {
    let blocks = reordered(alloc, blocks)?;
    S::octets(alloc, &blocks)
}

/// Returns the blocks in another order, in which neighbours are far apart.
fn reordered<T: Copy>(alloc: Global, blocks: &[T]) -> Result<Vec<T>, AllocError> {
    let mut taken = Vec::new(alloc);
    let mut at = 0;
    for _ in blocks {
        if let Some(block) = blocks.get(at) {
            taken.push(*block)?;
        }
        at = next_index(at, blocks.len());
    }
    Ok(taken)
}

/// Returns the index that follows another index in that order.
fn next_index(at: usize, count: usize) -> usize {
    at.wrapping_add(STRIDE).checked_rem(count).unwrap_or(0)
}

fn measure_reading<S: Set>(run: Measured<'_>, name: &str, cursor: Cursor<'_>) -> io::Result<S> {
    let start = Instant::now(run.rt)?;
    let set: S = taken(run.rt.alloc(), cursor)?;
    run.report(name, start, set.count(), "blocks")?;
    Ok(set)
}

fn taken<S: Set>(alloc: Global, cursor: Cursor<'_>) -> io::Result<S> {
    let mut cursor = cursor;
    match S::take(alloc, &mut cursor) {
        Ok(set) => Ok(set),
        Err(_) => Err(io::ErrorKind::InvalidData.into()),
    }
}

fn measure_writing<S: Set>(run: Measured<'_>, set: &S) -> io::Result<()> {
    let mut octets = Vec::new(run.rt.alloc());
    let start = Instant::now(run.rt)?;
    set.append(&mut octets)?;
    run.report("encode", start, octets.len(), "octets")
}
