//! Operations on two sets: they make a third set, or compare the two.
ghost use Rattle.std.specs.Prelude.{IfOk, MatchResult};
ghost use Rattle.rpki_text.specs.Memory.{IfRefused};
ghost use Rattle.rpki_resources.specs.Triples.{HasEachOf};
ghost use Rattle.pigyelund_c.specs.Pairs.{AreNotRead, AreSame, IsBy, IsMade, IsSymmetricDifferenceOf, IsTested};

use crate::pair::{ReadPairError, pair_of};
use rpki_resources::OrMemory;
use rpki_resources::repository::resources::ResourceSet;
use std::alloc::{AllocError, Global};

/// An operation that makes a set of two.
#[derive(Clone, Copy)]
pub(crate) enum Operation {
    /// Resources that one or the other has.
    Union,
    /// Resources that both have.
    Intersection,
    /// Resources that the first has and the second does not.
    Difference,
    /// Resources that exactly one of them has.
    SymmetricDifference,
}

/// Returns the resources that exactly one of two sets has.
///
/// # Errors
///
/// [`AllocError`] if an allocation fails.
fn symmetric_difference(
    alloc: Global,
    a: &ResourceSet,
    b: &ResourceSet,
) -> Result<ResourceSet, AllocError>
    ensures { IfOk result (IsSymmetricDifferenceOf a.now b.now) }
{
    let first = a.minus(alloc, b)?;
    let second = b.minus(alloc, a)?;
    let set = first.union(alloc, &second)?;
    Ok(set)
}

impl Operation {
    /// Returns the set that the operation makes of two.
    ///
    /// # Errors
    ///
    /// [`AllocError`] if an allocation fails.
    pub(crate) fn on(
        self,
        alloc: Global,
        a: &ResourceSet,
        b: &ResourceSet,
    ) -> Result<ResourceSet, AllocError>
        ensures { IfOk result (IsBy self a.now b.now) }
    {
        match self {
            Operation::Union => a.union(alloc, b),
            Operation::Intersection => a.intersection(alloc, b),
            Operation::Difference => a.minus(alloc, b),
            Operation::SymmetricDifference => symmetric_difference(alloc, a, b),
        }
    }
}

/// Returns the set that an operation makes of two sets, which are read from octets.
///
/// # Errors
///
/// - `Refused` with the first reason why the octets are not two sets.
/// - `Memory` if an allocation fails.
pub(crate) fn made(
    alloc: Global,
    operation: Operation,
    a_as: &[u8],
    a_ip: &[u8],
    b_as: &[u8],
    b_ip: &[u8],
    encoding: u32,
) -> Result<ResourceSet, OrMemory<ReadPairError>>
    ensures { MatchResult result
        (IsMade (IsBy operation) a_as.now a_ip.now b_as.now b_ip.now encoding)
        (IfRefused (AreNotRead a_as.now a_ip.now b_as.now b_ip.now encoding)) }
{
    let pair = pair_of(alloc, a_as, a_ip, b_as, b_ip, encoding)?;
    match operation.on(alloc, &pair.first, &pair.second) {
        Ok(set) => Ok(set),
        Err(error) => Err(OrMemory::Memory(error)),
    }
}

/// Returns whether the first of two sets has each number and each address of the second.
///
/// # Errors
///
/// The errors are those of [`made`].
pub(crate) fn has_each(
    alloc: Global,
    a_as: &[u8],
    a_ip: &[u8],
    b_as: &[u8],
    b_ip: &[u8],
    encoding: u32,
) -> Result<bool, OrMemory<ReadPairError>>
    ensures { MatchResult result
        (IsTested HasEachOf a_as.now a_ip.now b_as.now b_ip.now encoding)
        (IfRefused (AreNotRead a_as.now a_ip.now b_as.now b_ip.now encoding)) }
{
    let pair = pair_of(alloc, a_as, a_ip, b_as, b_ip, encoding)?;
    Ok(pair.first.contains(&pair.second))
}

/// Returns whether two sets are the same.
///
/// # Errors
///
/// The errors are those of [`made`].
pub(crate) fn are_same(
    alloc: Global,
    a_as: &[u8],
    a_ip: &[u8],
    b_as: &[u8],
    b_ip: &[u8],
    encoding: u32,
) -> Result<bool, OrMemory<ReadPairError>>
    ensures { MatchResult result
        (IsTested AreSame a_as.now a_ip.now b_as.now b_ip.now encoding)
        (IfRefused (AreNotRead a_as.now a_ip.now b_as.now b_ip.now encoding)) }
{
    let pair = pair_of(alloc, a_as, a_ip, b_as, b_ip, encoding)?;
    Ok(pair.first == pair.second)
}
