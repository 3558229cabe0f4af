//! Files of VRPs with expiries, and the VRPs that have not expired.
//!
//! Call [`read_unexpired`] in place of [`crate::read_vrps`] to leave out the expired VRPs of a file.
ghost use Rattle.std.specs.Prelude.{◌≡◌, IfErr, IfOk, MatchResult, length};
ghost use Rattle.std.specs.List.{count_by};
ghost use Rattle.rpki_text.specs.Memory.{IsMemory, MatchOrMemory};
ghost use Rattle.rpki_text.specs.Reading.{AnswersOrMemory};
ghost use Rattle.roa_vrps.specs.ExpiryFiles.{AreDated, HasExpiryFault, IsUnexpiredFile, is_expired, unexpired_of, unexpired_value};
ghost use Rattle.roa_vrps.specs.Files.{MayWantMemory};

pub use crate::fault::{ExpiresFault, ExpiryFault};
use crate::file::read_file;
use crate::found::Found;
use crate::vrp::Vrp;
use rpki_base::memory::OrMemory;
use std::alloc::{AllocError, Allocator, Global};

/// The VRPs of a file that have not expired, and how many have.
#[derive(Drop)]
#[derive_where(Debug)]
pub struct UnexpiredVrps<A: Allocator = Global> {
    /// The VRPs that have not expired, in the order of the file.
    pub vrps: Vec<Vrp, A>,
    /// The number of VRPs that have expired.
    pub expired: usize,
}

/// Reads the VRPs of a file that have not expired, in the order of the file.
///
/// - `alloc`: the allocator of the list.
/// - `text`: the whole file, as [`crate::read_vrps`] reads it.
/// - `time`: the time in seconds since 1970-01-01 UTC.
///
/// The expiry of a VRP is a whole number of seconds since 1970-01-01 UTC, in decimal digits. In JSON it is the member
/// `expires` of the item, a number. In CSV it is the field in the column `Expires`. A VRP has expired if its expiry is
/// before `time`. A VRP without this member or field, or with an empty field, doesn't expire.
///
/// # Errors
///
/// - [`ExpiryFault::File`]: the file is not a valid file of VRPs. The field is the fault of [`crate::read_vrps`].
/// - [`ExpiryFault::Line`]: the first line of CSV with an invalid expiry.
/// - [`ExpiryFault::Item`]: the first item of JSON with an invalid expiry.
/// - [`OrMemory::Memory`]: an allocation failed.
pub fn read_unexpired<A: Allocator + Copy>(
    alloc: A,
    text: &[u8],
    time: u64,
) -> Result<UnexpiredVrps<A>, OrMemory<ExpiryFault>>
    ensures answers { AnswersOrMemory unexpired_value
        (λ found. IsUnexpiredFile text.now time found.0 found.1) (HasExpiryFault text.now) result }

    // An allocation failed, and `read_vrps` may request memory for the file.
    ensures memory { IfErr result (λ error. IsMemory error → MayWantMemory text.now) }
{
    let (vrps, expiries) = read_dated(alloc, text)?;
    let kept = unexpired(alloc, &vrps, &expiries, time)?;
    Ok(UnexpiredVrps {
        vrps: kept,
        expired: expired_count(&expiries, time),
    })
}

/// Returns the VRPs of a file and their expiries, or the first fault of the file.
#[tactic(auto, using(crate::proofs::FileLemmas::dated_read, crate::proofs::FileLemmas::wrong_read))]
fn read_dated<A: Allocator + Copy>(
    alloc: A,
    text: &[u8],
) -> Result<(Vec<Vrp, A>, Vec<Option<u64>, A>), OrMemory<ExpiryFault>>
    ensures { MatchResult result (λ found. AreDated text.now found.0.items found.1.items)
        (λ error. MatchOrMemory error (HasExpiryFault text.now) (MayWantMemory text.now)) }
{
    let Found { vrps, expiries } = match read_file(alloc, text, true) {
        Ok(found) => found,
        Err(OrMemory::Refused(fault)) => return Err(OrMemory::Refused(ExpiryFault::File(fault))),
        Err(OrMemory::Memory(error)) => return Err(OrMemory::Memory(error)),
    };
    match expiries {
        Ok(expiries) => Ok((vrps, expiries)),
        Err(fault) => Err(OrMemory::Refused(fault)),
    }
}

/// Returns whether a VRP with this expiry has expired at `time`.
fn has_expired(expiry: Option<u64>, time: u64) -> bool
    ensures { result ≡ is_expired time expiry }
{
    match expiry {
        Some(expiry) => expiry < time,
        None => false,
    }
}

/// Returns the VRPs that have not expired, in their order. Each VRP has the expiry of the same index.
fn unexpired<A: Allocator>(
    alloc: A,
    vrps: &[Vrp],
    expiries: &[Option<u64>],
    time: u64,
) -> Result<Vec<Vrp, A>, AllocError>
    requires { length expiries.now ≡ length vrps.now }
    ensures { IfOk result (λ kept. kept.items ≡ unexpired_of time vrps.now expiries.now) }
{
    let mut kept = Vec::new(alloc);
    for (index, vrp) in vrps.iter().enumerate() {
        if !has_expired(expiries[index], time) {
            kept.push(*vrp)?;
        }
    }
    Ok(kept)
}

/// Returns how many of the expiries are before `time`.
fn expired_count(expiries: &[Option<u64>], time: u64) -> usize
    ensures { result ≡ count_by (is_expired time) expiries.now }
{
    expiries
        .iter()
        .filter(|expiry| has_expired(**expiry, time))
        .count()
}
