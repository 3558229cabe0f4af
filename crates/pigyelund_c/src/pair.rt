//! Two sets that are passed as octets, or the first reason why there are not two, and its status.
ghost use Rattle.std.specs.Prelude.{◌≡◌, MatchResult};
ghost use Rattle.rpki_text.specs.Memory.{IfRefused};
ghost use Rattle.pigyelund_c.specs.Pairs.{AreNotRead, AreNotTwo, AreRead, AreTwo};
ghost use Rattle.pigyelund_c.specs.PairStatuses.{answer_number, made_set, made_status, read_pair_error_status, test_answer, test_status};

use crate::encodings::encoding_of;
use crate::read::set_of;
use crate::refusal::ReadSetError;
use pigyelund_routes::status;
use rpki_extensions::encoding::Encoding;
use rpki_resources::repository::resources::ResourceSet;
use rpki_resources::{OrMemory, refused_as};
use std::alloc::Global;

/// Two sets that were read.
#[derive(Drop)]
pub(crate) struct Pair {
    pub(crate) first: ResourceSet,
    pub(crate) second: ResourceSet,
}

/// The reason why the octets of two sets are not two sets.
#[derive(Drop)]
pub(crate) enum ReadPairError {
    /// The number of the encoding is invalid.
    NoEncoding,
    /// The octets of the first set list no set.
    First(ReadSetError),
    /// The octets of the second set list no set.
    Second(ReadSetError),
}

impl ReadPairError {
    /// Returns the status of this reason.
    fn status(&self) -> u32
        ensures { result ≡ read_pair_error_status self.now }
    {
        match self {
            ReadPairError::NoEncoding => status::BAD_ENCODING,
            ReadPairError::First(reason) => reason.status(),
            ReadPairError::Second(reason) => status::SECOND + reason.status(),
        }
    }
}

/// Returns the sets that the octets list. The first set is read before the second.
///
/// # Errors
///
/// - `Refused` with the first reason why octets list no set.
/// - `Memory` if an allocation fails.
fn two(
    alloc: Global,
    a_as: &[u8],
    a_ip: &[u8],
    b_as: &[u8],
    b_ip: &[u8],
    encoding: Encoding,
) -> Result<Pair, OrMemory<ReadPairError>>
    ensures { MatchResult result (AreTwo encoding a_as.now a_ip.now b_as.now b_ip.now)
        (IfRefused (AreNotTwo encoding a_as.now a_ip.now b_as.now b_ip.now)) }
{
    let first = refused_as(
        set_of(alloc, a_as, a_ip, encoding),
        |reason| ReadPairError::First(reason),
    )?;
    let second = refused_as(
        set_of(alloc, b_as, b_ip, encoding),
        |reason| ReadPairError::Second(reason),
    )?;
    Ok(Pair { first, second })
}

/// Returns the sets that the octets list. `encoding` is a number.
///
/// # Errors
///
/// - `Refused` with `NoEncoding` if the encoding is unknown, and otherwise as [`two`] does.
/// - `Memory` if an allocation fails.
pub(crate) fn pair_of(
    alloc: Global,
    a_as: &[u8],
    a_ip: &[u8],
    b_as: &[u8],
    b_ip: &[u8],
    encoding: u32,
) -> Result<Pair, OrMemory<ReadPairError>>
    ensures { MatchResult result (AreRead a_as.now a_ip.now b_as.now b_ip.now encoding)
        (IfRefused (AreNotRead a_as.now a_ip.now b_as.now b_ip.now encoding)) }
{
    match encoding_of(encoding) {
        Some(encoding) => two(alloc, a_as, a_ip, b_as, b_ip, encoding),
        None => Err(OrMemory::Refused(ReadPairError::NoEncoding)),
    }
}

/// Returns the status of a set that was made of two, and the set that is returned with it. It is empty for an error.
pub(crate) fn status_and_made_set(
    outcome: Result<ResourceSet, OrMemory<ReadPairError>>,
) -> (u32, ResourceSet)
    ensures { result ≡ (made_status outcome, made_set outcome) }
{
    match outcome {
        Ok(set) => (status::OK, set),
        Err(OrMemory::Refused(reason)) => (reason.status(), ResourceSet::empty()),
        Err(OrMemory::Memory(_)) => (status::MEMORY, ResourceSet::empty()),
    }
}

/// Returns the number of an answer: 1 for yes, 0 for no.
pub(crate) fn answer_number(answer: bool) -> u8
    ensures { result ≡ answer_number answer }
{
    if answer { 1 } else { 0 }
}

/// Returns the status of a test of two sets. `answer` receives 1 for yes and 0 for no, and 0 with an error.
pub(crate) fn write_test(outcome: Result<bool, OrMemory<ReadPairError>>, answer: &mut u8) -> u32
    ensures { (result ≡ test_status outcome) × (answer.new ≡ test_answer outcome) }
{
    *answer = 0;
    match outcome {
        Ok(yes) => {
            *answer = answer_number(yes);
            status::OK
        }
        Err(OrMemory::Refused(reason)) => reason.status(),
        Err(OrMemory::Memory(_)) => status::MEMORY,
    }
}
