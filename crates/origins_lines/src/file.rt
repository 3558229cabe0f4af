//! Reads whole files: VRPs, and local exceptions.
ghost use Rattle.std.specs.Prelude.{◌≡◌, false, Err, IfSome, MatchResult, Ok, OnErr, Some};
ghost use Rattle.std.specs.Fn.{FnOnceReturnsAt};
ghost use Rattle.rpki_text.specs.Memory.{IfRefused};
ghost use Rattle.rpki_text.specs.declared.memory.OrMemory.TheVariants.{Refused};
ghost use Rattle.origins_lines.specs.FileResult.{IsFileRead, OfText};
ghost use Rattle.origins_lines.specs.Inputs.{AppendsPart, HasFaultAt, IsPartOf, part_of};
ghost use Rattle.roa_slurm.specs.SlurmFiles.{HasSlurmFault, IsSlurmFile, slurm_value};
ghost use Rattle.roa_vrps.specs.Files.{HasFileFault, IsVrpFile};

use crate::error::{ReadFileError, ReadSlurmError, ReadUnexpiredError, ReadVrpsError};
use lines_engine::device::Source;
use lines_engine::engine::read_to_end;
use lines_engine::error::RunError;
use roa_origin::Vrp;
use roa_slurm::{Slurm, read_slurm};
use roa_vrps::expiry::{ExpiryFault, UnexpiredVrps, read_unexpired};
use roa_vrps::read_vrps;
use rpki_text::memory::OrMemory;
use std::alloc::Allocator;

/// The numbers of VRPs of a file.
#[derive(Clone, Copy, Debug, PartialEq, Eq)]
pub struct Numbers {
    /// The number of VRPs that have not expired.
    pub unexpired: usize,
    /// The number of VRPs that have expired.
    pub expired: usize,
}

/// Reads the whole file, and returns what `parse` returns for its text.
///
/// # Preconditions
///
/// No call of `file` has failed.
///
/// # Errors
///
/// - [`ReadFileError::Read`]: a read failed.
/// - [`ReadFileError::File`]: the file was read to its end, and `parse` refuses it. The field is the fault.
/// - [`ReadFileError::Memory`]: an allocation failed, and no read did.
pub fn read_by<A, P, V, F, Parse>(
    alloc: A,
    file: &mut P,
    parse: Parse,
) -> Result<V, ReadFileError<F>>
where
    A: Allocator + Copy,
    P: Source,
    Parse: FnOnce(&[u8]) -> Result<V, OrMemory<F>>,
    requires clear { P.mark file.old ≡ false }
    requires callable { Parse.IsAlwaysCallable parse }
    ensures { IsFileRead
        (λ file value. OfText (λ text. FnOnceReturnsAt Parse.FnOnce parse text (Ok value)) file)
        (λ text fault. FnOnceReturnsAt Parse.FnOnce parse text (Err (Refused fault)))
        (P.left file.old) (P.left file.new) (P.mark file.new) result }
{
    let text = match read_to_end(alloc, file) {
        Ok(text) => text,
        Err(RunError::Memory) => return Err(ReadFileError::Memory),
        Err(_) => return Err(ReadFileError::Read),
    };
    match parse(&text) {
        Ok(value) => Ok(value),
        Err(OrMemory::Refused(fault)) => Err(ReadFileError::File(fault)),
        Err(OrMemory::Memory(_)) => Err(ReadFileError::Memory),
    }
}

/// Reads the whole file, and returns its VRPs in the order of the file. A repeated VRP is kept.
///
/// The preconditions and errors are those of [`read_by`].
pub fn read_file<A: Allocator + Copy, P: Source>(
    alloc: A,
    file: &mut P,
) -> Result<Vec<Vrp, A>, ReadVrpsError>
    requires clear { P.mark file.old ≡ false }
    ensures { IsFileRead (λ file vrps. IfSome file (λ text. IsVrpFile text vrps.items)) HasFileFault
        (P.left file.old) (P.left file.new) (P.mark file.new) result }
{
    read_by(alloc, file, |text| read_vrps(alloc, text))
}

/// Reads the whole SLURM file, and returns its filters and assertions (RFC 8416, 3).
///
/// Pass the result to [`Slurm::apply`]. The preconditions and errors are those of [`read_by`].
pub fn read_exceptions<A: Allocator + Copy, P: Source>(
    alloc: A,
    file: &mut P,
) -> Result<Slurm<A>, ReadSlurmError>
    requires clear { P.mark file.old ≡ false }
    ensures { IsFileRead (λ file slurm. IfSome file (λ text. IsSlurmFile text (slurm_value slurm))) HasSlurmFault
        (P.left file.old) (P.left file.new) (P.mark file.new) result }
{
    read_by(alloc, file, |text| read_slurm(alloc, text))
}

/// Reads the whole file, and appends its VRPs to `listed` in the order of the file. A repeated VRP is kept.
///
/// - `alloc`: the allocator of the text and of the lists.
/// - `file`: the file.
/// - `time`: the time in seconds since 1970-01-01 UTC, if the VRPs that have expired before it are left out.
/// - `listed`: the list. After an error it is unchanged.
///
/// Returns how many VRPs were appended, and how many have expired. The preconditions and errors are those of
/// [`read_by`].
pub fn add_file<A: Allocator + Copy, P: Source>(
    alloc: A,
    file: &mut P,
    time: Option<u64>,
    listed: &mut Vec<Vrp, A>,
) -> Result<Numbers, ReadUnexpiredError>
    requires clear { P.mark file.old ≡ false }
    ensures file { IsFileRead (λ file numbers. AppendsPart time file listed.old.items listed.new.items numbers)
        (HasFaultAt time) (P.left file.old) (P.left file.new) (P.mark file.new) result }
    ensures kept { OnErr result (listed.new.items ≡ listed.old.items) }
{
    let UnexpiredVrps { vrps, expired } = read_part(alloc, file, time)?;
    let numbers = Numbers {
        unexpired: vrps.len(),
        expired,
    };
    if listed.is_empty() {
        *listed = vrps;
        return Ok(numbers);
    }
    match listed.extend_from_slice(vrps.as_slice()) {
        Ok(()) => Ok(numbers),
        Err(_) => Err(ReadFileError::Memory),
    }
}

/// Reads the whole file, and returns its VRPs, without the expired ones if a time is passed.
fn read_part<A: Allocator + Copy, P: Source>(
    alloc: A,
    file: &mut P,
    time: Option<u64>,
) -> Result<UnexpiredVrps<A>, ReadUnexpiredError>
    requires clear { P.mark file.old ≡ false }
    ensures { IsFileRead (λ file part. IsPartOf time file (part_of part)) (HasFaultAt time)
        (P.left file.old) (P.left file.new) (P.mark file.new) result }
{
    read_by(alloc, file, |text| read_part_text(alloc, text, time))
}

/// Returns the VRPs of a text, without the expired ones if a time is passed, or its first fault.
fn read_part_text<A: Allocator + Copy>(
    alloc: A,
    text: &[u8],
    time: Option<u64>,
) -> Result<UnexpiredVrps<A>, OrMemory<ExpiryFault>>
    ensures { MatchResult result (λ part. IsPartOf time (Some text.now) (part_of part))
        (IfRefused (HasFaultAt time text.now)) }
{
    match time {
        Some(time) => read_unexpired(alloc, text, time),
        None => match read_vrps(alloc, text) {
            Ok(vrps) => Ok(UnexpiredVrps { vrps, expired: 0 }),
            Err(OrMemory::Refused(fault)) => Err(OrMemory::Refused(ExpiryFault::File(fault))),
            Err(OrMemory::Memory(error)) => Err(OrMemory::Memory(error)),
        },
    }
}
