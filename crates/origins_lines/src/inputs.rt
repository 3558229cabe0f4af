//! Reads the VRPs of several files, one after another, and applies the local exceptions of a SLURM file to them.
ghost use Rattle.std.specs.Prelude.{◌≡◌, ◌≢◌, ◌<◌, [], ℕ, Bool, false, List, Option, IfErr, IfOk, OnOk, length};
ghost use Rattle.lines_engine.specs.Device.{MarksFailure};
ghost use Rattle.origins_lines.specs.Inputs.{AppendsPart, AreFilesRead, AreInputsRead, AreValidBefore, IsAppliedIf, IsInputsError};

use crate::error::InputsError;
use crate::file::{Numbers, add_file, read_exceptions};
use lines_engine::device::{DeviceFault, Source};
use roa_origin::Vrp;
use std::alloc::{Allocator, Global};

/// The files that a run may read, by their indices.
///
/// A caller must not open a file after a call that failed (precondition `clear`).
pub trait Inputs {
    /// An open file.
    type File: Source + Drop;

    /// The bytes of the file at each index, if they are modelled.
    ghost text: { Self → ℕ → Option (List ℕ) };

    /// Whether a file could not be opened, or a read of a closed file failed.
    ghost mark: { Self → Bool };

    /// Opens the file at `index`.
    ///
    /// # Preconditions
    ///
    /// The mark is not set: no call has failed.
    ///
    /// # Errors
    ///
    /// [`DeviceFault`]: the file can't be opened. The mark is set then.
    fn open(&mut self, index: usize) -> Result<Self::File, DeviceFault>
        requires clear { mark self.old ≡ false }
        ensures file { IfOk result (λ file. (Self.File.mark file ≡ false)
            × (Self.File.left file ≡ text self.old index)) }
        ensures mark { MarksFailure (mark self.old) (mark self.new) result }
        ensures text { text self.new ≡ text self.old };

    /// Closes a file, and keeps whether a read of it failed.
    ///
    /// # Preconditions
    ///
    /// The mark is not set.
    fn close(&mut self, file: Self::File)
        requires clear { mark self.old ≡ false }
        ensures mark { mark self.new ≡ Self.File.mark file }
        ensures text { text self.new ≡ text self.old };
}

/// The files that give a run its VRPs, and the time at which VRPs may have expired.
#[derive(Clone, Copy, Debug)]
pub struct Selection {
    /// The number of VRP files. Their indices are the numbers below it, and they are read in this order.
    pub files: usize,
    /// The time in seconds since 1970-01-01 UTC, if VRPs that have expired before it are left out.
    pub time: Option<u64>,
    /// The index of the SLURM file, if there is one. It is read after the VRP files.
    pub slurm: Option<usize>,
}

/// The numbers of VRPs that files give.
#[derive(Drop)]
#[derive_where(Debug)]
pub struct Report<A: Allocator = Global> {
    /// The numbers of each VRP file, in the order of the files.
    pub files: Vec<Numbers, A>,
    /// The numbers of all VRP files. The number of expired VRPs is at most `usize::MAX`.
    pub all: Numbers,
    /// The number of VRPs after the local exceptions.
    pub used: usize,
}

/// The VRPs that files give, and their numbers.
#[derive(Drop)]
#[derive_where(Debug)]
pub struct InputVrps<A: Allocator = Global> {
    /// The VRPs, after the local exceptions.
    pub vrps: Vec<Vrp, A>,
    /// The numbers.
    pub report: Report<A>,
}

/// Reads the VRPs of files, one file after another, and applies the local exceptions of a SLURM file to them.
///
/// - `alloc`: the allocator of the texts and of the lists.
/// - `inputs`: the files. The call opens a file only after it closed the file before.
/// - `selection`: which files are read, and at which time VRPs may have expired.
///
/// Returns the VRPs of all files in the order of the files, without the expired ones if a time was passed, after the
/// local exceptions (RFC 8416). A repeated VRP is kept. There is at least one VRP.
///
/// # Preconditions
///
/// No call of `inputs` has failed.
///
/// # Errors
///
/// The first [`InputsError`] in the order of the files. Each file before it is valid. No file after it was opened.
pub fn read_inputs<A: Allocator + Copy, I: Inputs>(
    alloc: A,
    inputs: &mut I,
    selection: Selection,
) -> Result<InputVrps<A>, InputsError>
    requires clear { I.mark inputs.old ≡ false }

    // Ok: no call failed. The result has the VRPs of the files, at least one, and their numbers.
    ensures unmarked { OnOk result (I.mark inputs.new ≡ false) }
    ensures vrps { IfOk result (λ read. AreInputsRead (I.text inputs.old) selection read.vrps.items
        read.report.files.items read.report.all) }
    ensures used { IfOk result (λ read. read.report.used ≡ length read.vrps.items) }
    ensures some { IfOk result (λ read. read.vrps.items ≢ []) }

    // Err: the error is that of the first file with one, or no VRP is left, or an allocation failed.
    ensures wrong { IfErr result (IsInputsError (I.text inputs.old) selection (I.mark inputs.new)) }
{
    let (listed, files, all) = read_files(alloc, inputs, selection)?;
    let vrps = apply_exceptions(alloc, inputs, selection, listed)?;
    if vrps.is_empty() {
        return Err(InputsError::NoVrpLeft(all));
    }
    let used = vrps.len();
    let report = Report { files, all, used };
    Ok(InputVrps { vrps, report })
}

/// Reads the VRPs of all VRP files. Returns them, the numbers of each file and the numbers of all files.
#[tactic(auto, using(crate::proofs::InputLemmas::files_more))]
fn read_files<A: Allocator + Copy, I: Inputs>(
    alloc: A,
    inputs: &mut I,
    selection: Selection,
) -> Result<(Vec<Vrp, A>, Vec<Numbers, A>, Numbers), InputsError>
    requires clear { I.mark inputs.old ≡ false }
    ensures unmarked { OnOk result (I.mark inputs.new ≡ false) }
    ensures text { I.text inputs.new ≡ I.text inputs.old }
    ensures vrps { IfOk result (λ read. AreFilesRead (I.text inputs.old) selection.time selection.files
        read.0.items read.1.items read.2.expired) }
    ensures unexpired { IfOk result (λ read. read.2.unexpired ≡ length read.0.items) }
    ensures wrong { IfErr result (IsInputsError (I.text inputs.old) selection (I.mark inputs.new)) }
{
    let mut listed = Vec::new(alloc);
    let mut files = Vec::new(alloc);
    let mut expired: usize = 0;
    for index in 0..selection.files {
        let numbers = add_input(alloc, inputs, index, selection, &mut listed)?;
        expired = expired.saturating_add(numbers.expired);
        files.push(numbers).map_err(|_| InputsError::Memory)?;
    }
    let all = Numbers {
        unexpired: listed.len(),
        expired,
    };
    Ok((listed, files, all))
}

/// Reads the VRP file at `index`, and appends its VRPs to `listed`. Returns the numbers of the file.
fn add_input<A: Allocator + Copy, I: Inputs>(
    alloc: A,
    inputs: &mut I,
    index: usize,
    selection: Selection,
    listed: &mut Vec<Vrp, A>,
) -> Result<Numbers, InputsError>
    requires clear { I.mark inputs.old ≡ false }
    requires within { index < selection.files }
    requires read { AreValidBefore (I.text inputs.old) selection.time index }
    ensures unmarked { OnOk result (I.mark inputs.new ≡ false) }
    ensures text { I.text inputs.new ≡ I.text inputs.old }
    ensures appended { IfOk result (AppendsPart selection.time (I.text inputs.old index) listed.old.items
        listed.new.items) }
    ensures wrong { IfErr result (IsInputsError (I.text inputs.old) selection (I.mark inputs.new)) }
{
    let Ok(mut file) = inputs.open(index) else {
        return Err(InputsError::NotOpened(index));
    };
    let added = add_file(alloc, &mut file, selection.time, listed);
    inputs.close(file);
    added.map_err(|error| InputsError::File(index, error))
}

/// Returns the VRPs after the local exceptions, if a SLURM file is selected.
fn apply_exceptions<A: Allocator + Copy, I: Inputs>(
    alloc: A,
    inputs: &mut I,
    selection: Selection,
    listed: Vec<Vrp, A>,
) -> Result<Vec<Vrp, A>, InputsError>
    requires clear { I.mark inputs.old ≡ false }
    requires read { AreValidBefore (I.text inputs.old) selection.time selection.files }
    ensures unmarked { OnOk result (I.mark inputs.new ≡ false) }
    ensures applied { IfOk result (λ vrps. IsAppliedIf (I.text inputs.old) selection.slurm listed.items vrps.items) }
    ensures wrong { IfErr result (IsInputsError (I.text inputs.old) selection (I.mark inputs.new)) }
{
    let Some(index) = selection.slurm else {
        return Ok(listed);
    };
    let Ok(mut file) = inputs.open(index) else {
        return Err(InputsError::NotOpened(index));
    };
    let read = read_exceptions(alloc, &mut file);
    inputs.close(file);
    match read {
        Ok(exceptions) => Ok(exceptions.apply(alloc, listed.as_slice())?),
        Err(error) => Err(InputsError::Slurm(index, error)),
    }
}
