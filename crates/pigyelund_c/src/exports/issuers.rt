//! The exports that verify certificates by the set of a handle.
ghost use Rattle.std.specs.Prelude.{◌≡◌, length, MatchResult, Result};
ghost use Rattle.std.specs.Ptr.{null_ptr};
ghost use Rattle.rpki_text.specs.Memory.{IfRefused};
ghost use Rattle.rpki_text.specs.declared.memory.OrMemory.{OrMemory as Refusing};
ghost use Rattle.rpki_resources.specs.Triples.{Triple};
ghost use Rattle.pigyelund_routes.specs.Tables.{IsAsked};
ghost use Rattle.pigyelund_c.specs.Paths.{outcome_alone, verified_count};
ghost use Rattle.pigyelund_c.specs.Returned.{IsCountReturned};
ghost use Rattle.pigyelund_c.specs.SetHandles.{AreOutcomesGiven, IsNoOutcomeBy, IsNoPathOutcomeBy, IsOutcomeBy, IsPathOutcomeBy};
ghost use Rattle.pigyelund_c.specs.declared.path.PathError.{PathError};
ghost use Rattle.pigyelund_c.specs.declared.refusal.Refusal.{Refusal};

use crate::certificate::Certificate;
use crate::outcome::count_or_none;
use crate::path::counted;
use crate::set_calls::{give_outcome, path_verified_by, verified_by};
use crate::set_handle::{SetOutput, SetRef};
use pigyelund_routes::status;
use std::alloc::Global;

/// Verifies the resources of a certificate against the set of its issuer, as `pigy_verify` does.
///
/// The issuer's set is that of a handle, and is not read from octets again. `out` receives the handle of the verified
/// resources. `excess` receives that of the overclaimed resources.
///
/// Returns the first status that applies:
///
/// 1. `PIGY_NO_HANDLE`.
/// 2. `PIGY_BAD_ENCODING`, `PIGY_BAD_PRESENT`, `PIGY_BAD_MODE`.
/// 3. `PIGY_ABSENT`.
/// 4. `PIGY_SECOND` + `PIGY_BAD_AS` + n, `PIGY_SECOND` + `PIGY_BAD_IP` + n: the certificate's extensions.
/// 5. `PIGY_OVERCLAIM_AS`, `PIGY_OVERCLAIM_V4`, `PIGY_OVERCLAIM_V6`, with mode 32 only.
/// 6. `PIGY_OK`.
///
/// The call can return `PIGY_MEMORY` instead of any status except `PIGY_NO_HANDLE`. `out` is null for any status except
/// `PIGY_OK`. `excess` is null for any status except those of 5.
#[unsafe(no_mangle)]
pub extern "C" fn pigy_resources_verify(
    alloc: Global,
    issuer: SetRef,
    cert_as: &[u8],
    cert_ip: &[u8],
    present: u32,
    encoding: u32,
    mode: u32,
    out: &mut SetOutput,
    excess: &mut SetOutput,
) -> u32
    ensures { IsAsked issuer.at ((outcome : Result Triple (Refusing Refusal))
        × MatchResult outcome
        (IsOutcomeBy issuer.set present cert_as.now cert_ip.now encoding mode)
        (IfRefused (IsNoOutcomeBy issuer.set present cert_as.now cert_ip.now encoding mode))
        × AreOutcomesGiven outcome out.new.given out.new.at excess.new.given excess.new.at result)
        ((out.new.at ≡ null_ptr) × (excess.new.at ≡ null_ptr)) result }
{
    *out = SetOutput::null();
    *excess = SetOutput::null();
    let Some(issuer) = issuer.set() else {
        return status::NO_HANDLE;
    };
    let outcome = verified_by(alloc, issuer, cert_as, cert_ip, present, encoding, mode);
    give_outcome(alloc, outcome, out, excess)
}

/// Verifies the resources of certificates on a path, as `pigy_verify_path` does.
///
/// The anchor's set is that of a handle, and is not read from octets again. The octets of all extensions are in `run`.
/// `out` receives the handle of the verified resources of the last certificate. `excess` receives that of the
/// overclaimed resources. `verified` receives the number of verified certificates.
///
/// Returns the first status that applies:
///
/// 1. `PIGY_NO_HANDLE`, `PIGY_BAD_ENCODING`; `verified` is 0.
/// 2. For each certificate in turn: `PIGY_OUTSIDE`, `PIGY_BAD_PRESENT`, `PIGY_BAD_MODE`, and then 3 to 5 of
///    `pigy_resources_verify`. `verified` is the index of this certificate, counted from 0.
/// 3. `PIGY_OK`. `verified` is the number of all certificates.
///
/// The call can return `PIGY_MEMORY` instead of any status except `PIGY_NO_HANDLE`, and `verified` is then 0. `out` is
/// null for any status except `PIGY_OK`. `excess` is null for any status except those of overclaimed resources.
#[unsafe(no_mangle)]
pub extern "C" fn pigy_resources_verify_path(
    alloc: Global,
    anchor: SetRef,
    run: &[u8],
    certificates: &[Certificate],
    encoding: u32,
    out: &mut SetOutput,
    excess: &mut SetOutput,
    verified: &mut usize,
) -> u32
    ensures { IsAsked anchor.at ((outcome : Result Triple (Refusing PathError))
        × MatchResult outcome (IsPathOutcomeBy anchor.set run.now certificates.now encoding)
        (IfRefused (IsNoPathOutcomeBy anchor.set run.now certificates.now encoding))
        × IsCountReturned (verified_count (length certificates.now) outcome) verified.new result
        × AreOutcomesGiven (outcome_alone outcome) out.new.given out.new.at excess.new.given
        excess.new.at result)
        ((out.new.at ≡ null_ptr) × (excess.new.at ≡ null_ptr) × (verified.new ≡ 0)) result }
{
    *out = SetOutput::null();
    *excess = SetOutput::null();
    *verified = 0;
    let Some(anchor) = anchor.set() else {
        return status::NO_HANDLE;
    };
    let outcome = path_verified_by(alloc, anchor, run, certificates, encoding);
    let (count, outcome) = counted(certificates, outcome);
    let status = give_outcome(alloc, outcome, out, excess);
    *verified = count_or_none(status, count);
    status
}
