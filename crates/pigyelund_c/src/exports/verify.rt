//! The exports on certificates: the version, and verification by an issuer or along a path from a trust anchor.
ghost use Rattle.std.specs.Prelude.{◌≡◌, length, MatchResult, Result};
ghost use Rattle.rpki_text.specs.Memory.{IfRefused};
ghost use Rattle.rpki_text.specs.declared.memory.OrMemory.{OrMemory as Refusing};
ghost use Rattle.rpki_resources.specs.Triples.{Triple};
ghost use Rattle.pigyelund_c.specs.Paths.{IsNoPathOutcome, IsPathOutcome, outcome_alone, verified_count};
ghost use Rattle.pigyelund_c.specs.Returned.{IsCountReturned, IsOutcomeReturned};
ghost use Rattle.pigyelund_c.specs.Verified.{IsOutcome, IsNoOutcome};
ghost use Rattle.pigyelund_c.specs.declared.path.PathError.{PathError};
ghost use Rattle.pigyelund_c.specs.declared.refusal.Refusal.{Refusal};
ghost use Rattle.pigyelund_c.specs.declared.refusal.Refusal.TheVariants.{Unverified};

use crate::certificate::Certificate;
use crate::outcome::{count_or_none, write_outcome};
use crate::path::{counted, path_answered};
use crate::refusal::Refusal;
use crate::request::request_of;
use rpki_extensions::issued::verified_octets;
use rpki_resources::refused_as;
use std::alloc::Global;

/// Returns the version of the library: its major number times 1000000, its minor number times 1000, and its patch
/// number, added.
#[unsafe(no_mangle)]
pub extern "C" fn pigy_version() -> u32
    ensures { result ≡ 2000 }
{
    2000
}

/// Verifies the resources of a certificate against those of its issuer (RFC 3779, 2.3 and 3.3).
///
/// `as_out` and `ip_out` receive the part of the issuer's set that the certificate claims, for AS numbers, IPv4 and
/// IPv6 each. An absent extension or family claims nothing. "inherit" claims all resources of the issuer. A list claims
/// the resources that both the list and the issuer have. The octets of an absent extension are not read.
///
/// - `present`: 1 for AS identifiers, 2 for IP address blocks, 3 for both, 0 for neither.
/// - `encoding`: 16 accepts blocks in any order that the syntax allows, 17 accepts canonical DER only. It holds for the
///   issuer's octets too.
/// - `mode`: 32 refuses an overclaim (RFC 6487, 7.2), 33 reduces the claim to the resources that the issuer has (RFC
///   8360, 4).
/// - `as_len`, `ip_len`, `over_as_len`, `over_ip_len`: receive the lengths in octets, written or required.
///
/// Returns the first status that applies:
///
/// 1. `PIGY_BAD_ENCODING`, `PIGY_BAD_PRESENT`, `PIGY_BAD_MODE`.
/// 2. `PIGY_BAD_AS` + n, `PIGY_BAD_IP` + n, `PIGY_INHERITED`: the issuer's set.
/// 3. `PIGY_ABSENT`.
/// 4. `PIGY_SECOND` + `PIGY_BAD_AS` + n, `PIGY_SECOND` + `PIGY_BAD_IP` + n: the certificate's extensions.
/// 5. `PIGY_OVERCLAIM_AS`, `PIGY_OVERCLAIM_V4`, `PIGY_OVERCLAIM_V6`, with mode 32 only. `over_as` and `over_ip` receive
///    exactly the overclaimed resources of that kind, as a set. If these do not fit, the status is `PIGY_TOO_SMALL`.
/// 6. `PIGY_TOO_SMALL`, then `PIGY_OK`.
///
/// The call can return `PIGY_MEMORY` instead of any other status. With 1 to 4 and with `PIGY_MEMORY` the lengths are 0
/// and the buffers are unchanged. With 5 `as_out` and `ip_out` are unchanged, and their lengths are 0. With
/// `PIGY_TOO_SMALL` the buffers are unchanged.
#[unsafe(no_mangle)]
pub extern "C" fn pigy_verify(
    alloc: Global,
    issuer_as: &[u8],
    issuer_ip: &[u8],
    present: u32,
    cert_as: &[u8],
    cert_ip: &[u8],
    encoding: u32,
    mode: u32,
    as_out: &mut [u8],
    ip_out: &mut [u8],
    as_len: &mut usize,
    ip_len: &mut usize,
    over_as: &mut [u8],
    over_ip: &mut [u8],
    over_as_len: &mut usize,
    over_ip_len: &mut usize,
) -> u32
    ensures { (outcome : Result Triple (Refusing Refusal))
        × MatchResult outcome
        (IsOutcome issuer_as.now issuer_ip.now present cert_as.now cert_ip.now encoding mode)
        (IfRefused (IsNoOutcome issuer_as.now issuer_ip.now present cert_as.now cert_ip.now
        encoding mode))
        × IsOutcomeReturned outcome as_out.old ip_out.old as_out.new ip_out.new as_len.new ip_len.new
        over_as.old over_ip.old over_as.new over_ip.new over_as_len.new over_ip_len.new result }
{
    let outcome = match request_of(
        alloc, issuer_as, issuer_ip, present, cert_as, cert_ip, encoding, mode,
    ) {
        Ok(request) => refused_as(
            verified_octets(alloc, &request.issuer, &request.certificate),
            |reason|
                ensures { result ≡ Unverified reason }
            { Refusal::Unverified(reason) },
        ),
        Err(error) => Err(error),
    };
    write_outcome(
        alloc,
        outcome,
        as_out,
        ip_out,
        as_len,
        ip_len,
        over_as,
        over_ip,
        over_as_len,
        over_ip_len,
    )
}

/// Verifies the resources of certificates on a path, from a trust anchor down.
///
/// The claims of the first certificate are compared with the anchor's set. The claims of each later certificate are
/// compared with the part of the set that the certificates before it leave. `as_out` and `ip_out` receive the part that
/// all certificates leave. If there are no certificates, they receive the anchor's set.
///
/// The octets of all extensions are in `run`. `encoding` is that of `pigy_verify`, and holds for the anchor's octets
/// too. The lengths are in octets, written or required. `verified` receives the number of verified certificates.
///
/// Returns the first status that applies:
///
/// 1. `PIGY_BAD_ENCODING`; `verified` is 0.
/// 2. `PIGY_BAD_AS` + n, `PIGY_BAD_IP` + n, `PIGY_INHERITED`: the anchor's set. `verified` is 0.
/// 3. For each certificate in turn: `PIGY_OUTSIDE`, `PIGY_BAD_PRESENT`, `PIGY_BAD_MODE`, and then 3 to 5 of
///    `pigy_verify`. `verified` is the index of this certificate, counted from 0.
/// 4. `PIGY_TOO_SMALL`, then `PIGY_OK`. `verified` is the number of all certificates.
///
/// With `PIGY_OVERCLAIM_AS`, `PIGY_OVERCLAIM_V4` and `PIGY_OVERCLAIM_V6` the overclaimed resources are written to
/// `over_as` and `over_ip`. If these do not fit, the status is `PIGY_TOO_SMALL`, and `verified` is the index of the
/// certificate. The call can return `PIGY_MEMORY` instead of any other status, and `verified` is then 0.
///
/// With any other status the lengths are 0 and the buffers are unchanged. With `PIGY_TOO_SMALL` the buffers are
/// unchanged.
#[unsafe(no_mangle)]
pub extern "C" fn pigy_verify_path(
    alloc: Global,
    anchor_as: &[u8],
    anchor_ip: &[u8],
    run: &[u8],
    certificates: &[Certificate],
    encoding: u32,
    as_out: &mut [u8],
    ip_out: &mut [u8],
    as_len: &mut usize,
    ip_len: &mut usize,
    over_as: &mut [u8],
    over_ip: &mut [u8],
    over_as_len: &mut usize,
    over_ip_len: &mut usize,
    verified: &mut usize,
) -> u32
    ensures { (outcome : Result Triple (Refusing PathError))
        × MatchResult outcome
        (IsPathOutcome anchor_as.now anchor_ip.now run.now certificates.now encoding)
        (IfRefused
        (IsNoPathOutcome anchor_as.now anchor_ip.now run.now certificates.now encoding))
        × IsCountReturned (verified_count (length certificates.now) outcome) verified.new result
        × IsOutcomeReturned (outcome_alone outcome) as_out.old ip_out.old as_out.new ip_out.new as_len.new
        ip_len.new over_as.old over_ip.old over_as.new over_ip.new over_as_len.new over_ip_len.new result }
{
    let outcome = path_answered(alloc, anchor_as, anchor_ip, run, encoding, certificates);
    let (count, outcome) = counted(certificates, outcome);
    let status = write_outcome(
        alloc,
        outcome,
        as_out,
        ip_out,
        as_len,
        ip_len,
        over_as,
        over_ip,
        over_as_len,
        over_ip_len,
    );
    *verified = count_or_none(status, count);
    status
}
