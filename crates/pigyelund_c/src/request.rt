//! Reading of the arguments of a verification: the issuer's set, and the certificate's extensions.
ghost use Rattle.std.specs.Prelude.{MatchResult};
ghost use Rattle.rpki_text.specs.Memory.{IfRefused};
ghost use Rattle.pigyelund_c.specs.Requests.{IsRequest, IsNoRequest};

use crate::certificate::extensions_of;
use crate::encodings::encoding_of;
use crate::read::set_of;
use crate::refusal::{ArgumentError, Refusal};
use rpki_extensions::extensions::Extensions;
use rpki_resources::repository::resources::ResourceSet;
use rpki_resources::{OrMemory, refused_as};
use std::alloc::Global;

/// An issuer's set, and the extensions of a certificate that the set is to verify.
#[derive(Drop)]
pub(crate) struct Request<'a> {
    pub(crate) issuer: ResourceSet,
    pub(crate) certificate: Extensions<'a>,
}

/// Reads an issuer's set and a certificate. Both are passed as octets. `present`, `encoding` and `mode` are numbers.
///
/// # Errors
///
/// - `Refused` with the first invalid number, or else with the reason why the issuer's octets list no set.
/// - `Memory` if an allocation fails.
pub(crate) fn request_of<'a>(
    alloc: Global,
    issuer_as: &[u8],
    issuer_ip: &[u8],
    present: u32,
    cert_as: &'a [u8],
    cert_ip: &'a [u8],
    encoding: u32,
    mode: u32,
) -> Result<Request<'a>, OrMemory<Refusal>>
    ensures { MatchResult result
        (IsRequest issuer_as.now issuer_ip.now present cert_as.now cert_ip.now encoding mode)
        (IfRefused (IsNoRequest issuer_as.now issuer_ip.now present cert_as.now cert_ip.now
        encoding mode)) }
{
    let Some(encoding) = encoding_of(encoding) else {
        return Err(OrMemory::Refused(Refusal::Asked(ArgumentError::NoEncoding)));
    };
    match extensions_of(present, cert_as, cert_ip, encoding, mode) {
        Ok(certificate) => {
            let issuer = refused_as(
                set_of(alloc, issuer_as, issuer_ip, encoding),
                |reason| Refusal::Issuer(reason),
            )?;
            Ok(Request {
                issuer,
                certificate,
            })
        }
        Err(reason) => Err(OrMemory::Refused(Refusal::Asked(reason))),
    }
}
