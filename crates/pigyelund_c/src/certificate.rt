//! A certificate's extensions as a caller passes them.
ghost use Rattle.std.specs.Prelude.{◌≡◌, ◌+◌, ◌<◌, ◌≤◌, length, slice_range, MatchOption, MatchResult};
ghost use Rattle.pigyelund_c.specs.Certificates.{IsCertificate, IsCertificateAt, IsArgumentError, IsArgumentErrorAt};

use crate::encodings::{mode_of, present_of};
use crate::refusal::ArgumentError;
use rpki_extensions::encoding::Encoding;
use rpki_extensions::extensions::Extensions;

/// Returns the extensions whose octets are passed.
///
/// # Errors
///
/// The first of these: `NoPresence` if `present` is above 3, `NoMode` if `mode` is above 1.
pub(crate) fn extensions_of<'a>(
    present: u32,
    numbers: &'a [u8],
    addresses: &'a [u8],
    encoding: Encoding,
    mode: u32,
) -> Result<Extensions<'a>, ArgumentError>
    ensures { MatchResult result (IsCertificate present numbers.now addresses.now encoding mode)
        (IsArgumentError present mode) }
{
    let Some(present) = present_of(present) else {
        return Err(ArgumentError::NoPresence);
    };
    let Some(mode) = mode_of(mode) else {
        return Err(ArgumentError::NoMode);
    };
    Ok(Extensions {
        numbers: present.numbers(numbers),
        addresses: present.addresses(addresses),
        encoding,
        mode,
    })
}

/// A certificate of a path: the ranges of its extensions in a run of octets, and two numbers.
///
/// The ranges are `as_len` octets from `as_start` and `ip_len` octets from `ip_start`. Both lie in the run, also the
/// range of an absent extension.
#[repr(C)]
#[derive(Clone, Copy)]
pub struct Certificate {
    /// The index of the first octet of the AS identifiers, counted from 0.
    pub as_start: usize,
    /// The number of octets of the AS identifiers.
    pub as_len: usize,
    /// The index of the first octet of the IP address blocks, counted from 0.
    pub ip_start: usize,
    /// The number of octets of the IP address blocks.
    pub ip_len: usize,
    /// The extensions that are present: 1 for AS identifiers, 2 for IP address blocks, 3 for both, 0 for neither.
    pub present: u32,
    /// The mode for an overclaim: 0 refuses the certificate, 1 reduces the claim to the resources that the issuer has.
    pub mode: u32,
}

impl Certificate {
    /// Returns the extensions, whose octets are in a run.
    ///
    /// # Errors
    ///
    /// `Outside` if a range does not lie in the run, also the range of an absent extension. Otherwise the first invalid
    /// number, as `extensions_of` returns it.
    pub(crate) fn extensions<'a>(
        &self,
        run: &'a [u8],
        encoding: Encoding,
    ) -> Result<Extensions<'a>, ArgumentError>
        ensures { MatchResult result (IsCertificateAt run.now encoding self.now)
            (IsArgumentErrorAt run.now self.now) }
    {
        let Some(numbers) = octets_at(run, self.as_start, self.as_len) else {
            return Err(ArgumentError::Outside);
        };
        let Some(addresses) = octets_at(run, self.ip_start, self.ip_len) else {
            return Err(ArgumentError::Outside);
        };
        extensions_of(self.present, numbers, addresses, encoding, self.mode)
    }
}

/// Returns the `len` octets from index `at`, or `None` if they do not lie in the run.
fn octets_at(run: &[u8], at: usize, len: usize) -> Option<&[u8]>
    ensures { MatchOption result (length run.now < at + len)
        (λ octets. (at + len ≤ length run.now)
        × (octets.now ≡ slice_range run.now at (at + len))) }
{
    if at > run.len() || len > run.len() - at {
        return None;
    }
    Some(&run[at..at + len])
}
