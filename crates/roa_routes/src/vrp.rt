//! Reads the texts of VRPs.
ghost use Rattle.std.specs.Prelude.{MatchResult};
ghost use Rattle.roa_routes.specs.Routes.{origin_word, prefix_word};
ghost use Rattle.roa_routes.specs.Texts.{AreVrpWords, HasVrpTextFault, HaveVrpWordsFault, IsVrpText};

use roa_vrps::{Vrp, VrpFault};
use rpki_base::Asn;
use rpki_prefix::{MaxLenPrefix, ParseMaxLenPrefixError};
use rpki_text::cut::cut_at;
use std::str::FromStr;

/// Reads the VRP of a text: a prefix, perhaps a dash and a maximum length, a space and an AS number.
///
/// White space may precede or follow the two words. Without a maximum length the VRP has none (RFC 9582, 4.3.2).
///
/// # Errors
///
/// The first fault of the text, in the order of [`VrpFault`]. It is never one of the numbers of fields. The AS number
/// of a text without a space is empty, so it is invalid.
#[tactic(auto, using(crate::proofs::RouteLineLemmas::vrp_text_found))]
pub fn read_vrp_text(text: &[u8]) -> Result<Vrp, VrpFault>
    ensures { MatchResult result (IsVrpText text.now) (HasVrpTextFault text.now) }
{
    let Ok(text) = str::from_utf8(text) else {
        return Err(VrpFault::NotUtf8);
    };
    read_line(text.trim())
}

/// Returns the VRP of a text without white space at its ends, or its first fault.
fn read_line(text: &str) -> Result<Vrp, VrpFault>
    ensures { MatchResult result (AreVrpWords (prefix_word text.now) (origin_word text.now))
        (HaveVrpWordsFault (prefix_word text.now) (origin_word text.now)) }
{
    // If the text has no space, the second word is empty, which is no AS number.
    let (prefix, asn) = cut_at(text, ' ');
    vrp_of(prefix.trim(), asn.trim())
}

/// Returns the VRP of a prefix with its maximum length and of an AS number, or the first fault.
fn vrp_of(prefix: &str, asn: &str) -> Result<Vrp, VrpFault>
    ensures { MatchResult result (AreVrpWords prefix.now asn.now) (HaveVrpWordsFault prefix.now asn.now) }
{
    let asn = Asn::from_str(asn).map_err(VrpFault::Asn)?;
    match MaxLenPrefix::from_str(prefix) {
        Ok(prefix) => Ok((prefix, asn)),
        Err(fault) => match fault {
            ParseMaxLenPrefixError::InvalidPrefix(fault) => Err(VrpFault::Prefix(fault)),
            ParseMaxLenPrefixError::InvalidMaxLenFormat(fault) => Err(VrpFault::MaxLenFormat(
                fault,
            )),
            ParseMaxLenPrefixError::InvalidMaxLenValue(fault) => Err(VrpFault::MaxLen(fault)),
        },
    }
}
