//! Numbers that select an option: the encoding, the mode for an overclaim, and the extensions that are present.
ghost use Rattle.std.specs.Prelude.{◌≡◌, ◌≢◌, MatchOption, option_map};
ghost use Rattle.rpki_chain.specs.declared.path.Overclaim.{Overclaim as Mode};
ghost use Rattle.rpki_extensions.specs.declared.encoding.Encoding.{Encoding as Way};
ghost use Rattle.pigyelund_c.specs.Numbers.{addresses_there, encoding_number, mode_number, numbers_there, present_number};
ghost use Rattle.pigyelund_c.specs.declared.encodings.Present.{Present as There};

use rpki_extensions::encoding::Encoding;
use rpki_resources::repository::resources::Overclaim;

/// The extensions that a certificate has.
#[derive(Clone, Copy)]
pub(crate) enum Present {
    /// Neither.
    Neither,
    /// AS identifiers only.
    Numbers,
    /// IP address blocks only.
    Addresses,
    /// Both.
    Both,
}

impl Present {
    /// Returns the octets of AS identifiers, or `None` if that extension is absent.
    pub(crate) fn numbers(self, octets: &[u8]) -> Option<&[u8]>
        ensures { option_map (λ octets. octets.now) result ≡ numbers_there self octets.now }
    {
        match self {
            Present::Neither | Present::Addresses => None,
            Present::Numbers | Present::Both => Some(octets),
        }
    }

    /// Returns the octets of IP address blocks, or `None` if that extension is absent.
    pub(crate) fn addresses(self, octets: &[u8]) -> Option<&[u8]>
        ensures { option_map (λ octets. octets.now) result ≡ addresses_there self octets.now }
    {
        match self {
            Present::Neither | Present::Numbers => None,
            Present::Addresses | Present::Both => Some(octets),
        }
    }
}

/// Returns the encoding with this number, or `None` if no encoding has it.
pub(crate) fn encoding_of(number: u32) -> Option<Encoding>
    ensures { MatchOption result ((encoding : Way) → number ≢ encoding_number encoding)
        (λ encoding. number ≡ encoding_number encoding) }
{
    match number {
        16 => Some(Encoding::Any),
        17 => Some(Encoding::Canonical),
        _ => None,
    }
}

/// Returns the mode with this number, or `None` if no mode has it.
pub(crate) fn mode_of(number: u32) -> Option<Overclaim>
    ensures { MatchOption result ((mode : Mode) → number ≢ mode_number mode)
        (λ mode. number ≡ mode_number mode) }
{
    match number {
        32 => Some(Overclaim::Refuse),
        33 => Some(Overclaim::Trim),
        _ => None,
    }
}

/// Returns the extensions with this number, 0 to 3, or `None` for any other number.
pub(crate) fn present_of(number: u32) -> Option<Present>
    ensures { MatchOption result ((present : There) → number ≢ present_number present)
        (λ present. number ≡ present_number present) }
{
    match number {
        0 => Some(Present::Neither),
        1 => Some(Present::Numbers),
        2 => Some(Present::Addresses),
        3 => Some(Present::Both),
        _ => None,
    }
}
