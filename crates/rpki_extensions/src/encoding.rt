//! The encodings of extensions that a reader accepts.
ghost use Rattle.std.specs.Prelude.{◌≡◌};
ghost use Rattle.rpki_der.specs.Views.{is_strict, left};
ghost use Rattle.rpki_extensions.specs.Encodings.{is_canonical};

use rpki_der::Cursor;

/// The accepted encodings of an extension's value.
#[derive(Clone, Copy, Debug, PartialEq, Eq)]
pub enum Encoding {
    /// Every encoding that the syntax allows: blocks in any order, overlapping or not (RFC 3779, 2.2.3 and 3.2.3).
    Any,
    /// Only the encoding that a certificate must have (RFC 3779, 2.2.3.3, 2.2.3.6 and 3.2.3.4; X.690, 10 and 11).
    ///
    /// Each block has its canonical form, blocks ascend, no block touches the next one, and IPv4 comes before IPv6.
    Canonical,
}

impl Encoding {
    /// Returns a cursor at the start of `octets`, which accepts values in this encoding.
    ///
    /// The cursor is lenient for [`Encoding::Any`] and strict for [`Encoding::Canonical`].
    pub fn cursor(self, octets: &[u8]) -> Cursor<'_>
        ensures octets { left result ≡ octets.now }
        ensures mode { is_strict result ≡ is_canonical self }
    {
        match self {
            Encoding::Any => Cursor::new(octets),
            Encoding::Canonical => Cursor::new_strict(octets),
        }
    }
}
