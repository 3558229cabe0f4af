//! The mode in which octets are read.
use rpki_der::Cursor;

/// Whether a cursor takes canonical octets only.
#[derive(Clone, Copy)]
pub enum Mode {
    Lenient,
    Strict,
}

impl Mode {
    /// Returns a cursor of this mode at the first octet.
    pub fn cursor(self, octets: &[u8]) -> Cursor<'_> {
        match self {
            Mode::Lenient => Cursor::new(octets),
            Mode::Strict => Cursor::new_strict(octets),
        }
    }
}
