//! Finds invalid routes and invalid lines in the answers to routes.
ghost use Rattle.std.specs.Prelude.{◌≡◌, [], true};
ghost use Rattle.origins_lines.specs.Checks.{is_state_after, seen_with};

use lines_engine::watched::Watch;

/// The state of a check after some bytes.
///
/// The check looks for lines that have `i` or `e` at a place. At the place 0, the beginning, the answers `invalid-as`,
/// `invalid-length` and `error: ..` have one of these bytes, and no others. At the place [`STATE`] an object of JSON
/// has one of them if its state is `invalid` or `error`, and no other object has.
#[derive(Clone, Copy, Debug)]
pub struct Seen {
    /// The number of bytes in a line before the byte that the check looks at.
    pub place: u8,
    /// The number of bytes after the last end of line, but at most `place` + 1.
    pub column: usize,
    /// Whether a line with `i` or `e` at the place is in the bytes, up to this byte.
    pub has_found: bool,
}

/// The place of the state's first byte in an object of JSON ([`Routes`](crate::Routes)).
pub const STATE: u8 = 10;

impl Seen {
    /// Returns the state before any byte. The check looks at the byte of a line after `place` bytes.
    pub fn nothing(place: u8) -> Seen
        ensures seen { is_state_after result [] ≡ true }
        ensures place { result.place ≡ place }
    {
        Seen {
            place,
            column: 0,
            has_found: false,
        }
    }

    /// Returns the state after one more byte.
    fn after(self, byte: u8) -> Seen
        ensures { result ≡ seen_with self byte }
    {
        Seen {
            place: self.place,
            column: if byte == b'\n' {
                0
            } else if self.column <= usize::from(self.place) {
                self.column + 1
            } else {
                self.column
            },
            has_found: self.has_found
                || (self.column == usize::from(self.place) && (byte == b'i' || byte == b'e')),
        }
    }
}

impl Watch for Seen {
    ghost use Rattle.origins_lines.specs.Checks.{HasFound};

    ghost sees = { λ seen octets. is_state_after seen octets };

    ghost is_found = { λ seen octets. HasFound seen.place octets };

    #[tactic(auto, using(crate::proofs::CheckLemmas::state_with))]
    fn with(self, byte: u8) -> Seen {
        self.after(byte)
    }

    #[tactic(auto, using(crate::proofs::CheckLemmas::state_found))]
    fn has_found(self) -> bool {
        self.has_found
    }
}
