//! Finds errors and refusals in written answers.
ghost use Rattle.std.specs.Prelude.{◌≡◌, ◌<◌, [], length, true};
ghost use Rattle.respath_places.specs.Checks.{HasFaultLine, is_after, matched_with};

use lines_engine::watched::Watch;

const ERROR: &[u8] = b"error: ";

const REFUSED: &[u8] = b"refused ";

/// The state of a check for lines that begin with `error: ` or `refused `, as each answer to an invalid line or to a
/// path with a refused step does. A line whose end is not written yet counts as a line.
#[derive(Clone, Copy, Debug)]
pub struct Seen {
    error: usize,
    refused: usize,
}

/// Returns how many bytes of a word a line has matched, after one more byte. The count is one more than the length of
/// the word if the line does not begin as the word does.
fn matched_with(word: &[u8], count: usize, byte: u8) -> usize
    requires { length word.now < 64 }
    ensures { result ≡ matched_with word.now count byte }
{
    if count == word.len() {
        count
    } else if byte == b'\n' {
        0
    } else if count < word.len() && word[count] == byte {
        count + 1
    } else {
        word.len() + 1
    }
}

impl Seen {
    /// Returns the state before any byte.
    pub fn nothing() -> Seen
        ensures { is_after [] result ≡ true }
    {
        Seen {
            error: 0,
            refused: 0,
        }
    }
}

impl Watch for Seen {
    ghost sees = { λ seen bytes. is_after bytes seen };

    ghost is_found = { λ _. HasFaultLine };

    fn with(self, byte: u8) -> Seen {
        Seen {
            error: matched_with(ERROR, self.error, byte),
            refused: matched_with(REFUSED, self.refused, byte),
        }
    }

    #[tactic(auto, using(crate::proofs::AnswerLemmas::seen_found))]
    fn has_found(self) -> bool {
        (self.error == ERROR.len()) | (self.refused == REFUSED.len())
    }
}
