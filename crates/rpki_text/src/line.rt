//! The lines of a text.
ghost use Rattle.std.specs.Prelude.{◌≡◌, ◌<◌, ◌∷◌, length, position};
ghost use Rattle.rpki_text.specs.Lines.{is_end, lines_of};

use memchr::memchr;

/// Returns the first line of a text without its end, and the rest of the text after that end.
///
/// `\n` ends a line. The last line may have no end.
///
/// # Preconditions
///
/// The text is not empty.
#[tactic(auto, using(crate::proofs::LineLemmas::first_line, crate::proofs::LineLemmas::only_line))]
pub fn cut_at_line_end(text: &[u8]) -> (&[u8], &[u8])
    requires { 0 < length text.now }
    ensures first { lines_of text.now ≡ result.0.now ∷ lines_of result.1.now }
    ensures shorter { length result.1.now < length text.now }
{
    match line_end(text) {
        Some(at) => (&text[..at], &text[at + 1..]),
        None => (text, &[]),
    }
}

/// Returns the index of the end of the first line, if it has an end.
#[tactic(auto, using(crate::proofs::LineLemmas::first_end))]
fn line_end(text: &[u8]) -> Option<usize>
    ensures { result ≡ position is_end text.now }
{
    memchr(b'\n', text)
}
