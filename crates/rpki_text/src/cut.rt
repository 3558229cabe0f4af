//! Texts cut at a character.
ghost use Rattle.std.specs.Prelude.{◌≡◌, ◌==◌, ◌<◌, length};
ghost use Rattle.std.specs.List.{before_first, after_first};

/// Returns the text before the first `mark` and the text after it. The second is empty if there is no `mark`.
pub fn cut_at(text: &str, mark: char) -> (&str, &str)
    ensures before { mark < 128 → result.0.now ≡ before_first (λ byte. byte == mark) text.now }
    ensures behind { mark < 128 → result.1.now ≡ after_first (λ byte. byte == mark) text.now }
    ensures shorter { 0 < length text.now → length result.1.now < length text.now }
{
    match text.split_once(mark) {
        Some((before, behind)) => (before, behind),
        None => (text, ""),
    }
}
