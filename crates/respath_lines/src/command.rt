//! Cuts a line into words.
ghost use Rattle.std.specs.Prelude.{◌≡◌};
ghost use Rattle.std.specs.List.{before_first, after_first, position_or_len};
ghost use Rattle.rpki_text.specs.Cuts.{is_space};

/// Returns the index of the first space of a text, or the length of the text if it has none.
///
/// Words are short, so a loop over their bytes is faster than a search for a character.
#[tactic(auto, using(std::proofs::lemmas::List::Sums::position_or_len_is))]
fn first_space(text: &[u8]) -> usize
    ensures { result ≡ position_or_len is_space text.now }
{
    let mut at = 0;
    while at < text.len() && text[at] != b' ' {
        at += 1;
    }
    at
}

/// Returns the text before the first space, and the text after it, which is empty if there is no space.
#[tactic(auto, using(crate::proofs::CommandLemmas::cut_before, crate::proofs::CommandLemmas::cut_behind))]
pub fn cut_at_space(text: &str) -> (&str, &str)
    ensures word { result.0.now ≡ before_first is_space text.now }
    ensures rest { result.1.now ≡ after_first is_space text.now }
{
    let at = first_space(text.as_bytes());
    if at >= text.len() {
        return (text, "");
    }
    let (word, _) = text.split_at(at);
    let (_, rest) = text.split_at(at + 1);
    (word, rest)
}
