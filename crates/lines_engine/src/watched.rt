//! A sink that checks the bytes that it takes.
ghost use Rattle.std.specs.Prelude.{◌≡◌, ◌↔◌, ◌++◌, ◌∷◌, ℕ, [], true, Bool, List, IfSome, IsTrue};
ghost use Rattle.lines_engine.specs.Device.{known_if};

use crate::device::{DeviceFault, Sink};

/// The state of a check that looks for something in bytes, one byte after another.
pub trait Watch: Copy {
    // Whether a state is the one after these bytes.
    ghost sees: { Self → List ℕ → Bool };

    // Whether bytes have what the check looks for.
    ghost is_found: { Self → List ℕ → Type 0 };

    /// Returns the state after one more byte.
    fn with(self, byte: u8) -> Self
        ensures { (bytes : List ℕ) → sees self bytes ≡ true → sees result (bytes ++ byte ∷ []) ≡ true };

    /// Returns whether the bytes have what the check looks for.
    fn has_found(self) -> bool
        ensures { (bytes : List ℕ) → sees self bytes ≡ true → IsTrue result ↔ is_found self bytes };
}

/// Returns the state after the bytes of `piece`.
fn with_all<S: Watch>(seen: S, piece: &[u8]) -> S
    ensures { (bytes : List ℕ) → S.sees seen bytes ≡ true → S.sees result (bytes ++ piece.now) ≡ true }
{
    let mut after = seen;
    for byte in piece {
        after = after.with(*byte);
    }
    after
}

/// A sink, with the state of a check of the bytes that it took.
#[derive(Debug, Drop)]
pub struct Watched<W, S> {
    sink: W,
    seen: S,
}

impl<W: Sink, S: Watch> Watched<W, S> {
    /// Wraps a sink, with the state of a check of the bytes that were written to the sink.
    ///
    /// For a sink to which nothing was written, pass the state before any byte.
    pub fn new(sink: W, seen: S) -> Watched<W, S>
        ensures written { ⟦<Watched<W, S> as Sink>⟧.written result ≡ known_if (S.sees seen) (W.written sink) }
        ensures mark { ⟦<Watched<W, S> as Sink>⟧.mark result ≡ W.mark sink }
        ensures flushed { ⟦<Watched<W, S> as Sink>⟧.flushed result ≡ W.flushed sink }
        ensures seen { result.seen ≡ seen }
    {
        Watched { sink, seen }
    }

    /// Returns whether the written bytes have what the check looks for.
    #[tactic(auto, using(crate::proofs::WatchLemmas::known_found))]
    pub fn has_found(&self) -> bool
        ensures { IfSome (⟦<Watched<W, S> as Sink>⟧.written self.now) (λ bytes.
            IsTrue result ↔ S.is_found self.now.seen bytes) }
    {
        self.seen.has_found()
    }

    /// Returns the sink.
    pub fn into_inner(self) -> W
        ensures { result ≡ self.sink }
    {
        self.sink
    }
}

impl<W: Sink, S: Watch> Sink for Watched<W, S> {
    /// The bytes of the sink, if `seen` is the state after them. Otherwise they are unknown.
    ghost written = { λ watched. known_if (S.sees watched.seen) (W.written watched.sink) };

    ghost mark = { λ watched. W.mark watched.sink };

    ghost flushed = { λ watched. W.flushed watched.sink };

    #[tactic(auto, using(crate::proofs::WatchLemmas::known_more, crate::proofs::WatchLemmas::known_kept))]
    fn write(&mut self, piece: &[u8]) -> Result<usize, DeviceFault> {
        let count = self.sink.write(piece)?;
        self.seen = with_all(self.seen, &piece[..count]);
        Ok(count)
    }

    #[tactic(auto, using(crate::proofs::WatchLemmas::known_kept))]
    fn flush(&mut self) -> Result<(), DeviceFault> {
        self.sink.flush()
    }
}
