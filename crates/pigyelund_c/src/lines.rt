//! Answers of `respath` that are error messages.
ghost use Rattle.std.specs.Prelude.{◌↔◌, IsTrue};
ghost use Rattle.pigyelund_c.specs.Lines.{BeginsAsError};

/// Returns whether a text begins with `error: `, as the answer to an invalid line does.
pub(crate) fn begins_as_error(text: &[u8]) -> bool
    ensures { IsTrue result ↔ BeginsAsError text.now }
{
    text.starts_with(b"error: ")
}
