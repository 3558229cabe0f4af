//! The byte order mark at the beginning of a file.
ghost use Rattle.roa_vrps.specs.Marks.{IsUnmarked};

/// Returns the text of a file without the byte order mark at its beginning, if it has one (RFC 3629, 6; RFC 8259, 8.1).
pub fn without_mark(file: &[u8]) -> &[u8]
    ensures { IsUnmarked file.now result.now }
{
    match file {
        [0xef, 0xbb, 0xbf, text @ ..] => text,
        _ => file,
    }
}
