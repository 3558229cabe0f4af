//! The kinds of resources.
ghost use Rattle.respath_lines.specs.Kinds.{IsKindNamed};

/// The kind of the blocks of a list: AS numbers, or addresses of a family.
#[derive(Clone, Copy)]
pub enum Kind {
    /// AS numbers.
    As,
    /// IPv4 addresses.
    V4,
    /// IPv6 addresses.
    V6,
}

/// Returns the kind with the name `as`, `v4` or `v6`, or None for any other word.
pub fn kind_named(word: &str) -> Option<Kind>
    ensures { IsKindNamed word.now result }
{
    match word {
        "as" => Some(Kind::As),
        "v4" => Some(Kind::V4),
        "v6" => Some(Kind::V6),
        _ => None,
    }
}
