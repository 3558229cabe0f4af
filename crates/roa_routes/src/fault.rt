//! Faults of lines of routes.
ghost use Rattle.std.specs.Prelude.{◌≡◌, Some};
ghost use Rattle.std.specs.Fmt.{WritesOnOk};
ghost use Rattle.roa_routes.specs.Routes.{prefix_fault_text};

use rpki_base::asn::ParseAsnError;
use rpki_prefix::ParsePrefixError;
use std::error::Error;
use std::fmt;

/// A fault of a line with a route. A call returns the first fault in the order of the variants.
#[derive(Clone, Copy, Debug, PartialEq, Eq)]
pub enum RouteFault {
    /// The line isn't UTF-8.
    NotUtf8,
    /// The line is from a dump and lacks the field of the prefix or that of the path.
    TooFewFields,
    /// The line has no space, and would be a route if its first comma were a space.
    CommaForSpace,
    /// The first word of the line is not a prefix. It has a tab, or it is an AS number.
    OtherWord,
    /// The text of the prefix is not a prefix.
    Prefix(ParsePrefixError),
    /// The text of the origin is not an AS number.
    Asn(ParseAsnError),
}

/// Prints the fault of a prefix with the words of its `Display`. No contract states the text of that `Display`.
fn fmt_prefix_fault<W: fmt::Write>(
    fault: &ParsePrefixError,
    f: &mut fmt::Formatter<W>,
) -> fmt::Result
    ensures { WritesOnOk W.write_str_gives f.old result (prefix_fault_text fault.now) f.new }
{
    match fault {
        ParsePrefixError::Empty => f.write_str("empty string"),
        ParsePrefixError::MissingLen => f.write_str("missing length portion"),
        ParsePrefixError::InvalidAddr(fault) => write!(f, "invalid address: {fault}"),
        ParsePrefixError::InvalidLen(fault) => write!(f, "invalid length: {fault}"),
        ParsePrefixError::InvalidPrefix(fault) => f.write_str(fault.static_description()),
    }
}

/// Prints the fault without the line: `not UTF-8`, `too few fields` and so on.
impl fmt::Display for RouteFault {
    ghost use Rattle.roa_routes.specs.Routes.{route_fault_text};

    ghost output = { λ fault. Some (route_fault_text fault) };

    fn fmt<W: fmt::Write>(&self, f: &mut fmt::Formatter<W>) -> fmt::Result {
        match self {
            RouteFault::NotUtf8 => f.write_str("not UTF-8"),
            RouteFault::TooFewFields => f.write_str("too few fields"),
            RouteFault::CommaForSpace => f.write_str("a comma where a space is expected"),
            RouteFault::OtherWord => f.write_str("expected: PREFIX AS"),
            RouteFault::Prefix(fault) => {
                f.write_str("invalid prefix: ")?;
                fmt_prefix_fault(fault, f)
            }
            RouteFault::Asn(_) => f.write_str("invalid AS number"),
        }
    }
}

impl Error for RouteFault {}

impl From<ParsePrefixError> for RouteFault {
    ghost use Rattle.roa_routes.specs.declared.fault.RouteFault.TheVariants.{Prefix};

    ghost from_gives = { λ fault error. error ≡ Prefix fault };

    fn from(fault: ParsePrefixError) -> RouteFault {
        RouteFault::Prefix(fault)
    }
}

impl From<ParseAsnError> for RouteFault {
    ghost use Rattle.roa_routes.specs.declared.fault.RouteFault.TheVariants.{Asn};

    ghost from_gives = { λ fault error. error ≡ Asn fault };

    fn from(fault: ParseAsnError) -> RouteFault {
        RouteFault::Asn(fault)
    }
}
