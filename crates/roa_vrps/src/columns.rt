//! The fields of a line, and the columns of a CSV file.
ghost use Rattle.std.specs.Prelude.{◌≡◌, ◌↔◌, ◌<◌, ℕ, IfSome, IsTrue, MatchOption, length};
ghost use Rattle.std.specs.Str.{trim};
ghost use Rattle.roa_vrps.specs.Columns.{IsColumn, IsHeader, Names, field, field_count, unquoted};

use rpki_text::cut::cut_at;

/// A column that the readers know. A line with a VRP must have the first three.
#[derive(Clone, Copy, Debug, PartialEq, Eq)]
pub enum Column {
    /// The AS number. The column's name is `ASN`.
    Asn,
    /// The prefix. The column's name is `IP Prefix` or `Prefix`.
    Prefix,
    /// The maximum length. The column's name is `Max Length` or `Max prefix length`.
    MaxLen,
    /// The expiry. The column's name is `Expires`.
    Expires,
}

impl Column {
    /// Returns whether `text` is a name of the column.
    fn is_named(self, text: &str) -> bool
        ensures { IsTrue result ↔ Names self text.now }
    {
        match self {
            Column::Asn => text == "ASN",
            Column::Prefix => text == "IP Prefix" || text == "Prefix",
            Column::MaxLen => text == "Max Length" || text == "Max prefix length",
            Column::Expires => text == "Expires",
        }
    }

    /// Returns the index of the first field of `line` that is a name of the column, or None if no field is.
    #[tactic(auto, using(crate::proofs::ColumnLemmas::looked_none, crate::proofs::ColumnLemmas::looked_more, crate::proofs::ColumnLemmas::looked_found))]
    fn place(self, line: &str) -> Option<usize>
        ensures found { MatchOption result ((n : ℕ) → ¬ Names self (field n line.now))
            (IsColumn self line.now) }
        ensures within { IfSome result (λ n. n < length line.now) }
    {
        let mut rest = line;
        let mut commas = 0;
        while !rest.is_empty() {
            let (part, behind) = cut_at(rest, ',');
            if self.is_named(value_of(part)) {
                return Some(commas);
            }
            rest = behind;
            commas += 1;
        }
        None
    }
}

/// The index of each column in a line, and the number of columns. An index is the number of commas before the field.
#[derive(Clone, Copy, Debug, PartialEq, Eq)]
pub struct Columns {
    /// The index of the AS number.
    pub asn: usize,
    /// The index of the prefix.
    pub prefix: usize,
    /// The index of the maximum length.
    pub max_len: usize,
    /// The index of the expiry, or None if no column has expiries.
    pub expires: Option<usize>,
    /// The number of columns.
    pub count: usize,
    /// The number of fields that a line with a VRP needs to have a field in each of the three columns.
    pub needed: usize,
    /// Whether a line has named the columns. A later line with a VRP then has at most `count` fields.
    pub is_named: bool,
}

impl Columns {
    /// The columns of a file until one of its lines names them.
    pub const USUAL: Columns = Columns {
        asn: 0,
        prefix: 1,
        max_len: 2,
        expires: None,
        count: 3,
        needed: 3,
        is_named: false,
    };

    /// Returns the columns that `line` names, or None if it doesn't name all that a line with a VRP must have.
    pub(crate) fn named_by(line: &str) -> Option<Columns>
        ensures { MatchOption result ((columns : Columns) → ¬ IsHeader line.now columns)
            (IsHeader line.now) }
    {
        let asn = Column::Asn.place(line)?;
        let prefix = Column::Prefix.place(line)?;
        let max_len = Column::MaxLen.place(line)?;
        Some(Columns {
            asn,
            prefix,
            max_len,
            expires: Column::Expires.place(line),
            count: field_count(line),
            needed: asn.max(prefix).max(max_len) + 1,
            is_named: true,
        })
    }
}

/// Returns the value of a field: `part` without white space at its ends, and then without quotes at its ends.
fn value_of(part: &str) -> &str
    ensures { result.now ≡ unquoted (trim part.now) }
{
    let text = part.trim();
    if text.len() > 1 && text.starts_with('"') && text.ends_with('"') {
        &text[1..text.len() - 1]
    } else {
        text
    }
}

/// Returns the value of the field after `commas` commas. It is empty if the line has fewer commas.
#[tactic(auto, using(crate::proofs::ColumnLemmas::after_commas_next))]
pub(crate) fn field_at(line: &str, commas: usize) -> &str
    ensures { result.now ≡ field commas line.now }
{
    let mut rest = line;
    let mut left = commas;
    while left > 0 {
        let (_, behind) = cut_at(rest, ',');
        rest = behind;
        left -= 1;
    }
    let (part, _) = cut_at(rest, ',');
    value_of(part)
}

/// Returns the number of fields of a line: its number of commas, plus 1.
#[tactic(auto, using(crate::proofs::ColumnLemmas::few_commas))]
pub(crate) fn field_count(line: &str) -> usize
    ensures { result ≡ field_count line.now }
{
    line.as_bytes().iter().filter(|byte| **byte == b',').count() + 1
}
