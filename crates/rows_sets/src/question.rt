//! Questions of lines about sets.

/// A question about a set.
#[derive(Clone, Copy)]
pub enum Question {
    /// The set of all numbers.
    All,
    /// The set that a builder makes of blocks.
    Build,
    /// The set of a slice of blocks.
    FromBlocks,
    /// The set of a vector of blocks.
    FromVec,
    /// Its copy.
    Copy,
    /// Its octets.
    Octets,
    /// The number of its numbers.
    Count,
    /// Its numbers, one by one.
    Numbers,
    /// Whether it has a number, or each address of a block.
    Has,
    /// Whether it has an address of a block.
    Meets,
    /// An operation on it and another set.
    Both(Operation),
}

/// An operation on two sets.
#[derive(Clone, Copy)]
pub enum Operation {
    Union,
    Intersection,
    /// An intersection that replaces the first set.
    Assign,
    Difference,
    Contains,
    Equal,
}

impl Question {
    /// Returns the question with this name.
    pub fn named(name: &str) -> Option<Question> {
        match name {
            "all" => Some(Question::All),
            "build" => Some(Question::Build),
            "from_blocks" => Some(Question::FromBlocks),
            "from_vec" => Some(Question::FromVec),
            "copy" => Some(Question::Copy),
            "octets" => Some(Question::Octets),
            "count" => Some(Question::Count),
            "numbers" => Some(Question::Numbers),
            "has" => Some(Question::Has),
            "meets" => Some(Question::Meets),
            _ => Some(Question::Both(Operation::named(name)?)),
        }
    }
}

impl Operation {
    fn named(name: &str) -> Option<Operation> {
        match name {
            "union" => Some(Operation::Union),
            "intersection" => Some(Operation::Intersection),
            "assign" => Some(Operation::Assign),
            "difference" => Some(Operation::Difference),
            "contains" => Some(Operation::Contains),
            "equal" => Some(Operation::Equal),
            _ => None,
        }
    }
}
