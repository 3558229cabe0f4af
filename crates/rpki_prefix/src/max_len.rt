//! Prefixes with an optional maximum length.
ghost use Rattle.std.specs.Prelude.{◌≡◌, Some, MatchResult, refl, None};
ghost use Rattle.std.proofs.Common.{rules};
ghost use Rattle.std.specs.Cmp.{partial_order_from_own_ties};
ghost use Rattle.std.specs.Cmp.Rules.{comparing};
ghost use Rattle.std.specs.Ordering.{as_partial_cmp};
ghost use Rattle.rpki_prefix.specs.MaxLen.{IsMaxLenOf, IsMaxLenPrefix, HasMaxLenError, saturated, resolved, max_len_cmp, max_len_text, ReadsMaxLen};
ghost use Rattle.rpki_prefix.specs.OrderLaws.{max_len_ties};

use crate::error::{MaxLenError, ParseMaxLenPrefixError};
use crate::prefix::Prefix;
use rpki_addr::addr::IpAddr;
use rpki_text::number::parse_u8;
use std::cmp::Ordering;
use std::fmt;
use std::marker::Model;
use std::str::FromStr;

/// A prefix with an optional maximum length (RFC 9582, 4.3.2).
///
/// The value denotes the prefixes inside the prefix that are not longer than the maximum length. The maximum length is
/// at least the length of the prefix, and at most the longest one of the family: 32 or 128.
#[derive(Clone, Copy, Debug, PartialEq, Eq, Hash)]
pub struct MaxLenPrefix {
    prefix: Prefix,
    max_len: Option<u8>,
}

impl Model for MaxLenPrefix {
    ghost use Rattle.rpki_prefix.specs.MaxLen.{MaxLenValue, IsMaxLenPrefix};

    ghost Value = { MaxLenValue };

    ghost view = { λ m. record { prefix = m.prefix; max_len = m.max_len } };

    ghost invariant = { λ m. IsMaxLenPrefix (record { prefix = m.prefix; max_len = m.max_len }) };

    ghost inverse = { λ m. record { prefix = m.prefix; max_len = m.max_len } };
}

impl MaxLenPrefix {
    /// Returns the prefix with this optional maximum length.
    ///
    /// # Errors
    ///
    /// - [`MaxLenError::Overflow`]: the maximum length is above the longest one of the family. This is checked first.
    /// - [`MaxLenError::Underflow`]: the maximum length is below the length of the prefix.
    pub fn new(prefix: Prefix, max_len: Option<u8>) -> Result<MaxLenPrefix, MaxLenError>
        ensures { MatchResult result
            (λ m. (m ≡ record { prefix = prefix; max_len = max_len }) × IsMaxLenOf prefix max_len)
            (HasMaxLenError prefix max_len) }
    {
        if let Some(len) = max_len {
            if len > prefix.greatest_len() {
                return Err(MaxLenError::Overflow);
            }
            if len < prefix.len() {
                return Err(MaxLenError::Underflow);
            }
        }
        Ok(MaxLenPrefix { prefix, max_len })
    }

    /// Returns the prefix with this optional maximum length, which is moved into its range. This call has no error.
    ///
    /// A maximum length below the length of the prefix is raised to that length. A maximum length above the longest
    /// length of the family is lowered to the longest length.
    pub fn saturating_new(prefix: Prefix, max_len: Option<u8>) -> MaxLenPrefix
        ensures value { result ≡ record { prefix = prefix; max_len = saturated prefix max_len } }
        ensures within { IsMaxLenOf result.prefix result.max_len }
    {
        let max_len = match max_len {
            Some(len) => Some(len.min(prefix.greatest_len()).max(prefix.len())),
            None => None,
        };
        MaxLenPrefix { prefix, max_len }
    }

    /// Returns the prefix.
    pub fn prefix(self) -> Prefix
        ensures value { result ≡ self.prefix }
        ensures within { IsMaxLenOf self.prefix self.max_len }
    {
        self.prefix
    }

    /// Returns the address of the prefix.
    pub fn addr(self) -> IpAddr
        ensures { result ≡ self.prefix.addr }
    {
        self.prefix.addr()
    }

    /// Returns the length of the prefix.
    pub fn prefix_len(self) -> u8
        ensures { result ≡ self.prefix.len }
    {
        self.prefix.len()
    }

    /// States an invariant for the proofs of callers: the maximum length is one of the prefix.
    ///
    /// This call is no test. It does nothing and returns nothing.
    #[doc(hidden)]
    pub fn recall_invariant(self)
        ensures { IsMaxLenPrefix self }
    {
        let _max_len = self.max_len;
    }

    /// Returns the maximum length, if there is one.
    pub fn max_len(self) -> Option<u8>
        ensures value { result ≡ self.max_len }
        ensures within { IsMaxLenOf self.prefix self.max_len }
    {
        self.max_len
    }

    /// Returns the maximum length if there is one, and otherwise the length of the prefix.
    pub fn resolved_max_len(self) -> u8
        ensures { result ≡ resolved self.prefix self.max_len }
    {
        self.max_len.unwrap_or(self.prefix.len())
    }
}

/// Returns the prefix without a maximum length.
impl From<Prefix> for MaxLenPrefix {
    ghost from_gives = { λ prefix m. m ≡ record { prefix = prefix; max_len = None } };

    fn from(prefix: Prefix) -> MaxLenPrefix {
        MaxLenPrefix {
            prefix,
            max_len: None,
        }
    }
}

/// Orders by the prefix, then a maximum length before no maximum length, then the larger maximum length first.
impl Ord for MaxLenPrefix {
    ghost cmp = { max_len_cmp };

    ghost total = { Prim.search (comparing, rules) depth 9 };

    ghost matches_partial_cmp = { Prim.search (comparing, rules) };

    ghost matches_eq = { max_len_ties ⟦<IpAddr as PartialEq>⟧.eq
        (record {
          of_v4 = λ m n. refl;
          of_v6 = λ m n. refl;
          v4_v6 = λ m n. refl;
          v6_v4 = λ m n. refl;
        }) };

    fn cmp(&self, other: &MaxLenPrefix) -> Ordering {
        self.prefix
            .cmp(&other.prefix)
            .then(other.max_len.cmp(&self.max_len))
    }
}

impl PartialOrd for MaxLenPrefix {
    ghost partial_cmp = { as_partial_cmp max_len_cmp };

    ghost laws = { partial_order_from_own_ties (Prim.search (comparing, rules) depth 9)
        (max_len_ties ⟦<IpAddr as PartialEq>⟧.eq
        (record {
          of_v4 = λ m n. refl;
          of_v6 = λ m n. refl;
          v4_v6 = λ m n. refl;
          v6_v4 = λ m n. refl;
        })) };

    fn partial_cmp(&self, other: &MaxLenPrefix) -> Option<Ordering> {
        Some(self.cmp(other))
    }
}

/// Parses a prefix, or a prefix, a dash and a maximum length, as in `10.0.0.0/8-24`.
///
/// The text is split at its first dash. The maximum length is a decimal `u8` in the form of [`parse_u8`].
///
/// # Errors
///
/// The first fault of the text, in this order:
///
/// - [`ParseMaxLenPrefixError::InvalidPrefix`]: the prefix is invalid.
/// - [`ParseMaxLenPrefixError::InvalidMaxLenFormat`]: the maximum length is not a decimal `u8`.
/// - [`ParseMaxLenPrefixError::InvalidMaxLenValue`]: [`MaxLenPrefix::new`] refuses the maximum length.
impl FromStr for MaxLenPrefix {
    type Err = ParseMaxLenPrefixError;

    ghost from_str_gives = { ReadsMaxLen };

    fn from_str(text: &str) -> Result<MaxLenPrefix, ParseMaxLenPrefixError> {
        let Some((prefix, max_len)) = text.split_once('-') else {
            let prefix = Prefix::from_str(text)?;
            return Ok(MaxLenPrefix::from(prefix));
        };
        let prefix = Prefix::from_str(prefix)?;
        let max_len = parse_u8(max_len)?;
        Ok(MaxLenPrefix::new(prefix, Some(max_len))?)
    }
}

/// Prints the prefix, and a dash and the maximum length if there is one.
impl fmt::Display for MaxLenPrefix {
    ghost output = { λ m. Some (max_len_text m) };

    fn fmt<W: fmt::Write>(&self, f: &mut fmt::Formatter<W>) -> fmt::Result {
        let prefix = self.prefix;
        match self.max_len {
            Some(max_len) => write!(f, "{prefix}-{max_len}"),
            None => write!(f, "{prefix}"),
        }
    }
}
