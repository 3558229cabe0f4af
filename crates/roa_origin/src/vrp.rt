//! The VRP of route origin validation.
use rpki_base::Asn;
use rpki_prefix::MaxLenPrefix;

/// A VRP (validated ROA payload, RFC 6811, 2).
///
/// It is a prefix with its maximum length, and the AS that may originate routes to the prefix. A VRP without a maximum
/// length allows routes to its prefix alone.
pub type Vrp = (MaxLenPrefix, Asn);
