//! The VRP that a line or an item gives.
use rpki_base::Asn;
use rpki_prefix::MaxLenPrefix;

/// A VRP (validated ROA payload, RFC 6811, 2).
///
/// It is a prefix with its maximum length, and the AS that may originate routes to the prefix. The type is that of
/// `roa_origin::Vrp`.
pub type Vrp = (MaxLenPrefix, Asn);
