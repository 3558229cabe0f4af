//! AS numbers, and small sets of AS numbers.

pub use rpki_base::asn::{Asn, ParseAsnError};
pub use rpki_base::small_set::{
    SmallAsnSet, SmallSetDifference, SmallSetIntersection, SmallSetIter,
    SmallSetSymmetricDifference, SmallSetUnion,
};
