//! Types of `resources::asn` by each of their names.
use crate::paths::Names;
use rpki_resources::resources::asn as there;
use std::marker::PhantomData;

pub const ASN: Names<rpki_base::Asn, 2> = [
    PhantomData::<there::Asn>,
    PhantomData::<rpki_base::asn::Asn>,
];

pub const PARSE_ASN_ERROR: Names<rpki_base::asn::ParseAsnError, 1> = [
    PhantomData::<there::ParseAsnError>,
];

pub const ASN_AGAIN: Names<rpki_base::asn::Asn, 1> = [
    PhantomData::<rpki_resources::repository::resources::Asn>,
];

pub const SMALL_ASN_SET: Names<rpki_base::SmallAsnSet, 2> = [
    PhantomData::<there::SmallAsnSet>,
    PhantomData::<rpki_base::small_set::SmallAsnSet>,
];

pub const SMALL_SET_ITER: Names<rpki_base::small_set::SmallSetIter<'static>, 1> = [
    PhantomData::<there::SmallSetIter<'static>>,
];

pub const SMALL_SET_DIFFERENCE: Names<rpki_base::small_set::SmallSetDifference<'static>, 1> = [
    PhantomData::<there::SmallSetDifference<'static>>,
];

pub const SMALL_SET_SYMMETRIC_DIFFERENCE: Names<
    rpki_base::small_set::SmallSetSymmetricDifference<'static>,
    1,
> = [PhantomData::<there::SmallSetSymmetricDifference<'static>>];

pub const SMALL_SET_INTERSECTION: Names<rpki_base::small_set::SmallSetIntersection<'static>, 1> = [
    PhantomData::<there::SmallSetIntersection<'static>>,
];

pub const SMALL_SET_UNION: Names<rpki_base::small_set::SmallSetUnion<'static>, 1> = [
    PhantomData::<there::SmallSetUnion<'static>>,
];
