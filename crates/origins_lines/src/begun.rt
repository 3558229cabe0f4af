//! Holds what is known about the answer to a line of routes, while its route is looked up.
use roa_origin::Lookup;
use roa_routes::{Route, RouteFault};

/// The route that a line gives, and its lookup.
#[derive(Drop)]
pub struct AskedRoute<'a> {
    /// The route.
    pub route: Route,
    /// The lookup of the route's prefix and of its origin, or AS0 if the origin is unknown
    /// ([`asked_asn`](crate::asked_asn)).
    pub lookup: Lookup<'a>,
}

/// Holds what is known about the answer to a line, after any number of steps of the lookup.
#[derive(Drop)]
pub enum BegunRoute<'a> {
    /// The line gives a route.
    Asked(AskedRoute<'a>),
    /// The line is of `bgpdump -m`, and announces no route.
    Skipped,
    /// The line is invalid. The field is its first fault.
    Wrong(RouteFault),
}
