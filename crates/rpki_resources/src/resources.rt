//! AS numbers and addresses in routing and route origins.

pub mod addr;
pub mod asn;
