//! The error for octets that name no address family.
use thiserror::Error;

/// The octets name no address family.
#[derive(Clone, Copy, Debug, PartialEq, Eq, Error)]
#[error("invalid address family in IP resources")]
pub struct DecodeFamilyError;
