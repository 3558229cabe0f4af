//! The tag octets of the types that are read and written (X.690, section 8).

/// An INTEGER (X.690, 8.3).
pub const INTEGER: u8 = 0x02;

/// A BIT STRING, primitive (X.690, 8.6).
pub const BIT_STRING: u8 = 0x03;

/// An OCTET STRING, primitive (X.690, 8.7).
pub const OCTET_STRING: u8 = 0x04;

/// A NULL (X.690, 8.8).
pub const NULL: u8 = 0x05;

/// A SEQUENCE, constructed (X.690, 8.9).
pub const SEQUENCE: u8 = 0x30;

/// The context-specific tag `[0]`, constructed (X.690, 8.14).
pub const CONTEXT_0: u8 = 0xa0;
