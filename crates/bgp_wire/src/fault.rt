//! What is wrong with messages.

use thiserror::Error;

/// What is wrong with a message: the code and subcode of the NOTIFICATION that answers it (RFC 4271, section 4.5).
#[derive(Clone, Copy, Debug, PartialEq, Eq, Error)]
#[error("a BGP message error, {code}/{subcode}")]
pub struct WireFault {
    pub code: u8,
    pub subcode: u8,
}

/// An octet of the marker that is not ff (RFC 4271, section 6.1).
pub(crate) const NOT_SYNCHRONIZED: WireFault = WireFault {
    code: 1,
    subcode: 1,
};

/// A length that a message cannot have, or none of its type (section 6.1).
pub(crate) const BAD_MESSAGE_LENGTH: WireFault = WireFault {
    code: 1,
    subcode: 2,
};

/// A type that is none (section 6.1).
pub(crate) const BAD_MESSAGE_TYPE: WireFault = WireFault {
    code: 1,
    subcode: 3,
};

/// Lengths in an OPEN that do not fit (section 6.2).
pub(crate) const UNSPECIFIC_OPEN: WireFault = WireFault {
    code: 2,
    subcode: 0,
};

/// A version other than 4 (section 6.2).
pub(crate) const UNSUPPORTED_VERSION: WireFault = WireFault {
    code: 2,
    subcode: 1,
};

/// An identifier of 0 (section 6.2).
pub(crate) const BAD_IDENTIFIER: WireFault = WireFault {
    code: 2,
    subcode: 3,
};

/// A parameter other than capabilities (section 6.2).
pub(crate) const UNSUPPORTED_PARAMETER: WireFault = WireFault {
    code: 2,
    subcode: 4,
};

/// A Hold Time of 1 or 2 (section 6.2).
pub(crate) const UNACCEPTABLE_HOLD_TIME: WireFault = WireFault {
    code: 2,
    subcode: 6,
};

/// Lengths in an UPDATE that do not fit, or attributes that are cut or repeated (RFC 4271, section 6.3).
pub const MALFORMED_ATTRIBUTES: WireFault = WireFault {
    code: 3,
    subcode: 1,
};
