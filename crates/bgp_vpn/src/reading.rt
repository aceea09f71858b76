//! How an UPDATE is read.

/// Whether the numbers of autonomous systems have four octets, and not two (RFC 6793, section 4.1), and whether plain
/// routes stand after the attributes.
#[derive(Clone, Copy)]
pub(crate) struct Reading {
    pub(crate) wide: bool,
    pub(crate) routes_follow: bool,
}
