//! VPN-IPv4 routes (RFC 4364).
use crate::numbers::{Label, Rd};
use crate::prefix::{Addr, Prefix};
use crate::targets::Targets;

/// What names a VPN-IPv4 route: its distinguisher and its prefix.
#[derive(Clone, Copy, Debug, PartialEq, Eq, PartialOrd, Ord)]
pub struct VpnKey {
    pub rd: Rd,
    pub prefix: Prefix,
}

/// Where a VPN-IPv4 route leads, and into which instances it is imported.
#[derive(Clone, Debug, Drop, PartialEq, Eq)]
pub struct VpnRoute {
    pub next_hop: Addr,
    pub label: Label,
    pub targets: Targets,
}
