//! What is expected of packets.
use config_model::CompileInput;
use ov_types::{Items, Packet, PortNo, ServiceNo};

/// What is expected to become of a packet.
#[derive(Drop)]
pub enum Expected {
    /// The packet is dropped, for any reason.
    Dropped,
    NoSourcePort,
    NoDestination,
    NoRoute,
    /// The packet is dropped by a deny rule, or because no rule matches.
    Denied,
    /// The packet is delivered to this port, through just these services in this order.
    Delivered {
        port: PortNo,
        services: Items<ServiceNo>,
    },
}

/// A packet, and what is expected to become of it.
#[derive(Drop)]
pub struct Expectation {
    pub packet: Packet,
    pub expected: Expected,
}

/// What there is and what is configured, and packets of which something is expected.
#[derive(Drop)]
pub struct ExpectInput {
    pub input: CompileInput,
    pub packets: Items<Expectation>,
}
