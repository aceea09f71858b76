//! Configurations.
use ov_types::{Addr, InstanceId, Items, Name, PortNo, Prefix, Range16, ServiceNo};

/// A network: its number, its subnets, and the policies that it attaches.
#[derive(Clone, Debug, Drop, PartialEq, Eq)]
pub struct Network {
    pub name: Name,
    pub id: InstanceId,
    pub subnets: Items<Prefix>,
    pub policies: Items<Name>,
}

/// A port of a network, with its one address, at a compute node.
#[derive(Clone, Copy, Debug, PartialEq, Eq)]
pub struct Port {
    pub name: Name,
    pub id: PortNo,
    pub network: Name,
    pub address: Addr,
    pub node: Name,
}

/// Whether a rule speaks of one direction, as `>`, or of both, as `<>`.
#[derive(Clone, Copy, Debug, PartialEq, Eq)]
pub enum Direction {
    OneWay,
    BothWays,
}

/// One end of a rule.
#[derive(Clone, Copy, Debug, PartialEq, Eq)]
pub enum End {
    Any,
    Named(Name),
}

/// The IP protocols that a rule speaks of.
#[derive(Clone, Copy, Debug, PartialEq, Eq)]
pub enum Protocol {
    Any,
    Number(u8),
}

/// What a rule does with a packet that it matches.
#[derive(Clone, Copy, Debug, PartialEq, Eq)]
pub enum Action {
    Pass,
    Deny,
    Through { chain: Name, use_no: u16 },
}

/// A rule of a policy.
#[derive(Clone, Copy, Debug, PartialEq, Eq)]
pub struct Rule {
    pub direction: Direction,
    pub source: End,
    pub destination: End,
    pub protocol: Protocol,
    pub source_ports: Range16,
    pub destination_ports: Range16,
    pub action: Action,
}

/// A policy: its rules are asked in order, policies by their sequence.
#[derive(Clone, Debug, Drop, PartialEq, Eq)]
pub struct Policy {
    pub name: Name,
    pub sequence: u16,
    pub rules: Items<Rule>,
}

/// A service instance at a compute node.
#[derive(Clone, Copy, Debug, PartialEq, Eq)]
pub struct Service {
    pub name: Name,
    pub id: ServiceNo,
    pub node: Name,
}

/// A chain: each hop names a service or another chain.
#[derive(Clone, Debug, Drop, PartialEq, Eq)]
pub struct Chain {
    pub name: Name,
    pub hops: Items<Name>,
}

/// What is configured.
#[derive(Clone, Debug, Drop, PartialEq, Eq)]
pub struct Config {
    pub networks: Items<Network>,
    pub ports: Items<Port>,
    pub policies: Items<Policy>,
    pub services: Items<Service>,
    pub chains: Items<Chain>,
}
