//! Scenarios: for each number from 1 to 999 a topology, a configuration, the events of a run, and packets to be traced.
//!
//! A scenario is made by rule from its number n. It has T = 1 + (n - 1) mod 16 tenants, numbered from 0.
//!
//! - The nodes are the same in each: AS 64512, control nodes c1 to c3 at 192.0.2.1 to 192.0.2.3, and compute nodes n1
//!   to n20 at 192.0.2.11 to 192.0.2.30. Compute node i lists c(1 + i mod 3) and then c(1 + (i + 1) mod 3).
//! - Tenant t has networks wt, at, dt and mt (of web servers, applications, databases, and for management) with numbers
//!   4t + 1 to 4t + 4 and subnets 10.0.0.0/24 to 10.3.0.0/24, so that the tenants' addresses are equal.
//! - Ports v0 to v(64T - 1) are dealt out to the networks in turn. Port x has number x, is in network number
//!   1 + x mod 4T, has the address 10.(x mod 4).0.(1 + x / 4T), and is at node n(1 + (7x + n) mod 20).
//! - Tenant t has services ft and lt (a firewall and a load balancer) with numbers 2t + 1 and 2t + 2 at nodes
//!   n(1 + (3t + n) mod 20) and n(1 + (3t + n + 1) mod 20), and the chain kt of ft and lt.
//! - Its policies have sequences 3t + 1 to 3t + 3, and each network lists its own in that order. All rules are of both
//!   directions and about TCP from any port. `pft` of wt and at denies port 23 from any to any, and sends port 80
//!   between wt and at through kt, by use t. `pbt` of at and dt passes port 5432 between them. `pmt` of all four passes
//!   port 22 between mt and any.
//! - The events are a settle, the loss of the session of c1 and c2, a restart of node n(1 + n mod 20), a delete of port
//!   v5, and a settle.
//! - There are forty packets. Packet q leaves port (17q + n) mod 64T for 10.(q mod 4).0.(1 + q mod 16), from TCP port
//!   50000 + q to the port (q / 4) mod 4 of 80, 22, 5432 and 23, counted from 0.
//!
//! Divisions are rounded down, and objects stand in the order of tenants.
#![tactic(auto)]

pub mod laws;
mod listing;
mod making;
mod naming;
mod networks;
mod nodes;
mod policies;
mod ports;
mod schedule;
mod services;
mod tenancy;
mod whole;

pub use making::scenario;
pub use tenancy::tenants;
pub use whole::Scenario;
