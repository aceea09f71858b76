//! Whole scenarios.

use config_types::{Config, Event, Topology};
use ov_types::{Items, Packet};

/// A topology and a configuration, the events of a run, and the packets that are traced after them.
#[derive(Drop)]
pub struct Scenario {
    pub topology: Topology,
    pub config: Config,
    pub events: Items<Event>,
    pub packets: Items<Packet>,
}
