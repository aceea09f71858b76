//! The scenario of a number.
ghost use Rattle.std.specs.Prelude.{◌≡◌, ◌≤◌, IfOk, IsTrue};
ghost use Rattle.std.specs.List.{list_all};
ghost use Rattle.config_types.specs.Form.{has_event_form};
ghost use Rattle.config_types.specs.Form.{has_topology_form, has_config_form, has_packet_form};
ghost use Rattle.scenario_gen.specs.Scenario.{config, scenario};

use crate::listing::{all_numbered, of_all_tenants};
use crate::nodes::topology;
use crate::ports::ports_count;
use crate::schedule::events;
use crate::tenancy::tenants;
use crate::whole::Scenario;
use config_types::Config;
use ov_types::NoMemory;
use std::alloc::Global;

/// How many packets each scenario has.
const PACKETS: u16 = 40;

/// The configuration of the scenario.
#[tactic(auto, unfolding(crate::specs::Scenario::config))]
fn config(alloc: Global, n: u16) -> Result<Config, NoMemory>
    requires first { 1 ≤ n }
    requires last { n ≤ 999 }
    ensures { IfOk result (λ c. c ≡ config n) }
{
    Ok(Config {
        networks: of_all_tenants(alloc, n)?,
        ports: all_numbered(alloc, n, 0, ports_count(n))?,
        policies: of_all_tenants(alloc, n)?,
        services: of_all_tenants(alloc, n)?,
        chains: all_numbered(alloc, n, 0, tenants(n))?,
    })
}

/// The scenario of a number. Only want of memory keeps it from being made.
#[tactic(auto, unfolding(crate::specs::Scenario::scenario))]
pub fn scenario(alloc: Global, n: u16) -> Result<Scenario, NoMemory>
    requires first { 1 ≤ n }
    requires last { n ≤ 999 }
    ensures scenario { IfOk result (λ s. s ≡ scenario n) }
    ensures topology_form { IfOk result (λ s. IsTrue (has_topology_form s.topology)) }
    ensures config_form { IfOk result (λ s. IsTrue (has_config_form s.config)) }
    ensures event_form { IfOk result (λ s. IsTrue (list_all has_event_form s.events)) }
    ensures packet_form { IfOk result (λ s. IsTrue (list_all has_packet_form s.packets)) }
{
    Ok(Scenario {
        topology: topology(alloc, n)?,
        config: config(alloc, n)?,
        events: events(alloc, n)?,
        packets: all_numbered(alloc, n, 0, PACKETS)?,
    })
}
