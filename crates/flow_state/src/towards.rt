//! The network that a packet is for.
ghost use Rattle.std.specs.Prelude.{◌≡◌, ◌&&◌, ◌||◌, option_copied};
ghost use Rattle.ov_types.specs.First.{same_name};
ghost use Rattle.policy_rules.specs.Related.{are_related};
ghost use Rattle.config_check.specs.Rules.{holds_address};
ghost use Rattle.reach_plain.specs.Reachability.{network_towards};

use config_check::holds_address;
use config_types::{Config, Network};
use ov_types::Addr;
use policy_rules::are_related;

/// Whether a network is the one that packets come from, or related to it, and holds an address.
fn is_towards(config: &Config, from: &Network, other: &Network, address: Addr) -> bool
    ensures { result ≡ ((same_name other.now.name from.now.name || are_related config.now from.now other.now)
        && holds_address other.now address.0) }
{
    let is_near = other.name == from.name || are_related(config, from, other);
    is_near && holds_address(other, address)
}

/// The network whose subnet holds an address, among a network and those related to it. The search takes no memory.
pub(crate) fn network_towards<'a>(
    config: &'a Config,
    from: &Network,
    address: Addr,
) -> Option<&'a Network>
    ensures { option_copied result ≡ network_towards config.now from.now address.0 }
{
    config
        .networks
        .as_slice()
        .iter()
        .find(|n| is_towards(config, from, n, address))
}
