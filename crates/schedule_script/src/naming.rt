//! The numbers of the networks that ports and rules name.
ghost use Rattle.std.specs.Prelude.{◌≡◌};
ghost use Rattle.schedule_script.specs.Tying.{end_id, ends_of, home_id, network_id};

use config_check::network_named;
use config_types::{Config, End, Port, Rule};
use ov_types::{InstanceId, Name};

fn network_id(config: &Config, name: &Name) -> Option<InstanceId>
    ensures { result ≡ network_id config.now name.now }
{
    match network_named(config, name) {
        Some(network) => Some(network.id),
        None => None,
    }
}

/// The network of a port.
pub(crate) fn home_id(config: &Config, port: &Port) -> Option<InstanceId>
    ensures { result ≡ home_id config.now port.now }
{
    network_id(config, &port.network)
}

fn end_id(config: &Config, end: &End) -> Option<InstanceId>
    ensures { result ≡ end_id config.now end.now }
{
    match end {
        End::Any => None,
        End::Named(name) => network_id(config, name),
    }
}

/// The two networks that a rule names.
pub(crate) fn ends_of(config: &Config, rule: &Rule) -> Option<(InstanceId, InstanceId)>
    ensures { result ≡ ends_of config.now rule.now }
{
    match (
        end_id(config, &rule.source),
        end_id(config, &rule.destination),
    ) {
        (Some(left), Some(right)) => Some((left, right)),
        _ => None,
    }
}
