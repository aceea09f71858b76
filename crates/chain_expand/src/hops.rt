//! What the hops of chains name.
ghost use Rattle.std.specs.Prelude.{◌≡◌, ◌<◌, length, option_copied};
ghost use Rattle.chain_expand.specs.Expansion.{service_named, chain_named, hops_of};
ghost use Rattle.chain_expand.specs.Links.{hops_at};

use config_types::{Chain, Config, Service};
use ov_types::Name;

/// The first service of a name.
pub(crate) fn service_named<'a>(config: &'a Config, name: &Name) -> Option<&'a Service>
    ensures { option_copied result ≡ service_named config.now name.now }
{
    config.services.as_slice().iter().find(|s| s.name == *name)
}

/// The first chain of a name.
pub(crate) fn chain_named<'a>(config: &'a Config, name: &Name) -> Option<&'a Chain>
    ensures { option_copied result ≡ chain_named config.now name.now }
{
    config.chains.as_slice().iter().find(|d| d.name == *name)
}

/// The hops of the chain of a name.
pub(crate) fn hops_of<'a>(config: &'a Config, name: &Name) -> &'a [Name]
    ensures { result.now ≡ hops_of config.now name.now }
{
    match chain_named(config, name) {
        Some(chain) => chain.hops.as_slice(),
        None => &[],
    }
}

/// The hops of the chain at a place.
pub(crate) fn hops_at(config: &Config, place: usize) -> &[Name]
    requires { place < length config.now.chains }
    ensures { result.now ≡ hops_at config.now place }
{
    config.chains.as_slice()[place].hops.as_slice()
}
