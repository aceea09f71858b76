//! The expansion of a chain.
ghost use Rattle.std.specs.Prelude.{◌≡◌, ◌≤◌, length};
ghost use Rattle.chain_expand.specs.Expansion.{expansion, expansion_of, numbers_or_fault};

use crate::append::{Room, append_hops};
use crate::bounds::{MOST_CHAINS, MOST_SERVICES};
use crate::found::Found;
use crate::loops::first_loop_of;
use crate::numbers::numbers_or_twice;
use crate::{ChainFault, hops};
use config_types::Config;
use ov_types::{Name, Services};

/// The numbers of the services that a chain gives, in order, without a look for loops: a hop that
/// leads back to its chain is followed as deep as there are chains.
#[tactic(auto, using(crate::proofs::Expansions::numbers_of_few))]
pub fn expand_straight(config: &Config, chain: &Name) -> Result<Services<MOST_SERVICES>, ChainFault>
    requires { length config.now.chains ≤ 128 }
    ensures { result ≡ numbers_or_fault chain.now (expansion config.now chain.now) }
{
    let mut found = Found::new(*chain);
    let mut barren = [0; MOST_CHAINS];
    let depth = config.chains.len();
    match append_hops(
        config,
        depth,
        hops::hops_of(config, chain),
        &mut found,
        &mut barren,
    ) {
        Room::Full => Err(ChainFault::TooLong { chain: *chain }),
        Room::Fits => numbers_or_twice(chain, found.as_slice()),
    }
}

/// The numbers of the services that a chain gives, in order. A loop of the chain, or of one that
/// it leads to, comes before more than 15 services, and that before a service that stands twice.
#[tactic(auto, unfolding(crate::specs::Expansion::expansion_of))]
pub fn expand(config: &Config, chain: &Name) -> Result<Services<MOST_SERVICES>, ChainFault>
    requires { length config.now.chains ≤ 128 }
    ensures { result ≡ expansion_of config.now chain.now }
{
    match first_loop_of(config, chain) {
        Some(chain) => Err(ChainFault::Loop { chain }),
        None => expand_straight(config, chain),
    }
}
