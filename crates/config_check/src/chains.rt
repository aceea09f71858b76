//! The rules of chains: none leads back to itself, none gives too many services, and none gives one twice.
ghost use Rattle.std.specs.Prelude.{◌≡◌, ◌≤◌, nat_lt, length, None, false};
ghost use Rattle.chain_expand.specs.Expansion.{expansion};
ghost use Rattle.config_check.specs.Twice.{twice_of};
ghost use Rattle.config_check.specs.Rules.{is_too_long, twice_in, broken_loop, broken_long, broken_twice};

use crate::refusal::Refusal;
use chain_expand::{ChainFault, MOST_CHAINS, MOST_SERVICES, expand_straight, first_loop};
use config_types::{Chain, Config};
use ov_types::{Name, Services};

/// The first chain that leads back to itself.
#[tactic(auto, unfolding(crate::specs::Rules::broken_loop))]
pub(crate) fn broken_loop(config: &Config) -> Option<Refusal>
    requires { length config.now.chains ≤ MOST_CHAINS }
    ensures { result ≡ broken_loop config.now }
{
    let chain = first_loop(config)?;
    Some(Refusal::ChainLoop { chain })
}

fn gives_too_many(config: &Config, chain: &Chain) -> bool
    requires { length config.now.chains ≤ MOST_CHAINS }
    ensures { result ≡ nat_lt MOST_SERVICES (length (expansion config.now chain.now.name)) }
{
    match expand_straight(config, &chain.name) {
        Err(ChainFault::TooLong { .. }) => true,
        _ => false,
    }
}

fn is_too_long(config: &Config, chain: &Chain) -> bool
    requires few { length config.now.chains ≤ MOST_CHAINS }
    requires straight { broken_loop config.now ≡ None }
    ensures { result ≡ is_too_long config.now chain.now }
{
    gives_too_many(config, chain)
}

/// The first chain that gives more than 15 services, where none leads back to itself.
#[tactic(auto, using(crate::proofs::Lists::sought), unfolding(crate::specs::Rules::broken_long))]
pub(crate) fn broken_long(config: &Config) -> Option<Refusal>
    requires few { length config.now.chains ≤ MOST_CHAINS }
    requires straight { broken_loop config.now ≡ None }
    ensures { result ≡ broken_long config.now }
{
    for chain in config.chains.as_slice() {
        if is_too_long(config, chain) {
            return Some(Refusal::ChainTooLong { chain: chain.name });
        }
    }
    None
}

fn twice_of(chain: &Name, expanded: &Result<Services<MOST_SERVICES>, ChainFault>) -> Option<Refusal>
    ensures { result ≡ twice_of chain.now expanded.now }
{
    match expanded {
        Err(ChainFault::Twice { service, .. }) => Some(Refusal::ServiceTwice {
            chain: *chain,
            service: *service,
        }),
        _ => None,
    }
}

fn twice_in(config: &Config, chain: &Chain) -> Option<Refusal>
    requires few { length config.now.chains ≤ MOST_CHAINS }
    requires straight { broken_loop config.now ≡ None }
    requires short { is_too_long config.now chain.now ≡ false }
    ensures { result ≡ twice_in config.now chain.now }
{
    twice_of(&chain.name, &expand_straight(config, &chain.name))
}

/// The first chain that gives a service twice, where none leads back to itself or is too long.
#[tactic(auto, using(crate::proofs::Lists::asked), unfolding(crate::specs::Rules::broken_twice))]
pub(crate) fn broken_twice(config: &Config) -> Option<Refusal>
    requires few { length config.now.chains ≤ MOST_CHAINS }
    requires straight { broken_loop config.now ≡ None }
    requires short { broken_long config.now ≡ None }
    ensures { result ≡ broken_twice config.now }
{
    for chain in config.chains.as_slice() {
        if let Some(refusal) = twice_in(config, chain) {
            return Some(refusal);
        }
    }
    None
}
