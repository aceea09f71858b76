//! Where a chain rule has packets enter.
ghost use Rattle.std.specs.Prelude.{◌≡◌, ◌≤◌, length};
ghost use Rattle.chain_expand.specs.Expansion.{expansion};
ghost use Rattle.acl_compile.specs.Bounds.{KeepsBounds};
ghost use Rattle.acl_compile.specs.Oriented.{hop_entered};

use chain_expand::expand_straight;
use config_types::Config;
use ov_types::Name;

/// How many services a chain has.
#[tactic(auto, using(crate::proofs::Kept::short_chains))]
fn services_of(config: &Config, chain: &Name) -> u8
    requires { KeepsBounds config.now }
    ensures number { result ≡ length (expansion config.now chain.now) }
    ensures few { result ≤ 15 }
{
    match expand_straight(config, chain) {
        Ok(services) => services.len() as u8,
        Err(_) => unreachable!(),
    }
}

/// The hop of a chain that packets enter: the first or, mirrored, the last.
pub(crate) fn hop_entered(config: &Config, chain: &Name, mirrored: bool) -> u8
    requires { KeepsBounds config.now }
    ensures hop { result ≡ hop_entered config.now chain.now mirrored }
    ensures few { result ≤ 15 }
{
    if mirrored {
        services_of(config, chain)
    } else {
        0
    }
}
