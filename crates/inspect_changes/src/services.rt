//! The services that a chain rule leads packets through.
ghost use Rattle.std.specs.Prelude.{◌≡◌, ◌≤◌, length, map, reverse};
ghost use Rattle.chain_expand.specs.Expansion.{expansion};
ghost use Rattle.reach_plain.specs.Reachability.{services_through};

use chain_expand::{MOST_SERVICES, expand_straight};
use config_check::Valid;
use ov_types::{Name, ServiceNo, Services};

/// The numbers of a chain's services, of which a valid configuration has at most 15.
#[tactic(auto, using(reach_plain::proofs::Kept::short_chains))]
fn expanded(valid: &Valid, chain: &Name) -> Services<MOST_SERVICES>
    ensures numbers { result ≡ map (λ s. s.id) (expansion valid.now.config chain.now) }
    ensures short { length result ≤ 15 }
{
    match expand_straight(valid.config(), chain) {
        Ok(services) => services,
        Err(_) => unreachable!(),
    }
}

fn in_order(numbers: &[ServiceNo]) -> Services<64>
    requires { length numbers.now ≤ 15 }
    ensures { result ≡ numbers.now }
{
    let mut services = Services::new();
    for number in numbers {
        services.push(*number);
    }
    services
}

fn reversed(numbers: &[ServiceNo]) -> Services<64>
    requires { length numbers.now ≤ 15 }
    ensures { result ≡ reverse numbers.now }
{
    let mut services = Services::new();
    for number in numbers.iter().rev() {
        services.push(*number);
    }
    services
}

/// A chain's services, in order or, mirrored, reversed.
pub(crate) fn services_through(valid: &Valid, chain: &Name, mirrored: bool) -> Services<64>
    ensures { result ≡ services_through valid.now.config chain.now mirrored }
{
    let numbers = expanded(valid, chain);
    if mirrored {
        reversed(numbers.as_slice())
    } else {
        in_order(numbers.as_slice())
    }
}
