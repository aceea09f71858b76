//! The numbers of a chain's services, each once.
ghost use Rattle.std.specs.Prelude.{◌≡◌, ◌≤◌, length, map, option_copied, option_map};
ghost use Rattle.std.specs.List.{find};
ghost use Rattle.ov_types.specs.First.{first_meeting};
ghost use Rattle.chain_expand.specs.Expansion.{same_number, numbers_or_twice};

use crate::ChainFault;
use crate::bounds::MOST_SERVICES;
use config_types::Service;
use ov_types::{Name, Services};

/// The first service with the number of another.
fn alike<'a>(services: &'a [Service], service: &Service) -> Option<&'a Service>
    ensures { option_copied result ≡ find (λ b. same_number b service.now) services.now }
{
    services.iter().find(|b| b.id.0 == service.id.0)
}

/// The first service that has the number of one before it.
#[tactic(auto, using(crate::proofs::Twice::meeting_on))]
fn first_twice(services: &[Service]) -> Option<Service>
    ensures { result ≡ option_map (λ p. p.1) (first_meeting same_number services.now) }
{
    for (index, service) in services.iter().enumerate() {
        if alike(&services[..index], service).is_some() {
            return Some(*service);
        }
    }
    None
}

/// The services' numbers.
fn numbers(services: &[Service]) -> Services<MOST_SERVICES>
    requires { length services.now ≤ 15 }
    ensures { result ≡ map (λ s. s.id) services.now }
{
    let mut numbers = Services::new();
    for service in services {
        numbers.push(service.id);
    }
    numbers
}

/// The services' numbers, or the service that stands twice.
pub(crate) fn numbers_or_twice(
    chain: &Name,
    services: &[Service],
) -> Result<Services<MOST_SERVICES>, ChainFault>
    requires { length services.now ≤ 15 }
    ensures { result ≡ numbers_or_twice chain.now services.now (first_meeting same_number services.now) }
{
    match first_twice(services) {
        Some(service) => Err(ChainFault::Twice {
            chain: *chain,
            service: service.name,
        }),
        None => Ok(numbers(services)),
    }
}
