//! What chains expand to.

use crate::documents::{name_of, value_of};
use crate::fault::{CaseFault, told};
use chain_expand::{ChainFault, MOST_SERVICES, expand, expand_straight, first_loop};
use config_model::read_config;
use config_types::Config;
use ov_io::TextOut;
use ov_types::{Name, NoMemory, ServiceNo, Services};
use std::alloc::Global;

/// A configuration of at most 128 chains.
fn config_of(alloc: Global, text: &str) -> Result<Config, CaseFault> {
    let value = value_of(alloc, text)?;
    match read_config(alloc, &value) {
        Ok(config) => Ok(config),
        Err(_) => Err(CaseFault::Unreadable),
    }
}

/// The first chain of a configuration that leads back to itself, and what a chain expands to.
pub(crate) fn tell_expanded(
    alloc: Global,
    chain: &str,
    config: &str,
    out: &mut TextOut,
) -> Result<(), CaseFault> {
    let chain = name_of(chain)?;
    let config = config_of(alloc, config)?;
    push_expanded(&config, &chain, out)
}

fn push_expanded(config: &Config, chain: &Name, out: &mut TextOut) -> Result<(), CaseFault> {
    if config.chains.len() > 128 {
        return Err(CaseFault::Unreadable);
    }
    let first = first_loop(config);
    write!(out, "{first:?};")?;
    told(push_expansion(expand(config, chain), out))
}

/// What a chain expands to without a look for loops.
pub(crate) fn tell_straight(
    alloc: Global,
    chain: &str,
    config: &str,
    out: &mut TextOut,
) -> Result<(), CaseFault> {
    let chain = name_of(chain)?;
    let config = config_of(alloc, config)?;
    push_straight(&config, &chain, out)
}

fn push_straight(config: &Config, chain: &Name, out: &mut TextOut) -> Result<(), CaseFault> {
    if config.chains.len() > 128 {
        return Err(CaseFault::Unreadable);
    }
    told(push_expansion(expand_straight(config, chain), out))
}

/// The numbers of services, or the fault.
fn push_expansion(
    expansion: Result<Services<MOST_SERVICES>, ChainFault>,
    out: &mut TextOut,
) -> Result<(), NoMemory> {
    match expansion {
        Ok(services) => push_numbers(services.as_slice(), out),
        Err(fault) => write!(out, "{fault}"),
    }
}

fn push_numbers(services: &[ServiceNo], out: &mut TextOut) -> Result<(), NoMemory> {
    out.push(b"services")?;
    for service in services {
        let number = service.0;
        write!(out, " {number}")?;
    }
    Ok(())
}
