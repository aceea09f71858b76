//! The ties with those of one configuration more.
ghost use Rattle.std.specs.Prelude.{◌≡◌, IfOk, OnOk};
ghost use Rattle.ov_types.specs.First.{first_of};
ghost use Rattle.policy_rules.specs.Related.{all_rules};
ghost use Rattle.schedule_script.specs.Kept.{Adds, AreAlike, home_by, port_in, ties_in, use_in};
ghost use Rattle.schedule_script.specs.Tying.{ends_by, joined};

use crate::addressing::{joined_addresses, joined_names};
use crate::kept::{Ports, Ties, Uses};
use crate::naming::{ends_of, home_id};
use crate::relating::joined_related;
use config_check::Valid;
use config_types::{Action, Config, Port, Rule};
use ov_types::NoMemory;
use policy_rules::{NumberedRule, all_rules};
use std::alloc::{AllocError, Global};

/// The rules of a valid configuration.
pub(crate) fn rules_of(alloc: Global, valid: &Valid) -> Result<Vec<NumberedRule>, NoMemory>
    ensures { IfOk result (λ rules. rules.items ≡ all_rules valid.now.config) }
{
    all_rules(alloc, valid.config())
}

/// Ties the number of a port to its network, where it has no tie.
fn tie_port(ports: &mut Ports, config: &Config, port: &Port) -> Result<(), NoMemory>
    ensures { OnOk result (Adds (port_in ports.old.entries) (λ p. home_by config.now p port.now)
        (port_in ports.new.entries)) }
{
    if ports.contains_key(&port.id) {
        return Ok(());
    }
    if let Some(home) = home_id(config, port) {
        ports.insert(port.id, home)?;
    }
    Ok(())
}

fn tie_ports(ports: &mut Ports, config: &Config) -> Result<(), NoMemory>
    ensures { OnOk result (Adds (port_in ports.old.entries) (λ p. first_of (home_by config.now p) config.now.ports)
        (port_in ports.new.entries)) }
{
    for port in config.ports.as_slice() {
        tie_port(ports, config, port)?;
    }
    Ok(())
}

fn copied_ports(ports: &Ports) -> Result<Ports, AllocError>
    ensures { IfOk result (λ copy. copy.entries ≡ ports.now.entries) }
{
    ports.clone()
}

/// The ties of port numbers, with those of a configuration.
fn joined_ports(ports: &Ports, config: &Config) -> Result<Ports, NoMemory>
    ensures { IfOk result (λ more. Adds (port_in ports.now.entries) (λ p. first_of (home_by config.now p) config.now.ports)
        (port_in more.entries)) }
{
    let mut more = copied_ports(ports)?;
    tie_ports(&mut more, config)?;
    Ok(more)
}

/// Ties the number of a chain rule to the networks that it names, where it has no tie.
fn tie_use(uses: &mut Uses, config: &Config, rule: &Rule) -> Result<(), NoMemory>
    ensures { OnOk result (Adds (use_in uses.old.entries) (λ u. ends_by config.now rule.now u rule.now.action)
        (use_in uses.new.entries)) }
{
    let Action::Through { use_no, .. } = rule.action else {
        return Ok(());
    };
    if uses.contains_key(&use_no) {
        return Ok(());
    }
    if let Some(ends) = ends_of(config, rule) {
        uses.insert(use_no, ends)?;
    }
    Ok(())
}

fn tie_uses(uses: &mut Uses, config: &Config, rules: &[NumberedRule]) -> Result<(), NoMemory>
    ensures { OnOk result (Adds (use_in uses.old.entries)
        (λ u. first_of (λ r. ends_by config.now r.rule u r.rule.action) rules.now) (use_in uses.new.entries)) }
{
    for rule in rules {
        tie_use(uses, config, &rule.rule)?;
    }
    Ok(())
}

fn copied_uses(uses: &Uses) -> Result<Uses, AllocError>
    ensures { IfOk result (λ copy. copy.entries ≡ uses.now.entries) }
{
    uses.clone()
}

/// The ties of use numbers, with those of a configuration of these rules.
fn joined_uses(uses: &Uses, config: &Config, rules: &[NumberedRule]) -> Result<Uses, NoMemory>
    ensures { IfOk result (λ more. Adds (use_in uses.now.entries)
        (λ u. first_of (λ r. ends_by config.now r.rule u r.rule.action) rules.now) (use_in more.entries)) }
{
    let mut more = copied_uses(uses)?;
    tie_uses(&mut more, config, rules)?;
    Ok(more)
}

/// The ties with those of a valid configuration of these rules: what has a tie keeps it.
pub(crate) fn joined(
    alloc: Global,
    ties: &Ties,
    valid: &Valid,
    rules: &[NumberedRule],
) -> Result<Ties, NoMemory>
    requires { rules.now ≡ all_rules valid.now.config }
    ensures { IfOk result (λ more. AreAlike (ties_in more) (joined (ties_in ties.now) valid.now)) }
{
    let config = valid.config();
    let ports = joined_ports(&ties.ports, config)?;
    let uses = joined_uses(&ties.uses, config, rules)?;
    let related = joined_related(alloc, &ties.related, config)?;
    let topology = valid.topology();
    let addresses = joined_addresses(&ties.addresses, topology)?;
    let names = joined_names(&ties.names, topology)?;
    Ok(Ties {
        ports,
        uses,
        related,
        addresses,
        names,
    })
}
