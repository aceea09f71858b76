//! Changes of tables.
ghost use Rattle.std.specs.Prelude.{IfOk};
ghost use Rattle.ov_types.specs.declared.objects.LowKey.TheVariants as low;
ghost use Rattle.vpn_holdings.specs.Ranges.{Fits};

use crate::counted::count;
use crate::words::{instance, key, prefix};
use case_lines::{CaseFault, address, both, long_number, number, short_number};
use ov_sync::Delta;
use ov_types::{
    Addr, InstanceId, Items, Label, LowKey, LowValue, PortNo, Prefix, ServiceNo, Target, Targets,
    UpKey, VpnKey, VpnRoute,
};
use std::alloc::Global;
use vpn_tables::VpnTables;

/// The agent at the first service of the chain, and the one at the second.
const NEAR: Addr = Addr(0xc000_020b);

const FAR: Addr = Addr(0xc000_020c);

/// Makes a change.
pub(crate) fn change(alloc: Global, tables: &mut VpnTables, step: &str) -> Result<(), CaseFault> {
    let (word, given) = step.split_once(" ").unwrap_or((step, ""));
    match word {
        "chain" | "network" | "port" | "list" | "drop" => feed(alloc, tables, word, given),
        "agent" | "publish" | "withdraw" | "subscribe" => hear(tables, word, given),
        "lead" => lead(alloc, tables, given),
        "unlead" => unlead(alloc, tables, given),
        "relate" => relate(alloc, tables, given),
        "lose" => {
            tables.drop_session(short_number(given)?);
            Ok(())
        }
        "counted" => count(alloc, tables, given),
        _ => Err(CaseFault::Unreadable),
    }
}

/// The feed tells an object, or drops one.
fn feed(alloc: Global, tables: &mut VpnTables, word: &str, given: &str) -> Result<(), CaseFault> {
    match word {
        "chain" => feed_chain(alloc, tables, given),
        "network" => feed_network(alloc, tables, given),
        "port" => feed_port(tables, address(given)?),
        "drop" => unfeed(tables, given),
        _ => feed_list(alloc, tables, given),
    }
}

/// The feed drops a network, or the use of the chain.
fn unfeed(tables: &mut VpnTables, given: &str) -> Result<(), CaseFault> {
    let key = match given {
        "chain" => LowKey::ChainUse(0),
        _ => LowKey::Instance(short_number(given)?),
    };
    Ok(tables.set_low(Delta::Drop(key))?)
}

fn prefixes(alloc: Global, one: Prefix) -> Result<Items<Prefix>, CaseFault> {
    Ok(Items::from_vec(vec![in alloc; one]?))
}

/// A use of a chain of two services, one here and one at the peer, from network 1 with a subnet to network 2 with one.
fn chain_object(alloc: Global, left: Prefix, right: Prefix) -> Result<LowValue, CaseFault>
    ensures { IfOk result (λ object. Fits (low.ChainUse 0) object) }
{
    let hops = vec![in alloc; (ServiceNo(1), NEAR), (ServiceNo(2), FAR)]?;
    Ok(LowValue::ChainUse {
        left: InstanceId(1),
        right: InstanceId(2),
        left_prefixes: prefixes(alloc, left)?,
        right_prefixes: prefixes(alloc, right)?,
        hops: Items::from_vec(hops),
    })
}

fn feed_chain(alloc: Global, tables: &mut VpnTables, given: &str) -> Result<(), CaseFault> {
    let (left, right) = both(given)?;
    let object = chain_object(alloc, prefix(left)?, prefix(right)?)?;
    Ok(tables.set_low(Delta::Put(LowKey::ChainUse(0), object))?)
}

/// The instances of these numbers.
fn instances(alloc: Global, words: &str) -> Result<Items<InstanceId>, CaseFault> {
    let mut instances = Items::new(alloc);
    match push_instances(words, &mut instances) {
        Ok(()) => Ok(instances),
        Err(fault) => Err(fault),
    }
}

fn push_instances(words: &str, instances: &mut Items<InstanceId>) -> Result<(), CaseFault> {
    for word in words.split_whitespace() {
        instances.push(instance(word)?)?;
    }
    Ok(())
}

/// A network, and those that it imports.
fn feed_network(alloc: Global, tables: &mut VpnTables, given: &str) -> Result<(), CaseFault> {
    let (network, imported) = both(given)?;
    let network = short_number(network)?;
    let imports = instances(alloc, imported)?;
    set_network(tables, network, imports)
}

fn set_network(
    tables: &mut VpnTables,
    network: u16,
    imports: Items<InstanceId>,
) -> Result<(), CaseFault> {
    let object = LowValue::Instance { imports };
    Ok(tables.set_low(Delta::Put(LowKey::Instance(network), object))?)
}

/// Port 1 of network 1 at the near agent.
fn feed_port(tables: &mut VpnTables, address: Addr) -> Result<(), CaseFault> {
    let port = LowValue::AttachPort {
        port: PortNo(1),
        instance: InstanceId(1),
        address,
        node: NEAR,
    };
    Ok(tables.set_low(Delta::Put(LowKey::Attach(17), port))?)
}

/// An access list with no entries, from a network to one.
fn feed_list(alloc: Global, tables: &mut VpnTables, given: &str) -> Result<(), CaseFault> {
    let (from, to) = both(given)?;
    let key = LowKey::Acl {
        from: short_number(from)?,
        to: short_number(to)?,
    };
    let list = LowValue::Acl {
        subnets: Items::new(alloc),
        rules: Items::new(alloc),
    };
    Ok(tables.set_low(Delta::Put(key, list))?)
}

/// An agent comes to a session, or tells something on it.
fn hear(tables: &mut VpnTables, word: &str, given: &str) -> Result<(), CaseFault> {
    let (session, rest) = both(given)?;
    let session = short_number(session)?;
    match word {
        "agent" => Ok(tables.set_agent(session, address(rest)?)?),
        "publish" => Ok(tables.set_publication(session, publication(rest)?)?),
        "withdraw" => Ok(tables.set_publication(session, Delta::Drop(published(rest)?))?),
        _ => {
            let key = UpKey::Subscribe(instance(rest)?);
            Ok(tables.set_publication(session, Delta::Put(key, Label(0)))?)
        }
    }
}

/// An instance and an address.
fn published(words: &str) -> Result<UpKey, CaseFault> {
    let (place, host) = both(words)?;
    Ok(UpKey::Publish(instance(place)?, Prefix::host(address(host)?)))
}

/// An instance, an address and a label.
pub(crate) fn publication(words: &str) -> Result<Delta<UpKey, Label>, CaseFault> {
    let (key, label) = words.rsplit_once(" ").ok_or(CaseFault::Unreadable)?;
    Ok(Delta::Put(published(key)?, Label(number(label)?)))
}

/// The route of a next hop, a label and a target.
fn route(alloc: Global, words: &str) -> Result<VpnRoute, CaseFault> {
    let (next_hop, rest) = both(words)?;
    let (label, target) = both(rest)?;
    let next_hop = address(next_hop)?;
    let label = Label(number(label)?);
    let target = Target(long_number(alloc, target)?);
    let mut targets = Targets::new(alloc);
    targets.insert(target)?;
    Ok(VpnRoute {
        next_hop,
        label,
        targets,
    })
}

/// A session, and a key of which it tells something.
pub(crate) fn led(alloc: Global, words: &str) -> Result<(u16, VpnKey), CaseFault> {
    let (session, rest) = both(words)?;
    let (digits, block) = both(rest)?;
    Ok((short_number(session)?, key(alloc, digits, block)?))
}

/// A peer tells a route: its session, its key, and where it leads.
fn lead(alloc: Global, tables: &mut VpnTables, given: &str) -> Result<(), CaseFault> {
    let (told, leading) = given.split_once(" to ").ok_or(CaseFault::Unreadable)?;
    let (session, key) = led(alloc, told)?;
    let route = route(alloc, leading)?;
    Ok(tables.set_peer_route(session, Delta::Put(key, route))?)
}

/// A peer withdraws a route.
fn unlead(alloc: Global, tables: &mut VpnTables, given: &str) -> Result<(), CaseFault> {
    let (session, key) = led(alloc, given)?;
    Ok(tables.set_peer_route(session, Delta::Drop(key))?)
}

/// The agent of session 1 publishes eight ports in each of so many networks, of which each imports all.
fn relate(alloc: Global, tables: &mut VpnTables, given: &str) -> Result<(), CaseFault> {
    let count = short_number(given)?;
    tables.set_agent(1, NEAR)?;
    for network in 1..=count {
        set_network(tables, network, all_networks(alloc, count)?)?;
        publish_ports(tables, network)?;
    }
    Ok(())
}

fn all_networks(alloc: Global, count: u16) -> Result<Items<InstanceId>, CaseFault> {
    let mut networks = Items::new(alloc);
    match push_networks(&mut networks, count) {
        Ok(()) => Ok(networks),
        Err(fault) => Err(fault),
    }
}

fn push_networks(networks: &mut Items<InstanceId>, count: u16) -> Result<(), CaseFault> {
    for network in 1..=count {
        networks.push(InstanceId(network))?;
    }
    Ok(())
}

fn publish_ports(tables: &mut VpnTables, network: u16) -> Result<(), CaseFault> {
    for port in 0..8u32 {
        let number = 8 * u32::from(network) + port;
        let host = Addr(0x0a00_0000 + 256 * u32::from(network) + port);
        let key = UpKey::Publish(InstanceId(network), Prefix::host(host));
        tables.set_publication(1, Delta::Put(key, Label(16 + number)))?;
    }
    Ok(())
}
