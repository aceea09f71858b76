//! Questions of what tables hold.

use crate::wanted::push_object;
use case_lines::{CaseFault, address, begin, number, short_number, told};
use ov_io::TextOut;
use ov_types::{Addr, InstanceId, LowKey, LowValue, NoMemory};
use vpn_tables::{Route, VpnTables};

/// What is asked of the tables as a whole.
pub(crate) fn ask_all(tables: &VpnTables, word: &str, out: &mut TextOut) -> Result<(), CaseFault> {
    match word {
        "own" => tell_own(tables, out),
        "known" => tell_known(tables, out),
        "asn" => told(write!(out, "{}", tables.asn())),
        _ => told(write!(out, "{}", tables.low(&LowKey::ChainUse(0)).is_some())),
    }
}

/// What is asked of a session, an address or a circuit.
pub(crate) fn ask_one(
    tables: &VpnTables,
    word: &str,
    given: &str,
    out: &mut TextOut,
) -> Result<(), CaseFault> {
    match word {
        "publisher" => tell_publisher(tables, number(given)?, out),
        "subscribed" => tell_subscribed(tables, short_number(given)?, out),
        "slice" => tell_slice(tables, address(given)?, out),
        _ => told(write!(out, "{}", tables.address_of(short_number(given)?))),
    }
}

fn tell_own(tables: &VpnTables, out: &mut TextOut) -> Result<(), CaseFault> {
    let own = tables.own_routes()?;
    told(push_routes(&own, out))
}

/// A distinguisher, a prefix and a label for each route.
fn push_routes(routes: &[Route], out: &mut TextOut) -> Result<(), NoMemory> {
    for route in routes {
        let rd = route.path.rd;
        let prefix = route.prefix;
        let label = route.path.label;
        begin(out)?;
        write!(out, "{rd} {prefix} {label}")?;
    }
    Ok(())
}

fn tell_known(tables: &VpnTables, out: &mut TextOut) -> Result<(), CaseFault> {
    let known = tables.known_instances()?;
    told(push_instances(&known, out))
}

fn push_instances(instances: &[InstanceId], out: &mut TextOut) -> Result<(), NoMemory> {
    for instance in instances {
        begin(out)?;
        write!(out, "{instance}")?;
    }
    Ok(())
}

fn tell_publisher(tables: &VpnTables, circuit: u32, out: &mut TextOut) -> Result<(), CaseFault> {
    match tables.publisher(circuit) {
        Some((address, label)) => told(write!(out, "{address} {label}")),
        None => Ok(()),
    }
}

fn tell_subscribed(tables: &VpnTables, session: u16, out: &mut TextOut) -> Result<(), CaseFault> {
    let subscribed = tables.subscriptions(session)?;
    told(push_instances(&subscribed, out))
}

fn tell_slice(tables: &VpnTables, address: Addr, out: &mut TextOut) -> Result<(), CaseFault> {
    let slice = tables.slice(address)?;
    told(push_objects(&slice, out))
}

fn push_objects(objects: &[(LowKey, LowValue)], out: &mut TextOut) -> Result<(), NoMemory> {
    for (key, _value) in objects {
        begin(out)?;
        push_object(key, out)?;
    }
    Ok(())
}
