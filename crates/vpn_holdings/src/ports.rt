//! How many ports each network has at each address: kept, so that nobody walks over ports.
ghost use Rattle.std.specs.Prelude.{◌≡◌, ◌<◌, ◌+◌, ◌^◌, ◌==◌, ℕ, IfSome, OnOk, OnErr, unwrap_or};
ghost use Rattle.std.specs.BTreeMap as tree;
ghost use Rattle.std.specs.List.{list_any};
ghost use Rattle.ov_sync.specs.declared.Delta.TheVariants.{Put as PutOf, Drop as DropOf};
ghost use Rattle.ov_sync.specs.Keyed.{changed, map_of};
ghost use Rattle.path_select.specs.NodeModel.Wants.{is_at, is_in_slice, networks_at};
ghost use Rattle.vpn_holdings.specs.Ports.{AreCounted, Counts, one_at, site_of, site_order};
ghost use Rattle.vpn_holdings.specs.Views.{feed_of, low_order};
ghost use Rattle.vpn_holdings.specs.declared.ports.Site.{Site as SiteOf};

use crate::holdings::VpnHoldings;
use ov_types::{Addr, InstanceId, LowKey, LowValue, NoMemory};
use std::collections::BTreeMap;

/// A network at an address.
#[derive(Clone, Copy, PartialEq, Eq, PartialOrd, Ord)]
pub(crate) struct Site {
    address: Addr,
    network: InstanceId,
}

/// The objects that are held.
pub(crate) type Objects = BTreeMap<LowKey, LowValue>;

/// How many ports there are at each site that has one.
pub(crate) type Ports = BTreeMap<Site, u64>;

/// Where an object is counted: a port at its address, as one of its network.
fn site_of(value: &LowValue) -> Option<Site>
    ensures { result ≡ site_of value.now }
{
    match value {
        LowValue::AttachPort { instance, node, .. } => Some(Site {
            address: *node,
            network: *instance,
        }),
        _ => None,
    }
}

fn count_at(ports: &Ports, site: &Site) -> u64
    ensures { result ≡ unwrap_or (tree.get site_order ports.now site.now) 0 }
{
    match ports.get(site) {
        Some(count) => *count,
        None => 0,
    }
}

/// One port more is counted.
fn count_in(ports: &mut Ports, site: Option<Site>) -> Result<(), NoMemory>
    requires { IfSome site (λ s. unwrap_or (tree.get site_order ports.old s) 0 < 2 ^ 63) }
    ensures ok { OnOk result ((f : SiteOf → ℕ) → Counts ports.old f → Counts ports.new (λ s. one_at site s + f s)) }
    ensures err { OnErr result ((f : SiteOf → ℕ) → Counts ports.old f → Counts ports.new f) }
{
    let Some(site) = site else {
        return Ok(());
    };
    let count = count_at(ports, &site);
    ports.insert(site, count + 1)?;
    Ok(())
}

/// One port less is counted. It takes no memory.
fn count_out(ports: &mut Ports, site: Option<Site>)
    ensures { (f : SiteOf → ℕ) → Counts ports.old (λ s. one_at site s + f s) → Counts ports.new f }
{
    let Some(site) = site else {
        return;
    };
    let count = count_at(ports, &site);
    if count <= 1 {
        ports.remove(&site);
        return;
    }
    let _ = ports.insert(site, count - 1);
}

/// Puts an object, and counts it where it is a port.
pub(crate) fn put_object(
    low: &mut Objects,
    ports: &mut Ports,
    key: LowKey,
    value: LowValue,
) -> Result<(), NoMemory>
    requires { AreCounted ports.old (feed_of low.old.entries) }
    ensures ok { OnOk result (map_of low_order low.new.entries
        ≡ changed (map_of low_order low.old.entries) (PutOf key value)) }
    ensures err { OnErr result (low.new.entries ≡ low.old.entries) }
    ensures counted { AreCounted ports.new (feed_of low.new.entries) }
{
    // (for its clause: the objects are fewer than 2^64, so that no count of ports overflows)
    let _held = low.len();
    let site = site_of(&value);
    count_in(ports, site)?;
    match low.insert(key, value) {
        Ok(Some(before)) => {
            count_out(ports, site_of(&before));
            Ok(())
        }
        Ok(None) => Ok(()),
        Err(_) => {
            count_out(ports, site);
            Err(NoMemory)
        }
    }
}

/// Drops an object. It takes no memory.
pub(crate) fn drop_object(low: &mut Objects, ports: &mut Ports, key: &LowKey)
    requires { AreCounted ports.old (feed_of low.old.entries) }
    ensures dropped { map_of low_order low.new.entries ≡ changed (map_of low_order low.old.entries) (DropOf key.now) }
    ensures counted { AreCounted ports.new (feed_of low.new.entries) }
{
    // (for its clause: the objects are fewer than 2^64, so that no count of ports overflows)
    let _held = low.len();
    if let Some(before) = low.remove(key) {
        count_out(ports, site_of(&before));
    }
}

/// Whether an attachment is at an address.
fn is_attached(address: Addr, value: &LowValue) -> bool
    ensures { result ≡ is_at address value.now }
{
    match value {
        LowValue::AttachPort { node, .. } | LowValue::AttachCircuit { node, .. } => {
            node.0 == address.0
        }
        _ => false,
    }
}

impl VpnHoldings {
    /// Whether a port of the network of a number is at an address.
    fn has_port(&self, address: Addr, number: u16) -> bool
        ensures { result ≡ list_any (λ n. n.0 == number) (networks_at self.now.feed address) }
    {
        let network = InstanceId(number);
        self.ports.contains_key(&Site { address, network })
    }

    /// Whether an object is of the slice of an address.
    pub(crate) fn is_in_slice(&self, address: Addr, key: &LowKey, value: &LowValue) -> bool
        ensures { result ≡ is_in_slice self.now.feed address key.now value.now }
    {
        match key {
            LowKey::Attach(_) => is_attached(address, value),
            LowKey::Acl { from, .. } => self.has_port(address, *from),
            _ => false,
        }
    }
}
