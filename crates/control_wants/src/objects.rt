//! Changes that the feed told.
ghost use Rattle.std.specs.Prelude.{◌≡◌, ◌≢◌, ℕ, true, false, Some, is_some, OnOk, OnErr};
ghost use Rattle.std.specs.FinMap.{get};
ghost use Rattle.ov_sync.specs.Keyed.{PutOf, key_of};
ghost use Rattle.ov_types.specs.Prefix.{Block};
ghost use Rattle.ov_types.specs.declared.objects.LowKey.{LowKey as NameOf};
ghost use Rattle.ov_types.specs.declared.objects.LowKey.TheVariants as key;
ghost use Rattle.ov_types.specs.declared.prefix.Addr.{Addr as At};
ghost use Rattle.vpn_tables.specs.NodeModel.Keys.{Key, Low, Row, Subscribe};
ghost use Rattle.vpn_tables.specs.NodeModel.Maps.{object};
ghost use Rattle.vpn_tables.specs.NodeModel.Paths.{Told};
ghost use Rattle.vpn_tables.specs.NodeModel.Wants.{slice};
ghost use Rattle.vpn_tables.specs.Changes.{with_low};
ghost use Rattle.vpn_tables.specs.Ranges.{Fits};
ghost use Rattle.vpn_tables.specs.Here.{IsListOfPort, IsRowOf, port_here, put_by};
ghost use Rattle.control_wants.specs.Marks.{AreListsMarked, Covered, IsCleanItem, IsListAmong, IsListOf, IsPort};
ghost use Rattle.control_wants.specs.Marks.{IsRowOfName, IsWithin, MarksByObject, MarksOnly, no_route};

use crate::dirty::Dirty;
use crate::told::{key_of, mark_table};
use crate::whom::Whom;
use ov_sync::Delta;
use ov_types::{Addr, DownKey, InstanceId, LowKey, LowValue, NoMemory};
use vpn_tables::VpnTables;

/// Whether a change leaves whether an object is held at its name.
fn is_held_still(tables: &VpnTables, delta: &Delta<LowKey, LowValue>) -> bool
    ensures { result ≡ true → is_some (object tables.now.feed (key_of delta.now)) ≡ is_some (put_by delta.now) }
{
    let held = tables.low(&key_of(delta)).is_some();
    match delta {
        Delta::Put(_, _) => held,
        Delta::Drop(_) => !held,
    }
}

/// Marks an object wherever it is attached. Where a use changes, or an instance comes or goes, everything is marked.
fn mark_name(dirty: &mut Dirty, tables: &VpnTables, delta: &Delta<LowKey, LowValue>)
    ensures within { IsWithin dirty.old dirty.new }
    ensures no_use { dirty.new.all ≡ false → (n : ℕ) → key_of delta.now ≢ key.ChainUse n }
    ensures known { dirty.new.all ≡ false → (n : ℕ) → key_of delta.now ≡ key.Instance n
        → is_some (object tables.now.feed (key_of delta.now)) ≡ is_some (put_by delta.now) }
    ensures marked { dirty.new.all ≡ false → (a : Told) → IsCleanItem dirty.new a (Low (key_of delta.now)) → ⊥ }
    ensures only { MarksOnly no_route (λ a k. k ≡ Low (key_of delta.now)) dirty.old dirty.new }
{
    let name = key_of(delta);
    let follows = match name {
        LowKey::ChainUse(_) => false,
        LowKey::Instance(_) => is_held_still(tables, delta),
        LowKey::Attach(_) | LowKey::Acl { .. } => true,
    };
    if follows {
        dirty.add_item(DownKey::Slice(name), Whom::Every);
    } else {
        dirty.set_all();
    }
}

/// Marks the rows of the table of an instance, where the name is one's.
fn mark_own_table(dirty: &mut Dirty, tables: &VpnTables, name: &LowKey)
    ensures within { IsWithin dirty.old dirty.new }
    ensures marked { dirty.new.all ≡ false → (n : ℕ) → name.now ≡ key.Instance n → (a : Told) (q : Block)
        → is_some (get a.map (Subscribe (record { 0 = n }))) ≡ true → IsCleanItem dirty.new a (Row (record { 0 = n }) q)
        → IsRowOf tables.now (record { 0 = n }) (Row (record { 0 = n }) q) → ⊥ }
    ensures only { MarksOnly no_route (IsRowOfName tables.now name.now) dirty.old dirty.new }
{
    if dirty.is_all() {
        return;
    }
    if let LowKey::Instance(number) = name {
        mark_table(dirty, tables, InstanceId(*number), Whom::Subscribers);
    }
}

/// Where an object is a port, and of which network.
fn port_of(object: &LowValue) -> Option<(Addr, InstanceId)>
    ensures { IsPort (Some object.now) result }
{
    match object {
        LowValue::AttachPort { instance, node, .. } => Some((*node, *instance)),
        _ => None,
    }
}

/// Where the object that is held at a name is a port, and of which network.
fn held_port(tables: &VpnTables, name: &LowKey) -> Option<(Addr, InstanceId)>
    ensures { IsPort (object tables.now.feed name.now) result }
{
    match tables.low(name) {
        Some(object) => port_of(object),
        None => None,
    }
}

/// Where the object that a change puts is a port, and of which network.
fn put_port(delta: &Delta<LowKey, LowValue>) -> Option<(Addr, InstanceId)>
    ensures { IsPort (put_by delta.now) result }
{
    match delta {
        Delta::Put(_, value) => port_of(value),
        Delta::Drop(_) => None,
    }
}

/// Whether a port is the other, or both are none.
fn is_same(port: Option<(Addr, InstanceId)>, other: Option<(Addr, InstanceId)>) -> bool
    ensures { result ≡ true → port ≡ other }
{
    match (port, other) {
        (Some((address, network)), Some((place, instance))) => {
            address.0 == place.0 && network.0 == instance.0
        }
        (None, None) => true,
        _ => false,
    }
}

/// Whether an object stays a port of its network where it is, or none.
fn port_stays(tables: &VpnTables, delta: &Delta<LowKey, LowValue>) -> bool
    ensures { result ≡ true → (address : At) → port_here address (object tables.now.feed (key_of delta.now))
        ≡ port_here address (put_by delta.now) }
{
    is_same(held_port(tables, &key_of(delta)), put_port(delta))
}

/// Marks a name that is that of an access list from a network.
fn mark_list(dirty: &mut Dirty, from: u16, name: LowKey)
    ensures within { IsWithin dirty.old dirty.new }
    ensures marked { dirty.new.all ≡ false → (to : ℕ) → name ≡ key.Acl from to → (a : Told)
        → IsCleanItem dirty.new a (Low name) → ⊥ }
    ensures only { MarksOnly no_route (λ a k. (to : ℕ) × ((name ≡ key.Acl from to) × (k ≡ Low name)))
        dirty.old dirty.new }
{
    match name {
        LowKey::Acl { from: number, .. } if number == from => dirty.add_item(
            DownKey::Slice(name),
            Whom::Every,
        ),
        _ => {}
    }
}

/// Marks the access lists from a network among some objects.
fn mark_lists(dirty: &mut Dirty, from: u16, objects: &[(LowKey, LowValue)])
    ensures within { IsWithin dirty.old dirty.new }
    ensures marked { AreListsMarked dirty.new from objects.now }
    ensures only { MarksOnly no_route (IsListAmong from objects.now) dirty.old dirty.new }
{
    for (name, _object) in objects {
        mark_list(dirty, from, *name);
    }
}

/// Marks the held access lists from a network that has a port at an address.
fn mark_network(dirty: &mut Dirty, tables: &VpnTables, address: Addr, network: InstanceId)
    ensures within { IsWithin dirty.old dirty.new }
    ensures marked { AreListsMarked dirty.new network.0 (slice tables.now.feed address) }
    ensures only { MarksOnly no_route (IsListAmong network.0 (slice tables.now.feed address)) dirty.old dirty.new }
{
    match tables.slice(address) {
        Ok(objects) => mark_lists(dirty, network.0, &objects),
        Err(_) => dirty.set_all(),
    }
}

/// Marks the held access lists of the network of an object, where that is a port.
fn mark_object(dirty: &mut Dirty, tables: &VpnTables, value: &LowValue)
    ensures within { IsWithin dirty.old dirty.new }
    ensures marked { dirty.new.all ≡ false → (name : NameOf) → object tables.now.feed name ≡ Some value.now
        → (a : Told) (k : Key) → IsCleanItem dirty.new a k
        → IsListOfPort tables.now.feed a.address (Some value.now) k → ⊥ }
    ensures only { (name : NameOf) → object tables.now.feed name ≡ Some value.now
        → MarksOnly no_route (IsListOf tables.now name) dirty.old dirty.new }
{
    if let Some((address, network)) = port_of(value) {
        mark_network(dirty, tables, address, network);
    }
}

/// Marks the held access lists of the network of the port that is held at a name. Where all is marked, or the port
/// stays, there is nothing to look at.
fn mark_held(dirty: &mut Dirty, tables: &VpnTables, name: &LowKey, stays: bool)
    ensures within { IsWithin dirty.old dirty.new }
    ensures marked { stays ≡ false → dirty.new.all ≡ false → (a : Told) (k : Key) → IsCleanItem dirty.new a k
        → IsListOfPort tables.now.feed a.address (object tables.now.feed name.now) k → ⊥ }
    ensures only { MarksOnly no_route (IsListOf tables.now name.now) dirty.old dirty.new }
{
    if stays || dirty.is_all() {
        return;
    }
    if let Some(object) = tables.low(name) {
        mark_object(dirty, tables, object);
    }
}

impl Dirty {
    /// Applies a change that the feed told, and marks what it may change.
    pub fn set_low(
        &mut self,
        tables: &mut VpnTables,
        delta: Delta<LowKey, LowValue>,
    ) -> Result<(), NoMemory>
        requires { PutOf Fits delta }
        ensures ok { OnOk result (tables.new ≡ with_low tables.old delta) }
        ensures err { OnErr result (tables.new ≡ tables.old) }
        ensures within { IsWithin self.old self.new }
        ensures covers { Covered self.old self.new tables.old tables.new }
        ensures only { MarksByObject (key_of delta) tables.old tables.new self.old self.new }
    {
        let name = key_of(&delta);
        let stays = port_stays(tables, &delta);
        mark_name(self, tables, &delta);
        mark_held(self, tables, &key_of(&delta), stays);
        mark_own_table(self, tables, &key_of(&delta));
        tables.set_low(delta)?;
        mark_held(self, tables, &name, stays);
        mark_own_table(self, tables, &name);
        Ok(())
    }
}
