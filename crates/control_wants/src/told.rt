//! Changes that peers and agents told.
ghost use Rattle.std.specs.List.{AllByRecursion};
ghost use Rattle.std.specs.Prelude.{◌≡◌, ◌≢◌, ◌<◌, true, false, is_some, None, Some, IfOk, IfSome, OnOk, OnErr};
ghost use Rattle.ov_sync.specs.Keyed.{key_of};
ghost use Rattle.ov_types.specs.Prefix.{Block};
ghost use Rattle.ov_types.specs.declared.keys.DownKey.TheVariants as down;
ghost use Rattle.ov_types.specs.declared.keys.UpKey.TheVariants as Up;
ghost use Rattle.ov_types.specs.declared.numbers.InstanceId.{InstanceId as InstanceOf};
ghost use Rattle.ov_types.specs.declared.vpn.VpnKey.{VpnKey as KeyOf};
ghost use Rattle.vpn_tables.specs.NodeModel.Keys.{Key, Row, Vpn};
ghost use Rattle.vpn_tables.specs.NodeModel.Paths.{Told};
ghost use Rattle.vpn_tables.specs.Changes.{with_publication, with_route};
ghost use Rattle.vpn_tables.specs.Listing.{told_in};
ghost use Rattle.vpn_tables.specs.Followed.{HasMoved, IsListed, IsRowChange, key_led};
ghost use Rattle.vpn_tables.specs.TouchedKeys.{key_published};
ghost use Rattle.vpn_tables.specs.Here.{IsRowOf};
ghost use Rattle.control_wants.specs.Marks.{AreAllOf, AreChangesMarked, AreKeysMarked, AreTableRowsMarked};
ghost use Rattle.control_wants.specs.Marks.{Covered, IsChangeMarked, IsCleanItem, IsCleanRoute, IsEither, IsKey};
ghost use Rattle.control_wants.specs.Marks.{IsKeyMarked, IsLedMoved, IsOfLed, IsOfRow, IsOfSubscriber};
ghost use Rattle.control_wants.specs.Marks.{IsOfSubscription, IsOfTable, IsRowMarked, IsRowMoved, IsWithin};
ghost use Rattle.control_wants.specs.Marks.{MarksByPublication, MarksByRoute, MarksOnly, is_of, no_item, no_route};

use crate::dirty::Dirty;
use crate::whom::Whom;
use ov_sync::Delta;
use ov_types::{
    Addr, DownKey, InstanceId, Label, NoMemory, Prefix, TableRow, UpKey, VpnKey, VpnRoute,
};
use std::marker::Brand;
use std::sync::ledger::{Blank, Ledger};
use vpn_tables::{Route, RowChange, Steps, VpnTables};

/// The key of a change.
pub(crate) fn key_of<K: Copy, V>(delta: &Delta<K, V>) -> K
    ensures { result ≡ key_of delta.now }
{
    match delta {
        Delta::Put(key, _) => *key,
        Delta::Drop(key) => *key,
    }
}

/// Marks the rows of an instance with some prefixes, of some agents.
fn mark_table_rows(dirty: &mut Dirty, instance: InstanceId, rows: &[(Prefix, TableRow)], whom: Whom)
    ensures within { IsWithin dirty.old dirty.new }
    ensures marked { AreTableRowsMarked dirty.new whom instance rows.now }
    ensures only { MarksOnly no_route (IsOfTable instance rows.now) dirty.old dirty.new }
    ensures own { AreAllOf dirty.old whom → AreAllOf dirty.new whom }
{
    for (prefix, _row) in rows {
        dirty.add_item(DownKey::Route(instance, *prefix), whom);
    }
}

/// Marks the rows that the table of an instance has, of some agents.
pub(crate) fn mark_table(dirty: &mut Dirty, tables: &VpnTables, instance: InstanceId, whom: Whom)
    ensures within { IsWithin dirty.old dirty.new }
    ensures marked { dirty.new.all ≡ false → (a : Told) (q : Block) → is_of a (down.Route instance q) whom ≡ true
        → IsCleanItem dirty.new a (Row instance q) → IsRowOf tables.now instance (Row instance q) → ⊥ }
    ensures only { MarksOnly no_route (λ a k. IsRowOf tables.now instance k) dirty.old dirty.new }
    ensures own { AreAllOf dirty.old whom → AreAllOf dirty.new whom }
{
    match tables.table(instance) {
        Ok(rows) => mark_table_rows(dirty, instance, &rows, whom),
        Err(NoMemory) => dirty.set_all(),
    }
}

/// Marks of the agents at an address the rows of an instance that one of them subscribes. Where something is marked of
/// them already, everything of them is marked.
fn mark_subscribed(dirty: &mut Dirty, tables: &VpnTables, address: Addr, instance: InstanceId)
    ensures within { IsWithin dirty.old dirty.new }
    ensures marked { dirty.new.all ≡ false → (a : Told) → a.address ≡ address → (k : Key) → IsCleanItem dirty.new a k
        → IsRowOf tables.now instance k → ⊥ }
    ensures kept { dirty.new.all ≡ false → (a b : Told) → a.address ≡ address → b.address ≡ address → (k : Key)
        → IsCleanItem dirty.new a k → IsCleanItem dirty.old b k }
    ensures only { MarksOnly no_route (IsOfSubscriber dirty.old tables.now instance address) dirty.old dirty.new }
{
    if dirty.is_clean_at(address) {
        mark_table(dirty, tables, instance, Whom::Only(address));
    } else {
        dirty.add_address(address);
    }
}

/// Marks of peers the key of a route that leads on, where there is one.
fn mark_led(dirty: &mut Dirty, led: Option<Route>)
    ensures within { IsWithin dirty.old dirty.new }
    ensures marked { dirty.new.all ≡ false → IsKeyMarked dirty.new (key_led led) }
    ensures only { MarksOnly (IsKey (key_led led)) no_item dirty.old dirty.new }
{
    match led {
        Some(route) => dirty.add_route(VpnKey {
            rd: route.path.rd,
            prefix: route.prefix,
        }),
        None => {}
    }
}

/// Marks the keys of the one before a change and of the one after it, where they are not one.
fn mark_led_change(dirty: &mut Dirty, before: Option<Route>, after: Option<Route>)
    ensures within { IsWithin dirty.old dirty.new }
    ensures marked { AreKeysMarked dirty.new (before ≢ after) (key_led before) (key_led after) }
    ensures only { MarksOnly (IsEither (before ≢ after) (key_led before) (key_led after)) no_item dirty.old dirty.new }
{
    if before != after {
        mark_led(dirty, before);
        mark_led(dirty, after);
    }
}

/// Marks a row of the agents that subscribe it, where another path is selected.
fn mark_row(dirty: &mut Dirty, change: &RowChange)
    ensures within { IsWithin dirty.old dirty.new }
    ensures marked { IsRowMarked dirty.new change.now }
    ensures only { MarksOnly no_route (IsRowMoved change.now) dirty.old dirty.new }
{
    if change.before.path != change.after.path {
        dirty.add_item(
            DownKey::Route(change.instance, change.prefix),
            Whom::Subscribers,
        );
    }
}

/// Marks what a row change changes of what sessions are to be told.
fn mark_change(dirty: &mut Dirty, change: &RowChange)
    ensures within { IsWithin dirty.old dirty.new }
    ensures marked { IsChangeMarked dirty.new change.now }
    ensures only { MarksOnly (IsLedMoved change.now) (IsRowMoved change.now) dirty.old dirty.new }
{
    mark_row(dirty, change);
    mark_led_change(dirty, change.before.led_right, change.after.led_right);
    mark_led_change(dirty, change.before.led_left, change.after.led_left);
}

fn mark_changes(dirty: &mut Dirty, changes: &[RowChange])
    ensures within { IsWithin dirty.old dirty.new }
    ensures marked { AreChangesMarked dirty.new changes.now }
    ensures only { MarksOnly (IsOfLed changes.now) (IsOfRow changes.now) dirty.old dirty.new }
{
    for change in changes {
        mark_change(dirty, change);
    }
}

/// Marks what changed, where that is known, and everything otherwise.
fn mark_known(dirty: &mut Dirty, changes: Option<Vec<RowChange>>)
    ensures within { IsWithin dirty.old dirty.new }
    ensures marked { IfSome changes (λ rows. AreChangesMarked dirty.new rows.items) }
    ensures all { dirty.new.all ≡ false → is_some changes ≡ true }
    ensures only { IfSome changes (λ rows.
        MarksOnly (IsOfLed rows.items) (IsOfRow rows.items) dirty.old dirty.new) }
    ensures none { changes ≡ None → dirty.new ≡ record dirty.old { all = true } }
{
    match changes {
        Some(rows) => mark_changes(dirty, &rows),
        None => dirty.set_all(),
    }
}

/// Applies a change of a peer's route, and gives what it changed.
fn change_route<L: Ledger>(
    tables: &mut VpnTables,
    session: u16,
    delta: Delta<VpnKey, VpnRoute>,
    blank: Blank,
) -> Result<Option<Vec<RowChange>>, NoMemory>
    requires name { blank.name ≡ L.name }
    requires parts { blank.parts ≡ L.parts }
    requires some { 0 < blank.parts }
    ensures ok { OnOk result (tables.new ≡ with_route tables.old session delta) }
    ensures err { OnErr result (tables.new ≡ tables.old) }
    ensures each { IfOk result (λ changes. IfSome changes (λ rows.
        AllByRecursion (IsRowChange tables.old tables.new) rows.items)) }
    ensures every { IfOk result (λ changes. IfSome changes (λ rows. (i : InstanceOf) (q : Block)
        → HasMoved tables.old tables.new i q → IsListed rows.items i q)) }
{
    let mut steps = Steps::<L>::new(blank);
    tables.change_peer_route(session, delta, &mut steps)
}

/// Applies a change of what an agent told, and gives what it changed.
fn change_publication<L: Ledger>(
    tables: &mut VpnTables,
    session: u16,
    delta: Delta<UpKey, Label>,
    blank: Blank,
) -> Result<Option<Vec<RowChange>>, NoMemory>
    requires name { blank.name ≡ L.name }
    requires parts { blank.parts ≡ L.parts }
    requires some { 0 < blank.parts }
    ensures ok { OnOk result (tables.new ≡ with_publication tables.old session delta) }
    ensures err { OnErr result (tables.new ≡ tables.old) }
    ensures each { IfOk result (λ changes. IfSome changes (λ rows.
        AllByRecursion (IsRowChange tables.old tables.new) rows.items)) }
    ensures every { IfOk result (λ changes. IfSome changes (λ rows. (i : InstanceOf) (q : Block)
        → HasMoved tables.old tables.new i q → IsListed rows.items i q)) }
{
    let mut steps = Steps::<L>::new(blank);
    tables.change_publication(session, delta, &mut steps)
}

/// Marks the key under which a publication is told, and of an agent that subscribes the rows of the instance.
fn mark_own(dirty: &mut Dirty, tables: &VpnTables, session: u16, key: &UpKey)
    ensures within { IsWithin dirty.old dirty.new }
    ensures published { dirty.new.all ≡ false → (k : KeyOf) → key_published tables.now session key.now ≡ Some k
        → IsCleanRoute dirty.new (Vpn k) → ⊥ }
    ensures subscribed { dirty.new.all ≡ false → (i : InstanceOf) → key.now ≡ Up.Subscribe i → (a : Told)
        → a.address ≡ (told_in tables.now.agents session).address → (k : Key) → IsCleanItem dirty.new a k
        → IsRowOf tables.now i k → ⊥ }
    ensures kept { dirty.new.all ≡ false → (i : InstanceOf) → key.now ≡ Up.Subscribe i → (a b : Told)
        → a.address ≡ (told_in tables.now.agents session).address
        → b.address ≡ (told_in tables.now.agents session).address → (k : Key) → IsCleanItem dirty.new a k
        → IsCleanItem dirty.old b k }
    ensures only { MarksOnly (IsKey (key_published tables.now session key.now))
        (IsOfSubscription dirty.old tables.now session key.now) dirty.old dirty.new }
{
    match key {
        UpKey::Subscribe(instance) => {
            mark_subscribed(dirty, tables, tables.address_of(session), *instance);
        }
        UpKey::Publish(_, _) => match tables.key_published(session, key) {
            Some(key) => dirty.add_route(key),
            None => {}
        },
    }
}

impl Dirty {
    /// Applies a change that an agent told on its session, and marks what it may change.
    pub fn set_publication(
        &mut self,
        tables: &mut VpnTables,
        session: u16,
        delta: Delta<UpKey, Label>,
    ) -> Result<(), NoMemory>
        ensures ok { OnOk result (tables.new ≡ with_publication tables.old session delta) }
        ensures err { OnErr result (tables.new ≡ tables.old) }
        ensures within { IsWithin self.old self.new }
        ensures covers { Covered self.old self.new tables.old tables.new }
        ensures only { MarksByPublication session (key_of delta) tables.old tables.new self.old self.new }
    {
        tables.uses_are_in_range();
        mark_own(self, tables, session, &key_of(&delta));
        let changes = change_publication::<Brand>(tables, session, delta, Blank::new(1))?;
        mark_known(self, changes);
        Ok(())
    }

    /// Applies a change that a peer told on its session, and marks what it may change.
    pub fn set_peer_route(
        &mut self,
        tables: &mut VpnTables,
        session: u16,
        delta: Delta<VpnKey, VpnRoute>,
    ) -> Result<(), NoMemory>
        ensures ok { OnOk result (tables.new ≡ with_route tables.old session delta) }
        ensures err { OnErr result (tables.new ≡ tables.old) }
        ensures within { IsWithin self.old self.new }
        ensures covers { Covered self.old self.new tables.old tables.new }
        ensures only { MarksByRoute (key_of delta) tables.old tables.new self.old self.new }
    {
        tables.uses_are_in_range();
        self.add_route(key_of(&delta));
        let changes = change_route::<Brand>(tables, session, delta, Blank::new(1))?;
        mark_known(self, changes);
        Ok(())
    }
}
