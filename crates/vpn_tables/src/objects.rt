//! An object changes, with the rows that follow from it. Where memory is wanting, nothing changes.
ghost use Rattle.std.specs.Prelude.{◌≡◌, ◌<◌, ◌++◌, map, false, Some, IfOk, OnErr, OnOk};
ghost use Rattle.std.specs.List.{flat_map};
ghost use Rattle.ov_sync.specs.Keyed.{IsPut, PutOf, key_of};
ghost use Rattle.ov_sync.specs.declared.Delta.TheVariants.{Put as PutDelta, Drop as DropDelta};
ghost use Rattle.ov_types.specs.Prefix.{Block};
ghost use Rattle.ov_types.specs.declared.objects.LowKey.TheVariants as key;
ghost use Rattle.node_model.specs.Maps.{object};
ghost use Rattle.vpn_holdings.specs.Changes.{with_low};
ghost use Rattle.vpn_holdings.specs.Gathered.{held_keys, prefixes_told};
ghost use Rattle.vpn_holdings.specs.Ranges.{Fits};
ghost use Rattle.vpn_tables.specs.Changing.{instances_of, is_of, makes_rows, own_rows, rows_by_object, rows_published, stays_known, subnets_of};
ghost use Rattle.vpn_tables.specs.Stored.{AreStored, entry_of, key_at};
ghost use Rattle.vpn_tables.specs.declared.stored.RowKey.{RowKey as RowKeyOf};

use crate::dropping::refresh_stored;
use crate::following::{keys_at, refresh};
use crate::stored::{RowKey, Stored, drop_empty, make_places};
use ov_sync::Delta;
use ov_types::{InstanceId, LowKey, LowValue, NoMemory, Prefix, UpKey};
use path_select::Steps;
use route_targets::{hop_instance, hop_of, target};
use std::alloc::Global;
use std::marker::Brand;
use std::sync::ledger::{Blank, Ledger};
use vpn_holdings::VpnHoldings;

type Row = (InstanceId, Prefix);

/// The instances of an object: of a use as many places as one may have.
fn instances_of(alloc: Global, of: &LowKey) -> Result<Vec<InstanceId>, NoMemory>
    ensures { IfOk result (λ instances. instances.items ≡ instances_of of.now) }
{
    match *of {
        LowKey::Instance(number) => Ok(vec![in alloc; InstanceId(number)]?),
        LowKey::ChainUse(number) => places_of(alloc, number),
        _ => Ok(Vec::new(alloc)),
    }
}

/// The instances of the use of a number: as many places as a use may have, and none above the numbers of uses.
fn places_of(alloc: Global, number: u16) -> Result<Vec<InstanceId>, NoMemory>
    ensures { IfOk result (λ instances. instances.items ≡ instances_of (key.ChainUse number)) }
{
    let mut instances = Vec::new(alloc);
    if number > 3071 {
        return Ok(instances);
    }
    for place in 0..16u8 {
        instances.push(hop_instance(number, place))?;
    }
    Ok(instances)
}

/// Whether an instance is one of an object.
fn is_of(of: &LowKey, i: InstanceId) -> bool
    ensures { result ≡ is_of of.now i }
{
    match (hop_of(i), *of) {
        (Some(hop), LowKey::ChainUse(number)) => hop.use_no == number,
        (None, LowKey::Instance(number)) => i.0 == number,
        _ => false,
    }
}

/// Appends the subnets of an object, where it is a use.
fn push_subnets(subnets: &mut Vec<Prefix>, of: &LowKey, value: &LowValue) -> Result<(), NoMemory>
    ensures { OnOk result (subnets.new.items ≡ subnets.old.items ++ subnets_of of.now (Some value.now)) }
{
    let LowKey::ChainUse(_) = *of else {
        return Ok(());
    };
    if let LowValue::ChainUse {
        left_prefixes,
        right_prefixes,
        ..
    } = value
    {
        subnets.extend_from_slice(left_prefixes.as_slice())?;
        subnets.extend_from_slice(right_prefixes.as_slice())?;
    }
    Ok(())
}

/// The prefixes for which the instances of an object may have rows, before a change of the object or after it.
fn prefixes_by(held: &VpnHoldings, of: &LowKey, value: &LowValue) -> Result<Vec<Prefix>, NoMemory>
    ensures { IfOk result (λ prefixes. prefixes.items ≡ prefixes_told held.now
        ++ (subnets_of of.now (object held.now.feed of.now) ++ subnets_of of.now (Some value.now))) }
{
    let mut prefixes = held.prefixes()?;
    if let Some(before) = held.low(of) {
        push_subnets(&mut prefixes, of, before)?;
    }
    push_subnets(&mut prefixes, of, value)?;
    Ok(prefixes)
}

/// Appends the rows of an instance for some prefixes.
fn push_at(rows: &mut Vec<Row>, instance: InstanceId, prefixes: &[Prefix]) -> Result<(), NoMemory>
    ensures { OnOk result (rows.new.items ≡ rows.old.items ++ map (λ (p : Block). (instance, p)) prefixes.now) }
{
    for prefix in prefixes {
        rows.push((instance, *prefix))?;
    }
    Ok(())
}

/// The rows of the instances of an object, before a change of it and after.
fn own_rows(
    alloc: Global,
    held: &VpnHoldings,
    of: &LowKey,
    value: &LowValue,
) -> Result<Vec<Row>, NoMemory>
    ensures { IfOk result (λ rows. rows.items ≡ own_rows held.now of.now
        (subnets_of of.now (object held.now.feed of.now) ++ subnets_of of.now (Some value.now))) }
{
    let prefixes = prefixes_by(held, of, value)?;
    let instances = instances_of(alloc, of)?;
    let mut rows = Vec::new(alloc);
    for instance in &instances {
        push_at(&mut rows, *instance, prefixes.as_slice())?;
    }
    Ok(rows)
}

/// Appends the rows that a publication touches, where it is in an instance of an object.
fn push_published(
    rows: &mut Vec<Row>,
    held: &VpnHoldings,
    of: &LowKey,
    told: &UpKey,
) -> Result<(), NoMemory>
    ensures { OnOk result (rows.new.items ≡ rows.old.items ++ rows_published held.now of.now told.now) }
{
    let UpKey::Publish(instance, prefix) = *told else {
        return Ok(());
    };
    if !is_of(of, instance) {
        return Ok(());
    }
    let targets = [target(held.asn(), instance)];
    let touched = held.touched_rows(&targets, prefix)?;
    rows.extend_from_slice(touched.as_slice())?;
    Ok(())
}

/// Appends the rows that the publications in instances of an object touch.
fn push_all_published(rows: &mut Vec<Row>, held: &VpnHoldings, of: &LowKey) -> Result<(), NoMemory>
    ensures { OnOk result (rows.new.items ≡ rows.old.items
        ++ flat_map (rows_published held.now of.now) (held_keys held.now)) }
{
    let keys = held.told_keys()?;
    for told in &keys {
        push_published(rows, held, of, told)?;
    }
    Ok(())
}

/// Whether an object is an instance that is held, and so stays known where it is put anew.
fn stays_known(held: &VpnHoldings, of: &LowKey) -> bool
    ensures { result ≡ stays_known held.now of.now }
{
    match of {
        LowKey::Instance(_) => held.low(of).is_some(),
        _ => false,
    }
}

/// The rows that an object which is put touches: of an instance that stays known, its own alone.
fn touched_by_object(
    alloc: Global,
    held: &VpnHoldings,
    of: &LowKey,
    value: &LowValue,
) -> Result<Vec<RowKey>, NoMemory>
    ensures { IfOk result (λ keys. keys.items ≡ map key_at (rows_by_object held.now of.now value.now)) }
{
    let mut rows = own_rows(alloc, held, of, value)?;
    if !stays_known(held, of) {
        push_all_published(&mut rows, held, of)?;
    }
    keys_at(alloc, rows.as_slice())
}

/// Puts an instance or a use, and makes what it touches anew.
fn put_object<L: Ledger>(
    alloc: Global,
    held: &mut VpnHoldings,
    stored: &mut Stored,
    of: LowKey,
    value: LowValue,
    blank: Blank,
) -> Result<(), NoMemory>
    requires fits { Fits of value }
    requires stored { AreStored stored.old held.old }
    requires name { blank.name ≡ L.name }
    requires parts { blank.parts ≡ L.parts }
    requires some { 0 < blank.parts }
    ensures ok { OnOk result (held.new ≡ with_low held.old (PutDelta of value)) }
    ensures err { OnErr result (held.new ≡ held.old) }
    ensures stored { AreStored stored.new held.new }
{
    let mut steps = Steps::<L>::new(blank);
    let touched = touched_by_object(alloc, held, &of, &value)?;
    let keys = touched.as_slice();
    held.uses_are_in_range();
    make_places(stored, keys)?;
    match held.set_low(Delta::Put(of, value)) {
        Ok(()) => {
            held.uses_are_in_range();
            refresh(stored, held, keys, &mut steps);
            Ok(())
        }
        Err(NoMemory) => {
            drop_empty(stored, keys);
            Err(NoMemory)
        }
    }
}

/// Drops an instance or a use. It takes no memory.
fn drop_object(held: &mut VpnHoldings, stored: &mut Stored, of: LowKey) -> Result<(), NoMemory>
    requires { AreStored stored.old held.old }
    ensures ok { OnOk result (held.new ≡ with_low held.old (DropDelta of)) }
    ensures stored { AreStored stored.new held.new }
    ensures err { OnErr result (held.new ≡ held.old) }
    ensures memory { OnErr result ⊥ }
{
    held.set_low(Delta::Drop(of))?;
    refresh_stored(stored, held);
    Ok(())
}

/// Whether rows follow from the object of a key: from an attachment and an access list none do.
fn makes_rows(object_key: &LowKey) -> bool
    ensures { result ≡ makes_rows object_key.now }
{
    match object_key {
        LowKey::Attach(_) | LowKey::Acl { .. } => false,
        LowKey::Instance(_) | LowKey::ChainUse(_) => true,
    }
}

/// Applies a change of an object from which no rows follow.
fn change_other(held: &mut VpnHoldings, delta: Delta<LowKey, LowValue>) -> Result<(), NoMemory>
    requires fits { PutOf Fits delta }
    requires none { makes_rows (key_of delta) ≡ false }
    ensures ok { OnOk result (held.new ≡ with_low held.old delta) }
    ensures err { OnErr result (held.new ≡ held.old) }
    ensures entries { (k : RowKeyOf) → entry_of held.old k ≡ entry_of held.new k }
    ensures memory { OnErr result (IsPut delta) }
{
    held.uses_are_short();
    let changed = held.set_low(delta);
    held.uses_are_short();
    changed
}

/// Applies a change that the feed told.
pub(crate) fn change_low(
    alloc: Global,
    held: &mut VpnHoldings,
    stored: &mut Stored,
    delta: Delta<LowKey, LowValue>,
) -> Result<(), NoMemory>
    requires fits { PutOf Fits delta }
    requires stored { AreStored stored.old held.old }
    ensures ok { OnOk result (held.new ≡ with_low held.old delta) }
    ensures err { OnErr result (held.new ≡ held.old) }
    ensures stored { AreStored stored.new held.new }
    ensures memory { OnErr result (IsPut delta) }
{
    match delta {
        Delta::Put(of, value) => {
            if makes_rows(&of) {
                return put_object::<Brand>(alloc, held, stored, of, value, Blank::new(1));
            }
            change_other(held, Delta::Put(of, value))
        }
        Delta::Drop(of) => {
            if makes_rows(&of) {
                return drop_object(held, stored, of);
            }
            change_other(held, Delta::Drop(of))
        }
    }
}
