//! The rows that a change touches.
ghost use Rattle.std.specs.Prelude.{◌≡◌, ◌++◌, true, false, OnOk, IfOk, map};
ghost use Rattle.std.specs.List.{filter, flat_map, list_any};
ghost use Rattle.ov_sync.specs.Keyed.{key_of};
ghost use Rattle.ov_types.specs.Prefix.{Block};
ghost use Rattle.ov_types.specs.declared.numbers.InstanceId.{InstanceId as InstanceOf};
ghost use Rattle.path_select.specs.NodeModel.Reaching.{AreShort};
ghost use Rattle.path_select.specs.NodeModel.Uses.{uses};
ghost use Rattle.vpn_holdings.specs.Leading.{use_at};
ghost use Rattle.vpn_holdings.specs.Listing.{each_of, hops};
ghost use Rattle.vpn_holdings.specs.Moved.{targets_by_publication, targets_by_route};
ghost use Rattle.vpn_holdings.specs.Touched.{imports_one, rows_by_key, rows_if_touched, touched_rows};

use crate::chains::Side;
use crate::holdings::VpnHoldings;
use crate::listing::push_places;
use crate::moved::{route_key, told_key};
use ov_sync::Delta;
use ov_types::{InstanceId, Label, LowKey, NoMemory, Prefix, Target, UpKey, VpnKey, VpnRoute};

type Row = (InstanceId, Prefix);

/// Appends the rows of an instance for some prefixes.
fn push_at(rows: &mut Vec<Row>, instance: InstanceId, subnets: &[Prefix]) -> Result<(), NoMemory>
    ensures { OnOk result (rows.new.items ≡ rows.old.items ++ map (λ (s : Block). (instance, s)) subnets.now) }
{
    for subnet in subnets {
        rows.push((instance, *subnet))?;
    }
    Ok(())
}

/// Appends the rows of some instances for the subnets of two sides.
fn push_rows(
    rows: &mut Vec<Row>,
    instances: &[InstanceId],
    left: &[Prefix],
    right: &[Prefix],
) -> Result<(), NoMemory>
    ensures { OnOk result (rows.new.items ≡ rows.old.items
        ++ flat_map (λ (i : InstanceOf). map (λ (s : Block). (i, s)) (left.now ++ right.now)) instances.now) }
{
    for instance in instances {
        push_at(rows, *instance, left)?;
        push_at(rows, *instance, right)?;
    }
    Ok(())
}

impl VpnHoldings {
    /// No held use has more than 15 services.
    pub fn uses_are_short(&self)
        ensures { AreShort self.now.feed }
    {
        // (a read of the tables, for what always holds of them)
        let _asn = self.asn;
    }

    /// The rows that a change of paths to a prefix, with these targets before and after it, may change.
    pub fn touched_rows(&self, targets: &[Target], prefix: Prefix) -> Result<Vec<Row>, NoMemory>
        ensures { IfOk result (λ rows. rows.items ≡ touched_rows self.now targets.now prefix) }
    {
        let mut rows = Vec::new(self.alloc);
        let known = self.known_instances()?;
        self.push_importing(&mut rows, known.as_slice(), targets, prefix)?;
        self.push_along(&mut rows, targets)?;
        Ok(rows)
    }

    /// The rows that a change of a peer's route may change.
    pub fn touched_by_route(
        &self,
        session: u16,
        delta: &Delta<VpnKey, VpnRoute>,
    ) -> Result<Vec<Row>, NoMemory>
        ensures { IfOk result (λ rows. rows.items
            ≡ touched_rows self.now (targets_by_route self.now session delta.now) (key_of delta.now).prefix) }
    {
        let targets = self.targets_by_route(session, delta)?;
        self.touched_rows(targets.as_slice(), route_key(delta).prefix)
    }

    /// The rows that a change of what an agent told may change; a subscription changes none.
    pub fn touched_by_publication(
        &self,
        session: u16,
        delta: &Delta<UpKey, Label>,
    ) -> Result<Vec<Row>, NoMemory>
        ensures { IfOk result (λ rows. rows.items
            ≡ rows_by_key self.now (targets_by_publication self.now session delta.now) (key_of delta.now)) }
    {
        let UpKey::Publish(_, prefix) = told_key(delta) else {
            return Ok(Vec::new(self.alloc));
        };
        let targets = self.targets_by_publication(session, delta)?;
        self.touched_rows(targets.as_slice(), prefix)
    }

    fn push_importing(
        &self,
        rows: &mut Vec<Row>,
        instances: &[InstanceId],
        targets: &[Target],
        prefix: Prefix,
    ) -> Result<(), NoMemory>
        ensures { OnOk result (rows.new.items ≡ rows.old.items
            ++ map (λ (i : InstanceOf). (i, prefix)) (filter (imports_one self.now targets.now) instances.now)) }
    {
        for instance in instances {
            if self.imports_any(*instance, targets) {
                rows.push((*instance, prefix))?;
            }
        }
        Ok(())
    }

    fn push_along(&self, rows: &mut Vec<Row>, targets: &[Target]) -> Result<(), NoMemory>
        ensures { OnOk result (rows.new.items ≡ rows.old.items
            ++ flat_map (rows_if_touched self.now targets.now) (uses self.now.feed)) }
    {
        for (key, _value) in self.held_uses() {
            self.push_touched(rows, key, targets)?;
        }
        Ok(())
    }

    /// Appends the rows of the use that is held under a key, where it is touched.
    fn push_touched(
        &self,
        rows: &mut Vec<Row>,
        key: &LowKey,
        targets: &[Target],
    ) -> Result<(), NoMemory>
        ensures { OnOk result (rows.new.items ≡ rows.old.items
            ++ each_of (rows_if_touched self.now targets.now) (use_at self.now.feed key.now)) }
    {
        let LowKey::ChainUse(number) = *key else {
            return Ok(());
        };
        match (self.side(number, true), self.side(number, false)) {
            (Some(right), Some(left)) => self.push_use(rows, &left, &right, targets),
            _ => Ok(()),
        }
    }

    fn push_use(
        &self,
        rows: &mut Vec<Row>,
        left: &Side<'_>,
        right: &Side<'_>,
        targets: &[Target],
    ) -> Result<(), NoMemory>
        requires one { right.now.chain ≡ left.now.chain }
        requires left { left.now.is_right ≡ false }
        requires right { right.now.is_right ≡ true }
        ensures { OnOk result (rows.new.items ≡ rows.old.items
            ++ rows_if_touched self.now targets.now left.now.chain) }
    {
        let places = self.places(left)?;
        if !self.imports_among(places.as_slice(), targets) {
            return Ok(());
        }
        push_rows(rows, places.as_slice(), left.subnets(), right.subnets())
    }

    pub(crate) fn places(&self, side: &Side<'_>) -> Result<Vec<InstanceId>, NoMemory>
        ensures { IfOk result (λ places. places.items ≡ hops side.now.chain) }
    {
        let mut places = Vec::new(self.alloc);
        push_places(&mut places, side)?;
        Ok(places)
    }

    /// Whether one of some instances imports one of these targets.
    pub(crate) fn imports_among(&self, instances: &[InstanceId], targets: &[Target]) -> bool
        ensures { result ≡ list_any (imports_one self.now targets.now) instances.now }
    {
        for instance in instances {
            if self.imports_any(*instance, targets) {
                return true;
            }
        }
        false
    }
}
