//! Changes of one route, or of one publication, whose touched rows are known. Where memory is wanting, nothing changes.
ghost use Rattle.std.specs.Prelude.{◌≡◌, ◌≤◌, ◌+◌, OnErr, OnOk};
ghost use Rattle.ov_sync.specs.Keyed.{key_of};
ghost use Rattle.vpn_holdings.specs.Changes.{with_publication, with_route};
ghost use Rattle.vpn_holdings.specs.Moved.{targets_by_publication, targets_by_route};
ghost use Rattle.vpn_holdings.specs.Touched.{rows_by_key, touched, touched_rows};
ghost use Rattle.vpn_tables.specs.Stored.{AreStored};

use crate::following::{keys_at, refresh};
use crate::stored::{Stored, drop_empty, make_places};
use ov_sync::Delta;
use ov_types::{InstanceId, Label, NoMemory, Prefix, UpKey, VpnKey, VpnRoute};
use path_select::Steps;
use std::alloc::Global;
use std::sync::ledger::Ledger;
use vpn_holdings::VpnHoldings;

/// Applies a change of a peer's route, and makes the rows that it touches anew.
pub(crate) fn change_route<L: Ledger>(
    alloc: Global,
    held: &mut VpnHoldings,
    stored: &mut Stored,
    rows: &[(InstanceId, Prefix)],
    session: u16,
    delta: Delta<VpnKey, VpnRoute>,
    steps: &mut Steps<L>,
) -> Result<(), NoMemory>
    requires stored { AreStored stored.old held.old }
    requires rows { rows.now ≡ touched_rows held.old (targets_by_route held.old session delta) (key_of delta).prefix }
    ensures ok { OnOk result (held.new ≡ with_route held.old session delta) }
    ensures err { OnErr result (held.new ≡ held.old) }
    ensures stored { AreStored stored.new held.new }
    ensures steps { steps.new ≤ steps.old + touched held.old (targets_by_route held.old session delta) }
{
    let places = keys_at(alloc, rows)?;
    let keys = places.as_slice();
    held.uses_are_short();
    make_places(stored, keys)?;
    match held.set_peer_route(session, delta) {
        Ok(()) => {
            refresh(stored, held, keys, steps);
            Ok(())
        }
        Err(NoMemory) => {
            drop_empty(stored, keys);
            Err(NoMemory)
        }
    }
}

/// Applies a change of what an agent told, and makes the rows that it touches anew.
pub(crate) fn change_publication<L: Ledger>(
    alloc: Global,
    held: &mut VpnHoldings,
    stored: &mut Stored,
    rows: &[(InstanceId, Prefix)],
    session: u16,
    delta: Delta<UpKey, Label>,
    steps: &mut Steps<L>,
) -> Result<(), NoMemory>
    requires stored { AreStored stored.old held.old }
    requires rows { rows.now ≡ rows_by_key held.old (targets_by_publication held.old session delta) (key_of delta) }
    ensures ok { OnOk result (held.new ≡ with_publication held.old session delta) }
    ensures err { OnErr result (held.new ≡ held.old) }
    ensures stored { AreStored stored.new held.new }
    ensures steps { steps.new ≤ steps.old + touched held.old (targets_by_publication held.old session delta) }
{
    let places = keys_at(alloc, rows)?;
    let keys = places.as_slice();
    held.uses_are_short();
    make_places(stored, keys)?;
    match held.set_publication(session, delta) {
        Ok(()) => {
            refresh(stored, held, keys, steps);
            Ok(())
        }
        Err(NoMemory) => {
            drop_empty(stored, keys);
            Err(NoMemory)
        }
    }
}
