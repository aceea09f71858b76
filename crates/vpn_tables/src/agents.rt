//! Whose session it is changes, with the rows of what its agent told. Where memory is wanting, nothing changes.
ghost use Rattle.std.specs.Prelude.{◌≡◌, ◌<◌, map, IfOk, OnErr, OnOk};
ghost use Rattle.vpn_holdings.specs.Changes.{with_agent};
ghost use Rattle.vpn_tables.specs.Changing.{rows_by_agent};
ghost use Rattle.vpn_tables.specs.Stored.{AreStored, key_at};

use crate::following::{keys_at, refresh};
use crate::stored::{RowKey, Stored, drop_empty, make_places};
use ov_sync::Delta;
use ov_types::{Addr, InstanceId, NoMemory, Prefix};
use path_select::Steps;
use std::alloc::Global;
use std::marker::Brand;
use std::sync::ledger::{Blank, Ledger};
use vpn_holdings::VpnHoldings;

/// The rows that what the agent of a session told touches.
fn touched_by_agent(
    alloc: Global,
    held: &VpnHoldings,
    session: u16,
) -> Result<Vec<(InstanceId, Prefix)>, NoMemory>
    ensures { IfOk result (λ rows. rows.items ≡ rows_by_agent held.now session) }
{
    let mut rows = Vec::new(alloc);
    let keys = held.keys_told(session)?;
    for key in &keys {
        let touched = held.touched_by_publication(session, &Delta::Drop(*key))?;
        rows.extend_from_slice(touched.as_slice())?;
    }
    Ok(rows)
}

fn agent_keys(alloc: Global, held: &VpnHoldings, session: u16) -> Result<Vec<RowKey>, NoMemory>
    ensures { IfOk result (λ keys. keys.items ≡ map key_at (rows_by_agent held.now session)) }
{
    let rows = touched_by_agent(alloc, held, session)?;
    keys_at(alloc, rows.as_slice())
}

/// Says whose session it is, and makes the rows of what its agent told anew.
pub(crate) fn change_agent(
    alloc: Global,
    held: &mut VpnHoldings,
    stored: &mut Stored,
    session: u16,
    address: Addr,
) -> Result<(), NoMemory>
    requires { AreStored stored.old held.old }
    ensures ok { OnOk result (held.new ≡ with_agent held.old session address) }
    ensures err { OnErr result (held.new ≡ held.old) }
    ensures stored { AreStored stored.new held.new }
{
    change_on::<Brand>(alloc, held, stored, session, address, Blank::new(1))
}

fn change_on<L: Ledger>(
    alloc: Global,
    held: &mut VpnHoldings,
    stored: &mut Stored,
    session: u16,
    address: Addr,
    blank: Blank,
) -> Result<(), NoMemory>
    requires stored { AreStored stored.old held.old }
    requires name { blank.name ≡ L.name }
    requires parts { blank.parts ≡ L.parts }
    requires some { 0 < blank.parts }
    ensures ok { OnOk result (held.new ≡ with_agent held.old session address) }
    ensures err { OnErr result (held.new ≡ held.old) }
    ensures stored { AreStored stored.new held.new }
{
    let mut steps = Steps::<L>::new(blank);
    let touched = agent_keys(alloc, held, session)?;
    let keys = touched.as_slice();
    held.uses_are_short();
    held.agents_are_in_order();
    make_places(stored, keys)?;
    match held.set_agent(session, address) {
        Ok(()) => {
            refresh(stored, held, keys, &mut steps);
            Ok(())
        }
        Err(NoMemory) => {
            drop_empty(stored, keys);
            Err(NoMemory)
        }
    }
}
