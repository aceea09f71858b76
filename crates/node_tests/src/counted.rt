//! Changes of tables by the calls that count.
ghost use Rattle.std.specs.Prelude.{◌≡◌, ◌<◌};

use crate::changes::{led, publication};
use case_lines::{CaseFault, both, short_number};
use ov_sync::Delta;
use ov_types::{Label, UpKey, VpnKey};
use path_select::Steps;
use std::alloc::Global;
use std::marker::Brand;
use std::sync::ledger::{Blank, Ledger};
use vpn_tables::VpnTables;

/// A publication, or the withdrawal of a peer's route.
pub(crate) fn count(alloc: Global, tables: &mut VpnTables, given: &str) -> Result<(), CaseFault> {
    let (word, rest) = both(given)?;
    if word == "unlead" {
        let (session, key) = led(alloc, rest)?;
        return count_unlead::<Brand>(tables, session, key, Blank::new(1));
    }
    let (session, told) = both(rest)?;
    let session = short_number(session)?;
    count_publish::<Brand>(tables, session, publication(told)?, Blank::new(1))
}

fn count_unlead<L: Ledger>(
    tables: &mut VpnTables,
    session: u16,
    key: VpnKey,
    blank: Blank,
) -> Result<(), CaseFault>
    requires name { blank.name ≡ L.name }
    requires parts { blank.parts ≡ L.parts }
    requires some { 0 < blank.parts }
{
    let mut steps = Steps::<L>::new(blank);
    Ok(tables.set_peer_route_counted(session, Delta::Drop(key), &mut steps)?)
}

fn count_publish<L: Ledger>(
    tables: &mut VpnTables,
    session: u16,
    delta: Delta<UpKey, Label>,
    blank: Blank,
) -> Result<(), CaseFault>
    requires name { blank.name ≡ L.name }
    requires parts { blank.parts ≡ L.parts }
    requires some { 0 < blank.parts }
{
    let mut steps = Steps::<L>::new(blank);
    Ok(tables.set_publication_counted(session, delta, &mut steps)?)
}
