//! Entries, one after the other.
ghost use Rattle.std.specs.Prelude.{◌≡◌, ◌++◌, ◌∷◌, [], List, map, false, OnOk, IfErr};
ghost use Rattle.bgp_vpn.specs.Checks.{optional_attribute};
ghost use Rattle.bgp_vpn.specs.Routes.{RouteFields};
ghost use Rattle.bgp_vpn.specs.Updates.{IfWire};
ghost use Rattle.rt_membership.specs.Entries.{IsEntry, AreEntries, are_entries};
ghost use Rattle.rt_membership.specs.Lying.{fields_of, change_by};

use crate::asked::Asked;
use crate::entry::{Entry, asked_of, split_entry};
use crate::known::OPTIONAL_ATTRIBUTE;
use bgp_vpn::UpdateFault;
use ov_sync::Delta;
use ov_types::NoMemory;

/// Whether entries are withdrawn or announced.
#[derive(Clone, Copy)]
pub(crate) enum Way {
    Withdrawn,
    Announced,
}

/// What an entry changes.
fn change_by(way: Way, entry: &Entry<'_>) -> Delta<Asked, ()>
    requires { IsEntry (fields_of entry.now) }
    ensures { result ≡ change_by way (fields_of entry.now) }
{
    let asked = asked_of(entry);
    match way {
        Way::Withdrawn => Delta::Drop(asked),
        Way::Announced => Delta::Put(asked, ()),
    }
}

fn push_entry(
    way: Way,
    entry: &Entry<'_>,
    deltas: &mut Vec<Delta<Asked, ()>>,
) -> Result<(), NoMemory>
    requires { IsEntry (fields_of entry.now) }
    ensures { OnOk result (deltas.new.items ≡ deltas.old.items ++ change_by way (fields_of entry.now) ∷ []) }
{
    deltas.push(change_by(way, entry))?;
    Ok(())
}

/// What entries change. Octets that are none are a fault.
pub(crate) fn push_entries(
    way: Way,
    octets: &[u8],
    deltas: &mut Vec<Delta<Asked, ()>>,
) -> Result<(), UpdateFault>
    ensures entries { OnOk result ((entries : List RouteFields) × AreEntries octets.now entries
        × (deltas.new.items ≡ deltas.old.items ++ map (change_by way) entries)) }
    ensures fault { IfErr result (λ e. IfWire e (λ f.
        (f ≡ optional_attribute) × (are_entries octets.now ≡ false))) }
{
    let mut rest = octets;
    while !rest.is_empty() {
        let Some((entry, after)) = split_entry(rest) else {
            return Err(UpdateFault::Wire(OPTIONAL_ATTRIBUTE));
        };
        push_entry(way, &entry, deltas)?;
        rest = after;
    }
    Ok(())
}
