//! What is stored is made anew in place where less is held. It takes no memory.
ghost use Rattle.std.specs.Prelude.{◌≡◌, false, if◌then◌else◌, is_some};
ghost use Rattle.std.specs.BTreeMap as tree;
ghost use Rattle.vpn_holdings.specs.Changes.{without};
ghost use Rattle.vpn_tables.specs.Stored.{AreStored, entry_of, nothing_stored, row_order, stored_at};
ghost use Rattle.vpn_tables.specs.declared.stored.RowKey.{RowKey as RowKeyOf};

use crate::following::follows;
use crate::stored::{Entry, RowKey, Stored};
use vpn_holdings::VpnHoldings;

/// Makes what is stored in a place anew. Says whether anything is.
fn refresh_place(held: &VpnHoldings, key: &RowKey, entry: &mut Entry) -> bool
    ensures entry { entry.new ≡ entry_of held.now key.now }
    ensures nothing { result ≡ false → entry.new ≡ nothing_stored }
{
    *entry = follows(held, *key);
    !entry.is_nothing()
}

/// Makes what is stored anew, where there is a place for it.
pub(crate) fn refresh_stored(stored: &mut Stored, held: &VpnHoldings)
    ensures { (k : RowKeyOf) → stored_at stored.new k
        ≡ (if is_some (tree.get row_order stored.old k) then entry_of held.now k else nothing_stored) }
{
    stored.retain(|key, entry| refresh_place(held, key, entry));
}

/// Empties what a session gave.
pub(crate) fn drop_session(held: &mut VpnHoldings, stored: &mut Stored, session: u16)
    requires { AreStored stored.old held.old }
    ensures held { held.new ≡ without held.old session }
    ensures stored { AreStored stored.new held.new }
{
    held.drop_session(session);
    if session == 0 {
        stored.clear();
        return;
    }
    refresh_stored(stored, held);
}
