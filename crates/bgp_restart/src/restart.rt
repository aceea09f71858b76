//! The routes of one peer session.
ghost use Rattle.std.specs.Prelude.{◌≡◌, IfOk, OnOk, OnErr, true, map, option_map, option_copied};
ghost use Rattle.std.specs.Option.{option_or};
ghost use Rattle.std.specs.FinMap.{get, entries};
ghost use Rattle.ov_types.specs.declared.vpn.VpnKey.{VpnKey};
ghost use Rattle.ov_sync.specs.Keyed.{map_of};
ghost use Rattle.bgp_restart.specs.Events.{key_order};
ghost use Rattle.bgp_restart.specs.Keeping.{marked, row_of};
ghost use Rattle.bgp_restart.specs.Routes.{routes_in};

use crate::marks::is_end;
use crate::routes::Routes;
use bgp_vpn::{UpdateFault, read_update};
use bgp_wire::UpdatePart;
use ov_sync::{Delta, SyncIn};
use ov_types::{NoMemory, VpnKey, VpnRoute};
use std::alloc::Global;
use std::marker::Model;
use std::mem;

/// The routes of one peer, over the losses of its session: those that the session has told since it was opened, which
/// are fresh, and those that are left of the session before, which are stale.
#[derive(Drop)]
pub struct Restart {
    up: bool,
    named: bool,
    wide: bool,
    fresh: Routes,
    stale: Routes,
    alloc: Global,
}

impl Model for Restart {
    ghost use Rattle.bgp_restart.specs.Routes.{routes_in};
    ghost use Rattle.bgp_restart.specs.Keeping.{Kept, coded_kept};

    ghost Value = { Kept };

    ghost coded = { coded_kept };

    ghost view = { λ r. record {
      up = r.up;
      named = r.named;
      wide = r.wide;
      fresh = routes_in r.fresh;
      stale = routes_in r.stale;
    } };
}

fn stale_route(route: Option<&VpnRoute>) -> Option<(&VpnRoute, bool)>
    ensures { option_map (λ h. (h.0.now, h.1)) result ≡ marked true (option_copied route.entry) }
{
    Some((route?, true))
}

/// Adds routes to what is there already, with a mark.
fn add_marked(
    routes: &Routes,
    is_stale: bool,
    all: &mut SyncIn<VpnKey, (VpnRoute, bool)>,
) -> Result<(), NoMemory>
    ensures { OnOk result ((k : VpnKey) → get (map_of key_order all.new) k
        ≡ option_or (marked is_stale (get (routes_in routes.now) k)) (get (map_of key_order all.old) k)) }
{
    for (key, held) in routes.iter() {
        if let Some(route) = held {
            all.apply(Delta::Put(*key, (route.clone()?, is_stale)))?;
        }
    }
    Ok(())
}

/// The rows of what is held, in the order of the keys.
fn rows_of(
    alloc: Global,
    all: &SyncIn<VpnKey, (VpnRoute, bool)>,
) -> Result<Vec<(VpnKey, VpnRoute, bool)>, NoMemory>
    ensures { IfOk result (λ rows. rows.items ≡ map row_of (entries (map_of key_order all.now))) }
{
    let mut rows = Vec::new(alloc);
    for (key, held) in all.iter() {
        rows.push((*key, held.0.clone()?, held.1))?;
    }
    Ok(rows)
}

impl Restart {
    ghost use Rattle.std.specs.Prelude.{[], false, IfErr};
    ghost use Rattle.bgp_wire.specs.declared.fault.WireFault.{WireFault};
    ghost use Rattle.bgp_vpn.specs.Updates.{parts_of, HasUpdateFault, IfWire};
    ghost use Rattle.bgp_restart.specs.Events.{RestartEvent, Opened, Closed, Expired};
    ghost use Rattle.bgp_restart.specs.Keeping.{StandsFor, Follows, IsUpdate, held, AreRows};

    /// The session is down, and nothing is held. It takes no memory.
    pub fn new(alloc: Global) -> Restart
        ensures { StandsFor [] result }
    {
        Restart {
            up: false,
            named: false,
            wide: false,
            fresh: Routes::new(alloc),
            stale: Routes::new(alloc),
            alloc,
        }
    }

    /// The session comes up. The routes that are held stay, stale, where the peer kept them, and else they go.
    pub fn opened(&mut self, named: bool, kept: bool, wide: bool)
        requires down { self.old.up ≡ false }
        requires of_a_named_family { kept ≡ true → named ≡ true }
        ensures { Follows self.old (Opened (record { named = named; kept = kept; wide = wide })) self.new }
    {
        self.up = true;
        self.named = named;
        self.wide = wide;
        if !kept {
            self.stale.reset();
        }
    }

    /// The session is lost. What it told stays, stale, where the peer named the family, and all else goes.
    pub fn closed(&mut self)
        requires up { self.old.up ≡ true }
        ensures { Follows self.old Closed self.new }
    {
        self.up = false;
        mem::swap(&mut self.fresh, &mut self.stale);
        self.fresh.reset();
        if !self.named {
            self.stale.reset();
        }
    }

    /// The time for which stale routes are kept has run out: they go.
    pub fn expired(&mut self)
        ensures { Follows self.old Expired self.new }
    {
        self.stale.reset();
    }

    /// Hears an UPDATE: what it changes is fresh, and the other routes stay as they are. Where it marks the end of the
    /// first routes, the stale ones go.
    pub fn update(&mut self, part: &UpdatePart<'_>) -> Result<(), UpdateFault>
        requires up { self.old.up ≡ true }
        ensures ok { OnOk result ((event : RestartEvent) × IsUpdate self.old.wide (parts_of part.now) event × Follows self.old event self.new) }
        ensures err { OnErr result (self.new ≡ self.old) }
        ensures fault { IfErr result (λ e. IfWire e (λ f. HasUpdateFault self.old.wide (parts_of part.now) f)) }

        // Each fault is found. Want of memory alone is free.
        ensures every_fault { (f : WireFault) → HasUpdateFault self.old.wide (parts_of part.now) f
            → result ≡ Err (UpdateFault.Wire f) }
    {
        let changes = match read_update(self.alloc, part, self.wide) {
            Ok(changes) => changes,
            Err(fault) => return Err(fault),
        };
        self.fresh.add_rooms(changes.as_slice())?;
        self.stale.forget(changes.as_slice());
        self.fresh.apply(changes);
        if is_end(part) {
            self.stale.reset();
        }
        Ok(())
    }

    /// The route held under a key, and whether it is stale.
    pub fn held(&self, key: &VpnKey) -> Option<(&VpnRoute, bool)>
        ensures { option_map (λ h. (h.0.now, h.1)) result ≡ held self.now key.now }
    {
        match self.fresh.get(key) {
            Some(route) => Some((route, false)),
            None => stale_route(self.stale.get(key)),
        }
    }

    /// All that is held, in the order of the keys, and whether it is stale.
    pub fn rows(&self) -> Result<Vec<(VpnKey, VpnRoute, bool)>, NoMemory>
        ensures { IfOk result (λ rows. AreRows self.now rows.items) }
    {
        let mut all = SyncIn::new(self.alloc);
        add_marked(&self.stale, true, &mut all)?;
        add_marked(&self.fresh, false, &mut all)?;
        rows_of(self.alloc, &all)
    }

    /// Whether the session is up.
    pub fn is_up(&self) -> bool
        ensures { result ≡ self.now.up }
    {
        self.up
    }
}
