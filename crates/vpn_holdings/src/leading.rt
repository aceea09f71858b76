//! The routes that lead the reachable subnets of held chains on.
ghost use Rattle.std.specs.Prelude.{◌≡◌, ◌<◌, ◌++◌, ◌+◌, Some, OnOk, IfOk, map};
ghost use Rattle.std.specs.List.{flat_map};
ghost use Rattle.path_select.specs.NodeModel.Reaching.{below, circuit_at, into, is_up, publisher, reoriginated_paths, subnets};
ghost use Rattle.vpn_holdings.specs.Leading.{leads, sides_of_held, use_at};
ghost use Rattle.vpn_holdings.specs.Routes.{path_of};

use crate::chains::Side;
use crate::holdings::VpnHoldings;
use crate::routes::Route;
use ov_types::{Addr, Label, LowKey, NoMemory};
use path_select::Path;
use route_targets::{rd, target};

/// The session that a re-originated path counts as of.
const OWN_SESSION: u16 = 65535;

impl VpnHoldings {
    /// The re-originated routes: of each held use by number, the right side's before the left's, by the distance that
    /// they lead from, and then by subnet. Two may have one key; the first of these counts.
    pub fn reoriginated_paths(&self) -> Result<Vec<Route>, NoMemory>
        ensures { IfOk result (λ routes. map path_of routes.items ≡ reoriginated_paths self.now) }
    {
        let mut routes = Vec::new(self.alloc);
        for (key, _value) in self.held_uses() {
            self.lead_use(&mut routes, key)?;
        }
        Ok(routes)
    }

    /// Appends the routes that lead on along the use that is held under a key.
    pub(crate) fn lead_use(&self, routes: &mut Vec<Route>, key: &LowKey) -> Result<(), NoMemory>
        ensures { OnOk result (map path_of routes.new.items ≡ map path_of routes.old.items
            ++ flat_map (leads self.now) (sides_of_held (use_at self.now.feed key.now))) }
    {
        let LowKey::ChainUse(number) = *key else {
            return Ok(());
        };
        match (self.side(number, true), self.side(number, false)) {
            (Some(right), Some(left)) => {
                self.lead_side(routes, &right)?;
                self.lead_side(routes, &left)?;
                Ok(())
            }
            _ => Ok(()),
        }
    }

    /// One walk along the chain from the side's end.
    fn lead_side(&self, routes: &mut Vec<Route>, side: &Side<'_>) -> Result<(), NoMemory>
        ensures { OnOk result (map path_of routes.new.items ≡ map path_of routes.old.items
            ++ flat_map (into (is_up self.now) self.now side.now) (below side.now.chain.services)) }
    {
        let mut up = self.up_at_end(side)?;
        for distance in 0..side.services() {
            self.lead_into(routes, side, distance, up.as_slice())?;
            up = self.up_next(side, distance, up.as_slice())?;
        }
        Ok(())
    }

    /// Appends the routes that lead the subnets that are up at a distance into the next place.
    fn lead_into(
        &self,
        routes: &mut Vec<Route>,
        side: &Side<'_>,
        distance: u8,
        up: &[bool],
    ) -> Result<(), NoMemory>
        requires within { distance < side.now.chain.services }
        requires short { distance < 15 }
        requires up { up.now ≡ map (λ s. is_up self.now side.now s distance) (subnets side.now) }
        ensures { OnOk result (map path_of routes.new.items ≡ map path_of routes.old.items
            ++ into (is_up self.now) self.now side.now distance) }
    {
        match self.publisher(side.circuit_at(distance + 1)) {
            Some((address, label)) => {
                self.lead_towards(routes, side, distance, address, label, up)
            }
            None => Ok(()),
        }
    }

    /// Appends the routes that lead from a distance towards the circuit of the next place, which is published.
    fn lead_towards(
        &self,
        routes: &mut Vec<Route>,
        side: &Side<'_>,
        distance: u8,
        address: Addr,
        label: Label,
        up: &[bool],
    ) -> Result<(), NoMemory>
        requires within { distance < side.now.chain.services }
        requires short { distance < 15 }
        requires published { publisher self.now (circuit_at side.now (distance + 1)) ≡ Some (address, label) }
        requires up { up.now ≡ map (λ s. is_up self.now side.now s distance) (subnets side.now) }
        ensures { OnOk result (map path_of routes.new.items ≡ map path_of routes.old.items
            ++ into (is_up self.now) self.now side.now distance) }
    {
        let hop = side.hop_at(distance + 1);
        for (index, subnet) in side.subnets().iter().enumerate() {
            if up[index] {
                let path = Path {
                    session: OWN_SESSION,
                    rd: rd(address, hop),
                    next_hop: address,
                    label,
                };
                let prefix = *subnet;
                let target = target(self.asn, hop);
                routes.push(Route {
                    prefix,
                    path,
                    target,
                })?;
            }
        }
        Ok(())
    }
}
