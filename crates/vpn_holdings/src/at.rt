//! The paths of an instance to one prefix: one walk over what is told with that prefix.
ghost use Rattle.std.specs.Prelude.{◌≡◌, ◌↔◌, ◌≤◌, ◌++◌, [], IsTrue, OnOk, IfOk, map};
ghost use Rattle.std.specs.List.{cons_option, list_any};
ghost use Rattle.std.specs.Option.{option_map};
ghost use Rattle.path_select.specs.NodeModel.Keys.{of_up};
ghost use Rattle.path_select.specs.NodeModel.Members.{Member};
ghost use Rattle.path_select.specs.NodeModel.Reaching.{subnets};
ghost use Rattle.path_select.specs.NodeModel.Tables.{same_prefix};
ghost use Rattle.path_select.specs.declared.selection.Path.{Path as PathOf};
ghost use Rattle.path_select.specs.Selection.{plain};
ghost use Rattle.vpn_holdings.specs.At.{led_at, led_from, paths_at, publishes_to};
ghost use Rattle.vpn_holdings.specs.Indexed.{received_at};
ghost use Rattle.vpn_holdings.specs.Routes.{path_of};

use crate::chains::Side;
use crate::holdings::VpnHoldings;
use crate::reaching::is_among;
use crate::received::{keep, push_labels, push_routes};
use crate::routes::{Route, is_same};
use ov_types::{InstanceId, NoMemory, Prefix, UpKey};
use path_select::Path;
use route_targets::{UseHop, hop_of, rd, target};

/// The session that a re-originated path counts as of.
const OWN_SESSION: u16 = 65535;

/// Whether what a key publishes is to a prefix.
pub(crate) fn is_to(key: &UpKey, prefix: &Prefix) -> bool
    ensures { result ≡ publishes_to prefix.now (of_up key.now) }
{
    match key {
        UpKey::Publish(_, found) => is_same(found, prefix),
        UpKey::Subscribe(_) => false,
    }
}

impl VpnHoldings {
    /// The paths of an instance to a prefix, in some order: the received ones, and the re-originated ones. It looks at
    /// what was told with this prefix alone, and for a place of a use at what was told within it too.
    pub fn paths_at(&self, i: InstanceId, prefix: &Prefix) -> Result<Vec<Path>, NoMemory>
        ensures { IfOk result (λ paths. (p : PathOf)
            → Member p paths.items ↔ Member p (paths_at self.now i prefix.now)) }
    {
        // (for its clause: no held use has more than 15 services)
        self.uses_are_short();
        let mut paths = self.received_at(i, prefix)?;
        self.push_led(&mut paths, i, prefix, true)?;
        self.push_led(&mut paths, i, prefix, false)?;
        Ok(paths)
    }

    /// The paths of an instance to a prefix, of those that it received, in some order. It looks at what was told with
    /// this prefix alone.
    fn received_at(&self, i: InstanceId, prefix: &Prefix) -> Result<Vec<Path>, NoMemory>
        ensures { IfOk result (λ paths. (p : PathOf)
            → Member p paths.items ↔ Member p (received_at self.now i prefix.now)) }
    {
        let mut paths = Vec::new(self.alloc);
        let imports = self.imported(i);
        push_routes(&mut paths, self, &self.routes, prefix, &imports)?;
        push_labels(&mut paths, self, &self.labels, prefix, &imports)?;
        Ok(paths)
    }

    fn push_led(
        &self,
        paths: &mut Vec<Path>,
        i: InstanceId,
        prefix: &Prefix,
        right: bool,
    ) -> Result<(), NoMemory>
        ensures { OnOk result (paths.new.items ≡ paths.old.items ++ map plain (led_at self.now i prefix.now right)) }
    {
        match self.led_at(i, prefix, right) {
            Some(route) => keep(paths, Some(route.path)),
            None => Ok(()),
        }
    }

    /// The route that leads a subnet of a side of the instance's use on into the instance, where there is one. It takes
    /// no memory.
    pub fn led_at(&self, i: InstanceId, prefix: &Prefix, right: bool) -> Option<Route>
        ensures { cons_option (option_map path_of result) [] ≡ led_at self.now i prefix.now right }
    {
        let Some(UseHop { use_no, place }) = hop_of(i) else {
            return None;
        };
        let side = self.side(use_no, right)?;
        if place > side.services() {
            return None;
        }
        if !is_among(prefix, side.subnets()) {
            return None;
        }
        self.led_from(&side, prefix, side.distance_of(place))
    }

    fn led_from(&self, side: &Side<'_>, prefix: &Prefix, distance: u8) -> Option<Route>
        requires within { distance ≤ side.now.chain.services }
        requires among { IsTrue (list_any (same_prefix prefix.now) (subnets side.now)) }
        ensures { cons_option (option_map path_of result) [] ≡ led_from self.now side.now distance prefix.now }
    {
        if distance == 0 {
            return None;
        }
        let (address, label) = self.publisher(side.circuit_at(distance))?;
        if !self.is_up(side, prefix, distance - 1) {
            return None;
        }
        let hop = side.hop_at(distance);
        let path = Path {
            session: OWN_SESSION,
            rd: rd(address, hop),
            next_hop: address,
            label,
        };
        Some(Route {
            prefix: *prefix,
            path,
            target: target(self.asn, hop),
        })
    }
}
