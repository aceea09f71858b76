//! Which subnets are reachable along a chain.
ghost use Rattle.std.specs.Prelude.{◌≡◌, ◌≤◌, ◌<◌, ◌+◌, ◌&&◌, ◌||◌, is_some, IfOk, map};
ghost use Rattle.std.specs.List.{list_any};
ghost use Rattle.path_select.specs.NodeModel.Reaching.{circuit_at, has_path_within, hop_at, is_up, publisher, subnets};
ghost use Rattle.path_select.specs.NodeModel.Tables.{same_prefix};
ghost use Rattle.vpn_holdings.specs.Answers.{is_up_at};

use crate::chains::Side;
use crate::holdings::VpnHoldings;
use crate::within::{have_labels, have_routes};
use ov_types::{InstanceId, NoMemory, Prefix};
use route_targets::{UseHop, hop_of};

/// Whether a subnet is among some.
pub(crate) fn is_among(subnet: &Prefix, subnets: &[Prefix]) -> bool
    ensures { result ≡ list_any (same_prefix subnet.now) subnets.now }
{
    for other in subnets {
        if subnet.addr().0 == other.addr().0 && subnet.len() == other.len() {
            return true;
        }
    }
    false
}

impl VpnHoldings {
    /// Whether a subnet of a side of the use that the instance is a hop of is reachable from there: false for another
    /// instance or subnet. It takes no memory.
    pub fn up(&self, hop: InstanceId, subnet: &Prefix, right: bool) -> bool
        ensures { result ≡ is_up_at self.now hop subnet.now right }
    {
        let Some(UseHop { use_no, place }) = hop_of(hop) else {
            return false;
        };
        let Some(side) = self.side(use_no, right) else {
            return false;
        };
        if place > side.services() {
            return false;
        }
        if !is_among(subnet, side.subnets()) {
            return false;
        }
        self.is_up(&side, subnet, side.distance_of(place))
    }

    pub(crate) fn is_up(&self, side: &Side<'_>, subnet: &Prefix, distance: u8) -> bool
        requires { distance ≤ side.now.chain.services }
        ensures { result ≡ is_up self.now side.now subnet.now distance }
    {
        let mut up = self.has_path_within(side.hop_at(0), subnet);
        for nearer in 0..distance {
            up = self.is_up_next(side, subnet, nearer + 1, up);
        }
        up
    }

    /// Which of a side's subnets are up at its end.
    pub(crate) fn up_at_end(&self, side: &Side<'_>) -> Result<Vec<bool>, NoMemory>
        ensures { IfOk result (λ up. up.items ≡ map (λ s. is_up self.now side.now s 0) (subnets side.now)) }
    {
        let end = side.hop_at(0);
        let mut up = Vec::new(self.alloc);
        for subnet in side.subnets() {
            up.push(self.has_path_within(end, subnet))?;
        }
        Ok(up)
    }

    /// Which of a side's subnets are up one place farther than at a distance, from which are there.
    pub(crate) fn up_next(
        &self,
        side: &Side<'_>,
        distance: u8,
        up: &[bool],
    ) -> Result<Vec<bool>, NoMemory>
        requires within { distance < side.now.chain.services }
        requires short { distance < 15 }
        requires up { up.now ≡ map (λ s. is_up self.now side.now s distance) (subnets side.now) }
        ensures { IfOk result (λ next. next.items ≡ map (λ s. is_up self.now side.now s (distance + 1))
            (subnets side.now)) }
    {
        let mut next = Vec::new(self.alloc);
        for (index, subnet) in side.subnets().iter().enumerate() {
            next.push(self.is_up_next(side, subnet, distance + 1, up[index]))?;
        }
        Ok(next)
    }

    /// Whether it is up at a distance, from whether it is one place nearer.
    fn is_up_next(&self, side: &Side<'_>, subnet: &Prefix, distance: u8, nearer: bool) -> bool
        requires { distance ≤ side.now.chain.services }
        ensures { result ≡ (has_path_within self.now (hop_at side.now distance) subnet.now
            || (is_some (publisher self.now (circuit_at side.now distance)) && nearer)) }
    {
        if nearer && self.is_published(side, distance) {
            return true;
        }
        self.has_path_within(side.hop_at(distance), subnet)
    }

    /// Whether the circuit at a distance that leads towards the end is published here.
    fn is_published(&self, side: &Side<'_>, distance: u8) -> bool
        requires { distance ≤ side.now.chain.services }
        ensures { result ≡ is_some (publisher self.now (circuit_at side.now distance)) }
    {
        self.publisher(side.circuit_at(distance)).is_some()
    }

    /// Whether an instance received a path within a subnet. It looks at what begins in the subnet alone.
    pub(crate) fn has_path_within(&self, i: InstanceId, subnet: &Prefix) -> bool
        ensures { result ≡ has_path_within self.now i subnet.now }
    {
        let imports = self.imported(i);
        let routes = have_routes(self, &self.routes, subnet, &imports);
        let labels = have_labels(self, &self.labels, subnet, &imports);
        either(routes, labels)
    }
}

fn either(one: bool, other: bool) -> bool
    ensures { result ≡ (one || other) }
{
    if one {
        return true;
    }
    other
}
