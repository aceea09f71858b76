//! Which instances are known and imported, and the routes of the agents' publications.
ghost use Rattle.std.specs.Prelude.{◌≡◌, ◌≤◌, ◌<◌, None};
ghost use Rattle.std.specs.Option.{option_map};
ghost use Rattle.path_select.specs.NodeModel.Keys.{of_up};
ghost use Rattle.path_select.specs.NodeModel.Values.{Label as LabelOf};
ghost use Rattle.path_select.specs.NodeModel.Reaching.{published_by, publisher};
ghost use Rattle.path_select.specs.NodeModel.Uses.{is_known};
ghost use Rattle.path_select.specs.NodeModel.Paths.{own_path};
ghost use Rattle.path_select.specs.NodeModel.Tables.{same_prefix};
ghost use Rattle.vpn_holdings.specs.Routes.{path_of};
ghost use Rattle.vpn_holdings.specs.Touched.{imports_one};
ghost use Rattle.vpn_holdings.specs.Views.{agent_of};

use crate::holdings::{Agent, VpnHoldings};
use ov_types::{Addr, InstanceId, Label, LowKey, Prefix, Target, UpKey};
use path_select::Path;
use route_targets::{circuit_address, circuit_instance, hop_of, rd, target};

/// A route of this control node's own: its prefix, where it leads, and its one target.
#[derive(Clone, Copy, PartialEq, Eq)]
pub struct Route {
    pub prefix: Prefix,
    pub path: Path,
    pub target: Target,
}

pub(crate) fn is_same(found: &Prefix, prefix: &Prefix) -> bool
    ensures { result ≡ same_prefix found.now prefix.now }
{
    found.addr().0 == prefix.addr().0 && found.len() == prefix.len()
}

impl Agent {
    /// The label under which it publishes a circuit.
    fn label_of(&self, circuit: u32) -> Option<Label>
        requires { circuit ≤ 131071 }
        ensures { result ≡ published_by (agent_of self.now) circuit }
    {
        let instance = circuit_instance(circuit);
        let host = Prefix::host(circuit_address(circuit));
        self.told.get(&UpKey::Publish(instance, host)).copied()
    }
}

impl VpnHoldings {
    /// The address and the label of a circuit's publication; where two agents publish it, of the lower session. No
    /// circuit has a number above 131071. It takes no memory.
    pub fn publisher(&self, circuit: u32) -> Option<(Addr, Label)>
        ensures counts { circuit ≤ 131071 → result ≡ publisher self.now circuit }
        ensures no_circuit { 131071 < circuit → result ≡ None }
    {
        if circuit > 131_071 {
            return None;
        }
        for agent in &self.agents {
            if let Some(label) = agent.label_of(circuit) {
                return Some((agent.address, label));
            }
        }
        None
    }

    /// Whether an instance is a held network's, or a place of a held use. It takes no memory.
    pub fn is_known(&self, i: InstanceId) -> bool
        ensures { result ≡ is_known self.now.feed i }
    {
        let Some(hop) = hop_of(i) else {
            return self.low(&LowKey::Instance(i.0)).is_some();
        };
        match self.side(hop.use_no, true) {
            Some(side) => hop.place <= side.services(),
            None => false,
        }
    }

    /// Whether an import of an instance has one of these targets: of none where the instance is not known. It takes no
    /// memory.
    pub(crate) fn imports_any(&self, i: InstanceId, targets: &[Target]) -> bool
        ensures { result ≡ imports_one self.now targets.now i }
    {
        self.imported(i).has_any(targets)
    }

    /// The route of a publication, where its instance is known.
    pub(crate) fn own_route(&self, agent: &Agent, key: &UpKey, label: Label) -> Option<Route>
        ensures { option_map path_of result ≡ own_path self.now (agent_of agent.now) (of_up key.now) (LabelOf label) }
    {
        let UpKey::Publish(instance, prefix) = *key else {
            return None;
        };
        if !self.is_known(instance) {
            return None;
        }
        let path = Path {
            session: agent.session,
            rd: rd(agent.address, instance),
            next_hop: agent.address,
            label,
        };
        Some(Route {
            prefix,
            path,
            target: target(self.asn, instance),
        })
    }
}
