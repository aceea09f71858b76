//! What a control node holds, and what its peers are to have been told.
ghost use Rattle.std.specs.Prelude.{◌≡◌, IfOk};
ghost use Rattle.node_core.specs.NodeModel.Wants.{wanted_by_peers as wanted_among};
ghost use Rattle.vpn_tables.specs.Views.{peer_of};
ghost use Rattle.control_node.specs.Core.{holdings};

use crate::ends::ControlEnds;
use crate::node::ControlNode;
use control_wants::wanted_by_peers;
use ov_types::{NoMemory, VpnKey, VpnRoute};
use std::alloc::Global;
use std::collections::BTreeMap;
use vpn_tables::VpnTables;

impl ControlEnds {
    /// What is held of all sessions.
    pub(crate) fn held(&self) -> &VpnTables
        ensures { result.now ≡ holdings self.now.plan self.now.posts }
    {
        &self.tables
    }
}

impl ControlNode {
    /// What every peer is to have been told: the own and the re-originated routes.
    pub fn wanted(&self, alloc: Global) -> Result<BTreeMap<VpnKey, VpnRoute>, NoMemory>
        ensures { IfOk result (λ wanted. peer_of wanted.entries
            ≡ wanted_among (holdings self.now.plan self.now.posts)) }
    {
        wanted_by_peers(alloc, self.tables())
    }
}
