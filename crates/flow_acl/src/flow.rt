//! What a kept verdict stands under.
ghost use Rattle.std.specs.Prelude.{◌≡◌, ◌++◌};
ghost use Rattle.std.proofs.Common.{rules};
ghost use Rattle.std.specs.Hash as fed;
ghost use Rattle.std.specs.Cmp.Rules.{hashing};
ghost use Rattle.flow_acl.specs.Flows.{flow_of};

use ov_types::{Addr, InstanceId, Packet, Tuple};
use std::hash::{Hash, Hasher};

/// All that a verdict depends on, beside the access lists: the network that a packet leaves, where it goes, and its
/// tuple.
#[derive(Clone, Copy, Debug, PartialEq, Eq)]
pub struct FlowKey {
    pub network: InstanceId,
    pub destination: Addr,
    pub tuple: Tuple,
}

impl Hash for FlowKey {
    ghost hash_input = { λ f. fed.u16 f.network.0 ++ (fed.u32 f.destination.0 ++ (fed.u8 f.tuple.proto ++ (fed.u16 f.tuple.sport ++ fed.u16 f.tuple.dport))) };

    ghost respects_eq = { Prim.search (hashing, rules) };

    fn hash<H: Hasher>(&self, state: &mut H) {
        state.write_u16(self.network.0);
        state.write_u32(self.destination.0);
        state.write_u8(self.tuple.proto);
        state.write_u16(self.tuple.sport);
        state.write_u16(self.tuple.dport);
    }
}

/// The flow of a packet that leaves a network.
pub(crate) fn flow_of(network: InstanceId, packet: &Packet) -> FlowKey
    ensures { result ≡ flow_of network packet.now }
{
    let destination = packet.destination;
    let tuple = packet.tuple;
    FlowKey {
        network,
        destination,
        tuple,
    }
}
