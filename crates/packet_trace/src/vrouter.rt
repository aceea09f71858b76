//! What an agent forwards by.
ghost use Rattle.std.specs.Prelude.{◌≡◌};
ghost use Rattle.std.specs.List.{All};
ghost use Rattle.ov_types.specs.Access.{verdict};
ghost use Rattle.route_targets.specs.Forwarding.{Forwarder, attached, looked_up};
ghost use Rattle.packet_trace.specs.Circuits.{IsOfAUse};

use ov_types::{Addr, Attached, Entry, InstanceId, Label, Packet, Verdict};

/// An agent that forwards packets by its labels, its access lists and its routes. Each circuit among its labels is one
/// of a use, from 32769 to 131070.
pub trait Vrouter {
    /// The agent's address, and the rows by which it forwards.
    ghost forwarder: { Self → Forwarder };

    /// The address of the agent's node.
    fn address(&self) -> Addr
        ensures { result ≡ (forwarder self.now).address };

    /// What is under a label. There is nothing exactly where the label is not among the agent's labels.
    fn find(&self, label: Label) -> Option<Attached>
        ensures found { result ≡ attached (forwarder self.now).rows label }
        ensures circuits { All (λ e. IsOfAUse e.1) (forwarder self.now).rows.labels };

    /// What its access lists say of a packet that leaves a network.
    fn verdict(&mut self, network: InstanceId, packet: &Packet) -> Verdict
        ensures said { result ≡ verdict (forwarder self.old).rows.acls network.0 packet.now }
        ensures same { forwarder self.new ≡ forwarder self.old }
        ensures kept { self.new ≡ self.old };

    /// Where the agent's routes of an instance lead an address: nowhere exactly where none of them contains it.
    fn route(&self, i: InstanceId, a: Addr) -> Option<Entry>
        ensures { result ≡ looked_up (forwarder self.now).rows i a.0 };
}
