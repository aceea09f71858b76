//! What becomes of packets beside a table of flows.
ghost use Rattle.std.specs.Prelude.{◌≡◌, ◌≤◌, length, reverse, Some, None, IfOk, OnOk, OnErr};
ghost use Rattle.std.specs.List.{All};
ghost use Rattle.reach_plain.specs.Reachability.{reachability};
ghost use Rattle.flow_state.specs.Flows.{IsShort, PermitsOneWay, answered, back_through, candidate, flow_outcome};
ghost use Rattle.flow_state.specs.Flows.{flow_use, forward_packet, let_back, outcome_beside, standing, use_beside};
ghost use Rattle.flow_state.specs.Recent.{after_use};

use crate::flow::Flow;
use crate::table::FlowTable;
use crate::towards::network_towards;
use crate::uses::{forward_use, network_of};
use config_check::{Valid, port_at, port_numbered};
use ov_types::{NoMemory, Outcome, Packet, PortNo, Services, Tuple, Why};
use reach_plain::reach;

/// The flow that a packet would be the reply of.
#[tactic(auto, unfolding(crate::specs::Flows::candidate))]
fn candidate(valid: &Valid, packet: Packet) -> Option<Flow>
    ensures { result ≡ candidate valid.now.config packet }
{
    let config = valid.config();
    let Some(own) = network_of(config, packet.source) else {
        return None;
    };
    let Some(other) = network_towards(config, own, packet.destination) else {
        return None;
    };
    let Some(port) = port_at(config, other, packet.destination) else {
        return None;
    };
    Some(Flow {
        source: port.id,
        target: packet.source,
        tuple: Tuple {
            proto: packet.tuple.proto,
            sport: packet.tuple.dport,
            dport: packet.tuple.sport,
        },
    })
}

/// What a packet of a valid configuration comes to.
fn short_reach(valid: &Valid, packet: Packet) -> Outcome
    ensures plain { result ≡ reachability valid.now.config packet }
    ensures short { IsShort result }
{
    // What is known of a valid configuration comes with this read.
    let _config = valid.config();
    reach(valid, packet)
}

/// The packet that a flow goes out by.
fn forward_packet(valid: &Valid, flow: &Flow) -> Option<Packet>
    ensures { result ≡ forward_packet valid.now.config flow.now }
{
    let Some(port) = port_numbered(valid.config(), flow.target) else {
        return None;
    };
    Some(Packet {
        source: flow.source,
        destination: port.address,
        tuple: flow.tuple,
    })
}

fn reversed(services: &Services<64>) -> Services<64>
    requires { length services.now ≤ 15 }
    ensures { result ≡ reverse services.now }
{
    let mut back = Services::new();
    for service in services.as_slice().iter().rev() {
        back.push(*service);
    }
    back
}

/// An outcome on the way back to a port.
fn back_through(source: PortNo, forward: Outcome) -> Outcome
    requires { IsShort forward }
    ensures { result ≡ back_through source forward }
{
    match forward {
        Outcome::Delivered { services, .. } => Outcome::Delivered {
            port: source,
            services: reversed(&services),
        },
        Outcome::Dropped { why } => Outcome::Dropped { why },
    }
}

/// What becomes of a packet where it passes back as the reply of a flow, or of none.
fn outcome_beside(valid: &Valid, plain: Outcome, back: Option<Flow>) -> Outcome
    ensures { result ≡ outcome_beside valid.now.config plain back }
{
    let Some(flow) = back else {
        return plain;
    };
    match forward_packet(valid, &flow) {
        Some(packet) => back_through(flow.source, short_reach(valid, packet)),
        None => plain,
    }
}

/// The flow that a packet uses, where it passes back as the reply of one, or of none.
fn use_beside(valid: &Valid, packet: Packet, plain: &Outcome, back: Option<Flow>) -> Option<Flow>
    ensures { result ≡ use_beside valid.now.config packet plain.now back }
{
    match plain {
        Outcome::Delivered { port, .. } => forward_use(valid, packet, *port),
        Outcome::Dropped { .. } => back,
    }
}

impl FlowTable {
    /// A flow, where it stands in the table.
    fn standing(&self, flow: Option<Flow>) -> Option<Flow>
        ensures { result ≡ standing flow self.now.flows }
    {
        let Some(flow) = flow else {
            return None;
        };
        if self.holds(&flow) { Some(flow) } else { None }
    }

    /// The flow in the table whose reply a packet is.
    fn answered(&self, valid: &Valid, packet: Packet) -> Option<Flow>
        requires kept { All (PermitsOneWay valid.now.config) self.now.flows }
        ensures { result ≡ answered valid.now.config self.now.flows packet }
    {
        // What is known of a valid configuration comes with this read.
        let _config = valid.config();
        self.standing(candidate(valid, packet))
    }

    /// The flow in the table that a denied packet answers.
    fn let_back(&self, valid: &Valid, packet: Packet, plain: &Outcome) -> Option<Flow>
        requires kept { All (PermitsOneWay valid.now.config) self.now.flows }
        ensures { result ≡ let_back valid.now.config self.now.flows packet plain.now }
    {
        match plain {
            Outcome::Dropped {
                why: Why::Denied { .. },
            } => self.answered(valid, packet),
            _ => None,
        }
    }

    /// The table after a packet used a flow, or none.
    fn after_use(&mut self, used: Option<Flow>) -> Result<(), NoMemory>
        ensures ok { OnOk result (self.new ≡ record { capacity = self.old.capacity; flows = after_use self.old.capacity used self.old.flows }) }
        ensures err { OnErr result (self.new ≡ self.old) }
    {
        match used {
            Some(flow) => self.touch(flow),
            None => Ok(()),
        }
    }

    /// What becomes of a packet beside the flows in the table, and the use that it makes of one: it is dropped, or
    /// delivered to a port through services, as without the table, except where it is denied and is the reply of a flow
    /// in the table. That passes back to the flow's source, through the services of the forward packet in reverse. On
    /// want of memory nothing changes.
    #[tactic(auto, unfolding(crate::specs::Flows::flow_outcome, crate::specs::Flows::flow_use))]
    pub fn pass(&mut self, valid: &Valid, packet: Packet) -> Result<Outcome, NoMemory>
        requires kept { All (PermitsOneWay valid.now.config) self.old.flows }
        ensures outcome { IfOk result (λ o. o ≡ flow_outcome valid.now.config self.old.flows packet) }
        ensures table { OnOk result (self.new ≡ record {
          capacity = self.old.capacity;
          flows = after_use self.old.capacity (flow_use valid.now.config self.old.flows packet) self.old.flows;
        }) }
        ensures kept { OnOk result (All (PermitsOneWay valid.now.config) self.new.flows) }
        ensures err { OnErr result (self.new ≡ self.old) }
    {
        // What is known of a valid configuration comes with this read.
        let _config = valid.config();
        let plain = reach(valid, packet);
        let back = self.let_back(valid, packet, &plain);
        let used = use_beside(valid, packet, &plain, back);
        let outcome = outcome_beside(valid, plain, back);
        self.after_use(used)?;
        Ok(outcome)
    }
}
