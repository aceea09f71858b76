//! Laws of the walk of a packet, each the contract of a function that does nothing.
ghost use Rattle.std.specs.Prelude.{◌≡◌, ◌≢◌, ◌≤◌, ◌<◌, ◌+◌, List, [], ◌∷◌, None, length};
ghost use Rattle.std.specs.List.{Any, filter_map};
ghost use Rattle.std.specs.List.Sorted.{IsPermutation};
ghost use Rattle.ov_types.specs.declared.numbers.PortNo.{PortNo};
ghost use Rattle.ov_types.specs.declared.numbers.ServiceNo.{ServiceNo};
ghost use Rattle.ov_types.specs.declared.packet.Outcome.TheVariants.{Delivered};
ghost use Rattle.ov_types.specs.declared.packet.Packet.{Packet};
ghost use Rattle.route_targets.specs.Forwarding.{Forwarder, attached, forwarding};
ghost use Rattle.route_targets.specs.Numbers.{port_label_of};
ghost use Rattle.packet_trace.specs.Lookups.{hops_of, leading, lookups, service_of};
ghost use Rattle.packet_trace.specs.Orders.{HaveDistinctAddresses, HaveTheSameAgents, IsAtNoTwo};
ghost use Rattle.packet_trace.specs.Ports.{HasPort};

/// The services that a delivered packet visits are those that its lookups lead to, in order: each lookup but the last
/// leads to one. No packet has more than 64 lookups.
pub fn each_lookup_but_the_last_leads_to_a_service()
    ensures services { (agents : List Forwarder) (p : Packet) (port : PortNo) (services : List ServiceNo)
        → forwarding agents p ≡ Delivered port services
        → services ≡ filter_map (λ l. service_of (leading agents p.destination.0 l)) (lookups agents p) }
    ensures one_more { (agents : List Forwarder) (p : Packet) (port : PortNo) (services : List ServiceNo)
        → forwarding agents p ≡ Delivered port services → length (hops_of agents p) ≡ length services + 1 }
    ensures at_most { (agents : List Forwarder) (p : Packet) → length (hops_of agents p) ≤ 64 }
    ensures few { (agents : List Forwarder) (p : Packet) (port : PortNo) (services : List ServiceNo)
        → forwarding agents p ≡ Delivered port services → length services < 64 }
{}

/// The port to which a packet is delivered is among the labels of an agent.
pub fn a_packet_is_delivered_to_a_port_of_an_agent()
    ensures { (agents : List Forwarder) (p : Packet) (port : PortNo) (services : List ServiceNo)
        → forwarding agents p ≡ Delivered port services → Any (HasPort port) agents }
{}

/// Where no two agents have one address, and at no two agents the label of the packet's source port leads to a port,
/// what becomes of the packet and its lookups are the same over every list of the same agents: in another order, and
/// also where the other list has an agent more than once.
pub fn the_order_of_agents_does_not_matter()
    ensures outcome { (agents others : List Forwarder) (p : Packet)
        → HaveTheSameAgents agents others → HaveDistinctAddresses agents → IsAtNoTwo p.source agents
        → forwarding agents p ≡ forwarding others p }
    ensures hops { (agents others : List Forwarder) (p : Packet)
        → HaveTheSameAgents agents others → HaveDistinctAddresses agents → IsAtNoTwo p.source agents
        → hops_of agents p ≡ hops_of others p }
    ensures orders { (agents others : List Forwarder)
        → IsPermutation agents others → HaveTheSameAgents agents others }
    ensures met { (f g : Forwarder) (port : PortNo)
        → f.address ≢ g.address → attached g.rows (port_label_of port) ≡ None
        → HaveDistinctAddresses (f ∷ g ∷ []) × IsAtNoTwo port (f ∷ g ∷ []) }
{}
