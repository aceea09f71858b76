//! What is true of every document that is read, in the words of its subject.
ghost use Rattle.config_model.specs.Laws.{ControllerHasJust, NodeHasJust, TopologyHasJust, NetworkHasJust, PortHasJust};
ghost use Rattle.config_model.specs.Laws.{PolicyHasJust, RuleHasJust, ServiceHasJust, ChainHasJust, ConfigHasJust};
ghost use Rattle.config_model.specs.Laws.{PacketHasJust, CompileHasJust, ReachHasJust, FirstIsMissed};
ghost use Rattle.config_model.specs.Laws.{IsRead, compile_form, reach_form};
ghost use Rattle.config_types.specs.Form.{has_controller_form, has_node_form, has_topology_form, has_port_form};
ghost use Rattle.config_types.specs.Form.{has_policy_form, has_rule_form, has_service_form, has_chain_form};
ghost use Rattle.config_types.specs.Form.{has_network_form, has_config_form, has_packet_form};
ghost use Rattle.config_model.specs.Documents.{controller_document, node_document, topology_document, network_document};
ghost use Rattle.config_model.specs.Documents.{port_document, policy_document, rule_document, service_document};
ghost use Rattle.config_model.specs.Documents.{chain_document, config_document, packet_document, compile_document};
ghost use Rattle.config_model.specs.Documents.{reach_document};
ghost use Rattle.std.specs.Prelude.{ℕ, codes, ◌∷◌, [], is_some};
ghost use Rattle.ov_types.specs.Name.{is_name};
ghost use Rattle.ov_types.specs.Written.{address_of, block_of};
ghost use Rattle.config_model.specs.Fields.{name_at, address_at, prefix_at};
ghost use Rattle.config_model.specs.Laws.{is_among, OtherTextIsRange, OtherValueIsKind, OtherActionIsRange};
ghost use Rattle.config_model.specs.Laws.{OtherNumberIsRange, NegativeIsRange, FractionIsKind, NoNumberIsKind};
ghost use Rattle.config_model.specs.Laws.{NoListIsKind, OtherCountIsRange};
ghost use Rattle.config_model.specs.Topology.{controller_at, node_at, topology_at};
ghost use Rattle.config_model.specs.Rule.{rule_at, direction_at, end_at, protocol_at};
ghost use Rattle.config_model.specs.Config.{network_at, port_at, policy_at, service_at, chain_at, config_at};
ghost use Rattle.config_model.specs.Input.{packet_at, compile_at, reach_at};

/// A topology, a controller and a node have each member of their tables, and no other.
pub fn topologies_have_just_their_members()
    ensures topology { TopologyHasJust }
    ensures controller { ControllerHasJust }
    ensures node { NodeHasJust }
{}

/// The objects of a configuration have each member that their tables require, and none that they lack.
pub fn configurations_have_just_their_members()
    ensures config { ConfigHasJust }
    ensures network { NetworkHasJust }
    ensures port { PortHasJust }
    ensures policy { PolicyHasJust }
    ensures rule { RuleHasJust }
    ensures service { ServiceHasJust }
    ensures chain { ChainHasJust }
{}

/// What a command takes, and a packet, has each member of its table, and no other.
pub fn inputs_have_just_their_members()
    ensures packet { PacketHasJust }
    ensures compile { CompileHasJust }
    ensures reach { ReachHasJust }
{}

/// Where the first required member of an object is absent, that is its fault.
pub fn first_members_are_missed()
    ensures topology { FirstIsMissed topology_at (codes "as") }
    ensures controller { FirstIsMissed controller_at (codes "name") }
    ensures node { FirstIsMissed node_at (codes "name") }
    ensures network { FirstIsMissed network_at (codes "name") }
    ensures port { FirstIsMissed port_at (codes "name") }
    ensures policy { FirstIsMissed policy_at (codes "name") }
    ensures rule { FirstIsMissed rule_at (codes "direction") }
    ensures service { FirstIsMissed service_at (codes "name") }
    ensures chain { FirstIsMissed chain_at (codes "name") }
    ensures packet { FirstIsMissed packet_at (codes "port") }
    ensures compile { FirstIsMissed compile_at (codes "topology") }
    ensures reach { FirstIsMissed reach_at (codes "topology") }
{}

/// Each topology, controller and node of the written form has a document, which reads as it.
pub fn topologies_are_read()
    ensures topology { IsRead topology_at has_topology_form topology_document }
    ensures controller { IsRead controller_at has_controller_form controller_document }
    ensures node { IsRead node_at has_node_form node_document }
{}

/// Each configuration of the written form, and each object of one, has a document, which reads as it.
pub fn configurations_are_read()
    ensures config { IsRead config_at has_config_form config_document }
    ensures network { IsRead network_at has_network_form network_document }
    ensures port { IsRead port_at has_port_form port_document }
    ensures policy { IsRead policy_at has_policy_form policy_document }
    ensures rule { IsRead rule_at has_rule_form rule_document }
    ensures service { IsRead service_at has_service_form service_document }
    ensures chain { IsRead chain_at has_chain_form chain_document }
{}

/// What a command takes, and each packet, if of the written form, has a document, which reads as it.
pub fn inputs_are_read()
    ensures packet { IsRead packet_at has_packet_form packet_document }
    ensures compile { IsRead compile_at compile_form compile_document }
    ensures reach { IsRead reach_at reach_form reach_document }
{}

/// A text that is not of its form is out of range where it stands.
pub fn other_texts_are_out_of_range()
    ensures name { OtherTextIsRange name_at is_name }
    ensures end { OtherTextIsRange end_at is_name }
    ensures direction { OtherTextIsRange direction_at (is_among (codes ">" ∷ codes "<>" ∷ [])) }
    ensures protocol { OtherTextIsRange protocol_at (is_among (codes "any" ∷ [])) }
    ensures address { (low high : ℕ) → OtherTextIsRange (address_at low high) (λ text. is_some (address_of text)) }
    ensures prefix { OtherTextIsRange prefix_at (λ text. is_some (block_of text)) }
    ensures action { OtherActionIsRange }
{}

/// What is no text is of another kind where a text is wanted.
pub fn texts_are_of_their_kind()
    ensures name { OtherValueIsKind name_at }
    ensures end { OtherValueIsKind end_at }
    ensures direction { OtherValueIsKind direction_at }
    ensures address { (low high : ℕ) → OtherValueIsKind (address_at low high) }
    ensures prefix { OtherValueIsKind prefix_at }
{}

/// A whole number outside its bounds is out of range, and any other value than a whole number is of another kind.
pub fn numbers_are_whole_and_within_bounds()
    ensures bounds { OtherNumberIsRange }
    ensures negative { NegativeIsRange }
    ensures fraction { FractionIsKind }
    ensures kind { NoNumberIsKind }
{}

/// A list of a number of items that is not allowed is out of range, and what is no list is of another kind. It is said
/// of lists of names: lists of all kinds are read in one way.
pub fn lists_are_of_allowed_lengths()
    ensures kind { NoListIsKind name_at }
    ensures count { OtherCountIsRange name_at }
{}
