//! What edits mean, as laws: each is the contract of a function that does nothing.
ghost use Rattle.config_types.specs.declared.edit.Object.TheVariants as Objects;
ghost use Rattle.config_types.specs.declared.edit.ObjectKind.TheVariants as Kinds;
ghost use Rattle.config_check.specs.Edits.{network_name, port_name, policy_name, service_name, chain_name};
ghost use Rattle.config_check.specs.Edits.{node_name};
ghost use Rattle.config_check.specs.EditLaws.{PutIs, DeleteIs, MissingIs, networks_of, ports_of, policies_of};
ghost use Rattle.config_check.specs.EditLaws.{services_of, chains_of, with_networks, with_ports, with_policies};
ghost use Rattle.config_check.specs.EditLaws.{with_services, with_chains, nodes_of, with_nodes};

/// A put takes the place of the object of its kind and name, or is appended where there is none, and each other object
/// stays in its place.
pub fn a_put_replaces_or_appends()
    ensures network { PutIs network_name (λ x. Objects.Network x) networks_of with_networks }
    ensures port { PutIs port_name (λ x. Objects.Port x) ports_of with_ports }
    ensures policy { PutIs policy_name (λ x. Objects.Policy x) policies_of with_policies }
    ensures service { PutIs service_name (λ x. Objects.Service x) services_of with_services }
    ensures chain { PutIs chain_name (λ x. Objects.Chain x) chains_of with_chains }
    ensures node { PutIs node_name (λ x. Objects.Node x) nodes_of with_nodes }
{}

/// A delete of a name that is there leaves all but the object of its kind and name.
pub fn a_delete_removes_one()
    ensures network { DeleteIs network_name Kinds.Network networks_of with_networks }
    ensures port { DeleteIs port_name Kinds.Port ports_of with_ports }
    ensures policy { DeleteIs policy_name Kinds.Policy policies_of with_policies }
    ensures service { DeleteIs service_name Kinds.Service services_of with_services }
    ensures chain { DeleteIs chain_name Kinds.Chain chains_of with_chains }
    ensures node { DeleteIs node_name Kinds.Node nodes_of with_nodes }
{}

/// What a delete names is missing exactly where no object of its kind has the name.
pub fn missing_names_are_of_no_object()
    ensures network { MissingIs network_name Kinds.Network networks_of }
    ensures port { MissingIs port_name Kinds.Port ports_of }
    ensures policy { MissingIs policy_name Kinds.Policy policies_of }
    ensures service { MissingIs service_name Kinds.Service services_of }
    ensures chain { MissingIs chain_name Kinds.Chain chains_of }
    ensures node { MissingIs node_name Kinds.Node nodes_of }
{}
