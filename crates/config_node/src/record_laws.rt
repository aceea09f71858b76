//! The low-level objects of a valid configuration can be told, and a port changes its own alone: laws.
ghost use Rattle.std.specs.Prelude.{◌≡◌, ◌++◌, IsTrue, List, None, Option};
ghost use Rattle.std.specs.List.{cons_option};
ghost use Rattle.config_types.specs.Form.{has_config_form, has_topology_form};
ghost use Rattle.config_types.specs.declared.config.Port.{Port};
ghost use Rattle.machine_model.specs.ConfigCheck.Checked.{Checked};
ghost use Rattle.machine_model.specs.ConfigCheck.Rules.{first_broken};
ghost use Rattle.node_core.specs.Told.{AllFit};
ghost use Rattle.machine_model.specs.Setup.{low_in};
ghost use Rattle.config_node.specs.Ports.{attachment, with_entry, with_ports, without_entry};

/// Each low-level object of a valid configuration of the written form has a record: all of its members are within their
/// ranges, and it is short enough.
pub fn low_objects_can_be_told()
    ensures { (x : Checked) → IsTrue (has_topology_form x.topology) → IsTrue (has_config_form x.config)
        → first_broken x.topology x.config ≡ None → AllFit (low_in x) }
{}

/// Where a port stands in the place of another, or one comes or goes, its attachment stands in the place of the other's,
/// or comes or goes. Every other low-level object stays.
pub fn a_port_changes_its_attachment_alone()
    ensures { (x : Checked) (front back : List Port) (old new : Option Port)
        → IsTrue (has_config_form (with_ports x (front ++ cons_option old back)).config)
        → first_broken x.topology (with_ports x (front ++ cons_option old back)).config ≡ None
        → IsTrue (has_config_form (with_ports x (front ++ cons_option new back)).config)
        → first_broken x.topology (with_ports x (front ++ cons_option new back)).config ≡ None
        → low_in (with_ports x (front ++ cons_option new back))
        ≡ with_entry (without_entry (low_in (with_ports x (front ++ cons_option old back))) (attachment x old)) (attachment x new) }
{}
