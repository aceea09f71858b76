//! Forwarding over compiled rows is reachability: what the rows of all agents do with a packet is what policies say
//! becomes of it.
ghost use Rattle.std.specs.Prelude.{◌≡◌, ◌≢◌, IsTrue, None};
ghost use Rattle.ov_types.specs.declared.packet.Outcome.TheVariants.{Dropped};
ghost use Rattle.ov_types.specs.declared.packet.Packet.{Packet};
ghost use Rattle.ov_types.specs.declared.packet.Why.TheVariants.{NoLabel, TtlExpired};
ghost use Rattle.route_targets.specs.Forwarding.{forwarding};
ghost use Rattle.reach_plain.specs.ConfigTypes.Form.{has_config_form};
ghost use Rattle.reach_plain.specs.ConfigCheck.Checked.{Checked};
ghost use Rattle.reach_plain.specs.ConfigCheck.Rules.{first_broken};
ghost use Rattle.reach_plain.specs.Reachability.{reachability};
ghost use Rattle.transform_model.specs.Compiled.{compiled_tables, forwarders};

/// Over the compiled rows of a valid configuration of the written form, with the agents in the topology's order, each
/// packet has the outcome that policies alone give. Each label leads on, and no packet is under way for too long.
pub fn forwarding_is_reachability()
    ensures outcome { (x : Checked) → IsTrue (has_config_form x.config) → first_broken x.topology x.config ≡ None
        → (p : Packet)
        → forwarding (forwarders x.topology.nodes (compiled_tables x).agents) p ≡ reachability x.config p }
    ensures labelled { (x : Checked) → IsTrue (has_config_form x.config) → first_broken x.topology x.config ≡ None
        → (p : Packet) → forwarding (forwarders x.topology.nodes (compiled_tables x).agents) p ≢ Dropped NoLabel }
    ensures in_time { (x : Checked) → IsTrue (has_config_form x.config) → first_broken x.topology x.config ≡ None
        → (p : Packet) → forwarding (forwarders x.topology.nodes (compiled_tables x).agents) p ≢ Dropped TtlExpired }
{}
