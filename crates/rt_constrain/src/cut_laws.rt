//! Laws of what a control node needs of its peers: each is the contract of a function that does nothing.
ghost use Rattle.std.specs.Prelude.{◌≡◌, Bool};
ghost use Rattle.ov_types.specs.declared.numbers.InstanceId.{InstanceId};
ghost use Rattle.ov_types.specs.declared.vpn.VpnRoute.{VpnRoute};
ghost use Rattle.node_model.specs.Members.{Member};
ghost use Rattle.node_model.specs.Paths.{Holdings, Told};
ghost use Rattle.node_model.specs.Tables.{table};
ghost use Rattle.node_model.specs.Wants.{wanted_by_agent, wanted_by_peers};
ghost use Rattle.rt_constrain.specs.Needs.{IsNeeded, UsesFit};
ghost use Rattle.rt_constrain.specs.Cut.{PassesWhatIsOfUse, cut_to};

/// Where peers leave out routes that are of no use, as none of their targets is that of an import of a needed instance,
/// nothing changes of what peers and agents are to be told, nor of the tables of needed instances.
pub fn what_is_of_no_use_changes_nothing()
    ensures peers { (h : Holdings) (test : VpnRoute → Bool) → UsesFit h.feed → PassesWhatIsOfUse h test
        → wanted_by_peers (cut_to test h) ≡ wanted_by_peers h }
    ensures agents { (h : Holdings) (test : VpnRoute → Bool) → UsesFit h.feed → PassesWhatIsOfUse h test
        → (a : Told) → Member a h.agents → wanted_by_agent (cut_to test h) a ≡ wanted_by_agent h a }
    ensures tables { (h : Holdings) (test : VpnRoute → Bool) → UsesFit h.feed → PassesWhatIsOfUse h test
        → (i : InstanceId) → IsNeeded h i → table (cut_to test h) i ≡ table h i }
{}
