//! What a control node holds of agents that told nothing, or that publish nothing: laws.
ghost use Rattle.std.specs.Prelude.{◌≡◌};
ghost use Rattle.node_model.specs.Paths.{Holdings, Told};
ghost use Rattle.node_model.specs.Tables.{rows};
ghost use Rattle.node_model.specs.Wants.{wanted_by_agent, wanted_by_peers};
ghost use Rattle.node_laws.specs.Quiet.{SameButQuiet, SameButSilent};

/// Agents that told nothing add nothing: a control node that holds them besides wants its peers and each agent to have
/// been told the same as without them, and shows the same rows.
pub fn agents_that_told_nothing_add_nothing()
    ensures peers { (h k : Holdings) → SameButQuiet h k → wanted_by_peers h ≡ wanted_by_peers k }
    ensures agents { (h k : Holdings) → SameButQuiet h k → (a : Told) → wanted_by_agent h a ≡ wanted_by_agent k a }
    ensures rows { (h k : Holdings) → SameButQuiet h k → rows h ≡ rows k }
{}

/// Agents that publish nothing add nothing, whatever they subscribed: a control node that holds them besides wants its
/// peers and each agent to have been told the same as without them.
pub fn agents_that_publish_nothing_add_nothing()
    ensures peers { (h k : Holdings) → SameButSilent h k → wanted_by_peers h ≡ wanted_by_peers k }
    ensures agents { (h k : Holdings) → SameButSilent h k → (a : Told) → wanted_by_agent h a ≡ wanted_by_agent k a }
{}
