//! Laws of settling, from every moment of every schedule: each is the contract of a function that does nothing.
ghost use Rattle.std.specs.Prelude.{ℕ, List};
ghost use Rattle.std.specs.List.{AllByRecursion};
ghost use Rattle.ov_types.specs.declared.prefix.Addr.{Addr};
ghost use Rattle.config_types.specs.declared.config.Config.{Config};
ghost use Rattle.machine_model.specs.Setup.{Name};
ghost use Rattle.machine_model.specs.Session.{Message};
ghost use Rattle.machine_model.specs.Network.{start};
ghost use Rattle.machine_model.specs.Steps.{resumed};
ghost use Rattle.machine_model.specs.Events.{MachineEvent, after};
ghost use Rattle.machine_model.specs.Moments.{ArePositive, Each, WhereLaidOut};
ghost use Rattle.machine_laws.specs.Settling.{IsCalmed, SettleSettlesIn, SettlesIn, WhereRanked};
ghost use Rattle.machine_laws.specs.Small.{LeavesNodes, small};

/// Where the topology of each moment is laid out, the configuration is of a kind that edits keep, all that is told is of
/// a kind that wants keep, and all that is wanted is right up to the next rank wherever all that is held is right up to
/// a rank: from a state in which no session is down and no break is pending, as many rounds as the greatest rank end
/// settled, and so do more. Every rank is at least 1, between control nodes at least 3.
pub fn rounds_settle()
    ensures { WhereRanked SettlesIn }
{}

/// Where the topology of each moment is laid out, after the first round of `settle` and its connections no session is
/// down, no notice is pending and no break is left.
pub fn settling_begins_calm()
    ensures { WhereLaidOut (λ size w. Each IsCalmed (resumed w).sessions) }
{}

/// Under the premises of `rounds_settle`, `settle` ends settled, after at most one round more than the greatest rank.
pub fn settle_settles()
    ensures { WhereRanked (λ greatest size w. SettleSettlesIn greatest w) }
{}

/// The premises of `rounds_settle` are met: the network of one control node and one agent settles in four rounds,
/// whatever its configuration is and whatever came before, but for compute nodes that were put or deleted.
pub fn the_least_network_settles()
    ensures rounds { (size : Name → Message → ℕ) → ArePositive size
        → (asn : ℕ) (control compute : Addr) (config : Config) (es : List MachineEvent)
        → AllByRecursion LeavesNodes es → SettlesIn 4 size (after size (start (small asn control compute config)) es) }
    ensures settle { (size : Name → Message → ℕ) → ArePositive size
        → (asn : ℕ) (control compute : Addr) (config : Config) (es : List MachineEvent)
        → AllByRecursion LeavesNodes es → SettleSettlesIn 4 (after size (start (small asn control compute config)) es) }
{}
