//! Laws of deliveries and of the events `Round` and `Settle`, at every moment of every schedule: each is the contract
//! of a function that does nothing.
ghost use Rattle.std.specs.Prelude.{◌≡◌, ◌⊎◌, ◌≤◌, ◌+◌, ◌-◌, ℕ, true};
ghost use Rattle.machine_model.specs.Setup.{Name, longest};
ghost use Rattle.machine_model.specs.Network.{MachineState};
ghost use Rattle.machine_model.specs.Steps.{in_flight, is_quiet, settle};
ghost use Rattle.machine_model.specs.Events.{Deliver, next};
ghost use Rattle.machine_model.specs.Rounds.{IsOfDeliveries, IsTakenInTurns, is_unbroken, is_whole};
ghost use Rattle.machine_model.specs.Moments.{AtEveryMoment, WhereLaidOut};

/// Where no session is down and no break is pending, a delivery takes as many messages of its direction as it says, or
/// all.
pub fn deliveries_take_what_they_say()
    ensures { AtEveryMoment (λ size w. is_whole w ≡ true → is_unbroken w ≡ true → (from to : Name) (n : ℕ)
        → in_flight (next size w (Deliver from to n)) from to ≡ in_flight w from to - n) }
{}

/// Where the topology of each moment is laid out, a round takes each direction in its turn, in the order of a round: as
/// many messages or notices as were in flight there when the round began, where they are still there.
pub fn rounds_take_turns()
    ensures { WhereLaidOut (λ size w. IsTakenInTurns size w) }
{}

/// Where the topology of each moment is laid out, no session is down and no break is pending, a round is one of
/// deliveries, which take of each direction exactly what was in flight when it began.
pub fn rounds_are_of_deliveries()
    ensures { WhereLaidOut (λ size w. is_whole w ≡ true → is_unbroken w ≡ true → IsOfDeliveries size w) }
{}

/// Settling does at most 6 more rounds than the longest chain in effect has services, and fewer only where nothing is
/// in flight then.
pub fn settling_stops()
    ensures at_most { (w : MachineState) → (settle w).0 ≤ longest w.setup + 6 }
    ensures quiet { (w : MachineState) → (is_quiet (settle w).1 ≡ true) ⊎ ((settle w).0 ≡ longest w.setup + 6) }
{}
