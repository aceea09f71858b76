//! Laws of settled networks: each is the contract of a function that does nothing.
ghost use Rattle.std.specs.Prelude.{◌≡◌, true};
ghost use Rattle.machine_laws.specs.MachineModel.Network.{MachineState};
ghost use Rattle.machine_laws.specs.MachineModel.Steps.{is_settled};
ghost use Rattle.running_laws.specs.Moments.{IsMoment};
ghost use Rattle.running_laws.specs.Peering.{AllHearTheirPeers};

/// At a settled moment a control node holds of each peer exactly what that peer is to tell its peers: its own routes and
/// those that it re-originates.
pub fn control_nodes_hold_what_their_peers_tell()
    ensures { (w : MachineState) → IsMoment w → is_settled w ≡ true → AllHearTheirPeers w }
{}
