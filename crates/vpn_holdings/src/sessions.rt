//! What peers and agents told, session by session.
ghost use Rattle.std.specs.Prelude.{◌≡◌, ◌≤◌, ◌<◌, ◌-◌, ◌++◌, ◌∷◌, [], OnOk, OnErr, map, take, length};
ghost use Rattle.std.specs.FinMap.{empty};
ghost use Rattle.ov_sync.specs.Keyed.{changed};
ghost use Rattle.ov_sync.specs.Embed.{moved_delta};
ghost use Rattle.path_select.specs.NodeModel.Keys.{Vpn, of_up};
ghost use Rattle.path_select.specs.NodeModel.Values.{Route, Label as LabelOf};
ghost use Rattle.vpn_holdings.specs.Changes.{changed_at, emptied_at, named, at_session};
ghost use Rattle.vpn_holdings.specs.Views.{peer_of, agent_of};
ghost use Rattle.vpn_holdings.specs.Seats.{nothings, IsSeat};

use crate::holdings::Agent;
use ov_sync::{Delta, SyncIn};
use ov_types::{Addr, Label, NoMemory, UpKey, VpnKey, VpnRoute};
use std::alloc::Global;

/// What a peer told.
pub(crate) type Peer = SyncIn<VpnKey, VpnRoute>;

/// Applies a change at a place. Places up to it that were not there hold nothing else.
pub(crate) fn change_at(
    alloc: Global,
    peers: &mut Vec<Peer>,
    place: usize,
    delta: Delta<VpnKey, VpnRoute>,
) -> Result<(), NoMemory>
    ensures ok { OnOk result (map peer_of peers.new.items
        ≡ changed_at (map peer_of peers.old.items) place (moved_delta Vpn Route delta)) }
    ensures err { OnErr result (map peer_of peers.new.items ≡ map peer_of peers.old.items) }
{
    if place < peers.len() {
        let peer = &mut peers[place];
        peer.apply(delta)?;
        return Ok(());
    }
    let mut peer = SyncIn::new(alloc);
    peer.apply(delta)?;
    let known = peers.len();
    match push_at(alloc, peers, place, peer) {
        Ok(()) => Ok(()),
        Err(e) => {
            peers.truncate(known);
            Err(e)
        }
    }
}

/// Puts a peer at a place past the end, and such as told nothing at those between. Where memory is wanting, some of
/// these may stand there.
fn push_at(alloc: Global, peers: &mut Vec<Peer>, place: usize, peer: Peer) -> Result<(), NoMemory>
    requires { length peers.old.items ≤ place }
    ensures ok { OnOk result (peers.new.items
        ≡ peers.old.items ++ (nothings (place - length peers.old.items) ++ peer ∷ [])) }
    ensures kept { take (length peers.old.items) peers.new.items ≡ peers.old.items }
{
    for between in peers.len()..place {
        peers.push(SyncIn::new(alloc))?;
    }
    peers.push(peer)?;
    Ok(())
}

/// Nothing is held of a peer. It takes no memory.
pub(crate) fn empty_at(peers: &mut Vec<Peer>, place: usize)
    ensures { map peer_of peers.new.items ≡ emptied_at (map peer_of peers.old.items) place }
{
    if place < peers.len() {
        let peer = &mut peers[place];
        peer.reset();
    }
}

/// Where an agent of a session stands, or would.
#[derive(Drop)]
enum Seat {
    Taken(usize),
    Free(usize),
}

fn seat_at(agents: &[Agent], session: u16) -> Seat
    ensures { IsSeat agents.now session result }
{
    for (index, agent) in agents.iter().enumerate() {
        if agent.session == session {
            return Seat::Taken(index);
        }
        if agent.session > session {
            return Seat::Free(index);
        }
    }
    Seat::Free(agents.len())
}

/// Says whose session it is.
pub(crate) fn name_agent(
    alloc: Global,
    agents: &mut Vec<Agent>,
    session: u16,
    address: Addr,
) -> Result<(), NoMemory>
    ensures ok { OnOk result (map agent_of agents.new.items
        ≡ named (map agent_of agents.old.items) session address) }
    ensures err { OnErr result (agents.new.items ≡ agents.old.items) }
{
    match seat_at(agents.as_slice(), session) {
        Seat::Taken(index) => {
            let agent = &mut agents[index];
            agent.address = address;
        }
        Seat::Free(index) => {
            let told = SyncIn::new(alloc);
            let agent = Agent {
                session,
                address,
                told,
            };
            agents.insert(index, agent)?;
        }
    }
    Ok(())
}

/// Applies a change that an agent told.
pub(crate) fn tell_agent(
    agents: &mut Vec<Agent>,
    session: u16,
    delta: Delta<UpKey, Label>,
) -> Result<(), NoMemory>
    ensures ok { OnOk result (map agent_of agents.new.items
        ≡ at_session (λ m. changed m (moved_delta of_up LabelOf delta)) (map agent_of agents.old.items) session) }
    ensures err { OnErr result (map agent_of agents.new.items ≡ map agent_of agents.old.items) }
{
    match seat_at(agents.as_slice(), session) {
        Seat::Taken(index) => {
            let agent = &mut agents[index];
            agent.told.apply(delta)?;
            Ok(())
        }
        Seat::Free(_) => Ok(()),
    }
}

/// Nothing is held of what an agent told. It takes no memory.
pub(crate) fn empty_agent(agents: &mut Vec<Agent>, session: u16)
    ensures { map agent_of agents.new.items
        ≡ at_session (λ m. empty) (map agent_of agents.old.items) session }
{
    match seat_at(agents.as_slice(), session) {
        Seat::Taken(index) => {
            let agent = &mut agents[index];
            agent.told.reset();
        }
        Seat::Free(_) => {}
    }
}
