//! What is heard on a session between control nodes.
ghost use Rattle.std.specs.Prelude.{◌≡◌, ◌≢◌, ◌<◌, ◌^◌, ◌∷◌, ◌++◌, ◌≤◌, [], List, None, IfOk, OnOk, MatchOption, drop, length};
ghost use Rattle.std.specs.Option.{option_map};
ghost use Rattle.std.specs.List.{AllByRecursion};
ghost use Rattle.bgp_wire.specs.Frames.{IsProperPrefix};
ghost use Rattle.bgp_session.specs.Inputs.{Came};
ghost use Rattle.bgp_session.specs.Happenings.{happening_of};
ghost use Rattle.bgp_session.specs.declared.event.State.TheVariants.{Idle, OpenSent};
ghost use Rattle.bgp_vpn.specs.Written.{IfPut};
ghost use Rattle.node_routes.specs.Hearing.{Hears, heard, open_octets, reply_octets, notification};
ghost use Rattle.node_routes.specs.Keeping.{Leaves};
ghost use Rattle.node_routes.specs.Taking.{TakesNext, IsAdded};

use bgp_session::{Cause, Reply, Session, SessionEvent};
use bgp_wire::{OpenOut, read_message, write_keepalive, write_notification, write_open};
use ov_sync::Delta;
use ov_types::{Addr, Items, NoMemory, VpnKey, VpnRoute};
use std::alloc::Global;

/// What octets brought to a session.
#[derive(Drop)]
pub struct HeardRoutes {
    /// The octets of each message that is to be sent, in order.
    pub replies: Items<Items<u8>>,
    /// The changes of routes that were handed out, in order.
    pub changes: Vec<Delta<VpnKey, VpnRoute>>,
    /// How many octets were taken, from the first on: all of them where the session went down. Those behind them are
    /// part of a message, which is to be heard once more octets came.
    pub taken: usize,
    /// Why the session went down, where it did.
    pub cause: Option<Cause>,
}

/// The OPEN of the speaker of this system at this address.
fn hello(alloc: Global, asn: u32, me: Addr) -> Result<Items<u8>, NoMemory>
    requires identifier { me.0 ≢ 0 }
    ensures { IfOk result (λ octets. octets ≡ open_octets asn me) }
{
    let mut octets = Vec::new(alloc);
    write_open(alloc, &OpenOut { asn, id: me }, &mut octets)?;
    Ok(Items::from_vec(octets))
}

/// The octets of a reply.
fn reply_octets(alloc: Global, asn: u32, me: Addr, reply: Reply) -> Result<Items<u8>, NoMemory>
    requires identifier { me.0 ≢ 0 }
    ensures { IfOk result (λ octets. octets ≡ reply_octets asn me reply) }
{
    match reply {
        Reply::Hello => hello(alloc, asn, me),
        Reply::Keepalive => {
            let mut octets = Vec::new(alloc);
            write_keepalive(alloc, &mut octets)?;
            Ok(Items::from_vec(octets))
        }
    }
}

/// Adds the NOTIFICATION of this code and subcode, where there is one.
fn push_notification(
    alloc: Global,
    reply: Option<(u8, u8)>,
    replies: &mut Items<Items<u8>>,
) -> Result<(), NoMemory>
    ensures { OnOk result (replies.new ≡ replies.old ++ notification (option_map (λ r. (r.0, r.1)) reply)) }
{
    let Some((code, subcode)) = reply else {
        return Ok(());
    };
    let mut octets = Vec::new(alloc);
    write_notification(alloc, code, subcode, &mut octets)?;
    replies.push(Items::from_vec(octets))
}

/// Adds what an event says.
fn add(
    alloc: Global,
    asn: u32,
    me: Addr,
    event: SessionEvent,
    heard: &mut HeardRoutes,
) -> Result<(), NoMemory>
    requires identifier { me.0 ≢ 0 }
    requires up { heard.old.cause ≡ None }
    ensures { OnOk result (IsAdded asn me (happening_of event) heard.old heard.new) }
{
    match event {
        SessionEvent::Quiet | SessionEvent::Up => {}
        SessionEvent::Send(reply) => heard.replies.push(reply_octets(alloc, asn, me, reply)?)?,
        SessionEvent::Deltas(mut deltas) => {
            heard.changes.append(&mut deltas)?;
        }
        SessionEvent::Down { cause, reply } => {
            push_notification(alloc, reply, &mut heard.replies)?;
            heard.cause = Some(cause);
        }
    }
    Ok(())
}

/// Hears what the octets begin with. The octets behind it are left. None where they are a part of a message alone.
fn take_next<'a>(
    alloc: Global,
    session: &mut Session,
    octets: &'a [u8],
) -> Result<Option<(SessionEvent, &'a [u8])>, NoMemory>
    ensures next { IfOk result (λ next. MatchOption next ((session.new ≡ session.old) × IsProperPrefix octets.now)
        (λ x. TakesNext session.old octets.now session.new x.0 x.1.now)) }
    ensures asn { session.new.asn ≡ session.old.asn }
    ensures peer { session.new.peer ≡ session.old.peer }
{
    match read_message(octets) {
        Ok(Some((message, len))) => {
            let event = session.message(alloc, &message)?;
            Ok(Some((event, &octets[len..])))
        }
        Ok(None) => Ok(None),
        Err(fault) => Ok(Some((session.fault(fault), &[]))),
    }
}

/// Opens an end of the speaker of this system at this address: its OPEN is to be sent.
pub fn greet(
    alloc: Global,
    session: &mut Session,
    asn: u32,
    me: Addr,
) -> Result<Items<Items<u8>>, NoMemory>
    requires idle { session.old.state ≡ Idle }
    requires identifier { me.0 ≢ 0 }
    ensures opened { session.new ≡ record session.old { state = OpenSent } }
    ensures hello { IfOk result (λ replies. replies ≡ open_octets asn me ∷ []) }
{
    let _event = session.opened();
    let mut replies = Items::new(alloc);
    replies.push(hello(alloc, asn, me)?)?;
    Ok(replies)
}

/// Hears octets: each message of them in order, up to one that takes the session down, or to octets that are none.
/// Octets at the end that are no whole message are left.
pub fn hear(
    alloc: Global,
    session: &mut Session,
    asn: u32,
    me: Addr,
    bytes: &[u8],
) -> Result<HeardRoutes, NoMemory>
    requires own { session.old.asn ≡ asn }
    requires identifier { me.0 ≢ 0 }
    ensures heard { IfOk result (λ w. (inputs : List Came) × Hears session.old bytes.now inputs
        × (w.replies ≡ (heard me session.old inputs).replies)
        × (w.changes.items ≡ (heard me session.old inputs).changes)
        × (w.cause ≡ (heard me session.old inputs).cause) × (session.new.state ≡ (heard me session.old inputs).state)
        × (session.new.wide ≡ (heard me session.old inputs).wide)) }
    ensures left { IfOk result (λ w. (inputs : List Came) × Leaves session.old bytes.now inputs (drop w.taken bytes.now)
        × (w.replies ≡ (heard me session.old inputs).replies)
        × (w.changes.items ≡ (heard me session.old inputs).changes)
        × (w.cause ≡ (heard me session.old inputs).cause) × (session.new.state ≡ (heard me session.old inputs).state)
        × (session.new.wide ≡ (heard me session.old inputs).wide)) }
    ensures taken { IfOk result (λ w. w.taken ≤ length bytes.now) }
    ensures asn { session.new.asn ≡ session.old.asn }
    ensures peer { session.new.peer ≡ session.old.peer }

    // A label in an UPDATE has 20 bits.
    ensures labels { IfOk result (λ w.
        AllByRecursion (λ d. IfPut d (λ route. route.label.0 < 2 ^ 20)) w.changes.items) }
{
    let mut heard = HeardRoutes {
        replies: Items::new(alloc),
        changes: Vec::new(alloc),
        taken: 0,
        cause: None,
    };
    let mut rest = bytes;
    'messages: while let Some((event, after)) = take_next(alloc, session, rest)? {
        add(alloc, asn, me, event, &mut heard)?;
        if heard.cause.is_some() {
            heard.taken = bytes.len();
            return Ok(heard);
        }
        rest = after;
    }
    heard.taken = bytes.len() - rest.len();
    Ok(heard)
}
