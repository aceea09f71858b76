//! What comes to a session.
ghost use Rattle.std.specs.Prelude.{◌≡◌, IfOk};
ghost use Rattle.bgp_wire.specs.Faults.{Checks};
ghost use Rattle.bgp_wire.specs.Messages.{content_of};
ghost use Rattle.bgp_wire.specs.Opens.{is_wide};
ghost use Rattle.bgp_vpn.specs.Updates.{parts_of};
ghost use Rattle.bgp_session.specs.Inputs.{came_of, open_refusal, came_by_open, BringsUpdate, Brings};

use bgp_vpn::{UpdateFault, read_update};
use bgp_wire::{Message, OpenPart, UpdatePart, WireFault};
use ov_sync::Delta;
use ov_types::{Addr, NoMemory, VpnKey, VpnRoute};
use std::alloc::Global;

/// What comes to a session, with what it says.
#[derive(Drop)]
pub(crate) enum Input {
    Opened,
    /// Whether its speaker has numbers of four octets.
    RightOpen { wide: bool },
    WrongOpen(WireFault),
    Keepalive,
    RightUpdate(Vec<Delta<VpnKey, VpnRoute>>),
    WrongUpdate(WireFault),
    Notification { code: u8, subcode: u8 },
    BadFrame(WireFault),
    Closed,
}

/// An OPEN of another autonomous system (RFC 4271, section 6.2).
const BAD_PEER_AS: WireFault = WireFault {
    code: 2,
    subcode: 2,
};

/// An OPEN whose identifier is not that of the peer (section 6.2).
const BAD_IDENTIFIER: WireFault = WireFault {
    code: 2,
    subcode: 3,
};

/// Whether an OPEN is of this autonomous system and of the peer.
fn check_open(asn: u32, peer: Addr, hello: &OpenPart<'_>) -> Result<(), WireFault>
    ensures { Checks result (open_refusal asn peer hello.now) }
{
    if hello.asn() != asn {
        return Err(BAD_PEER_AS);
    }
    if hello.id() != peer {
        return Err(BAD_IDENTIFIER);
    }
    Ok(())
}

fn open_input(asn: u32, peer: Addr, hello: &OpenPart<'_>) -> Input
    ensures { came_of result ≡ came_by_open (is_wide hello.now) (open_refusal asn peer hello.now) }
{
    match check_open(asn, peer, hello) {
        Ok(()) => Input::RightOpen { wide: hello.wide() },
        Err(fault) => Input::WrongOpen(fault),
    }
}

/// What an UPDATE is to a session that reads numbers of four octets where it is wide, and of two otherwise.
fn update_input(alloc: Global, update: &UpdatePart<'_>, wide: bool) -> Result<Input, NoMemory>
    ensures { IfOk result (λ input. BringsUpdate wide (parts_of update.now) (came_of input)) }
{
    match read_update(alloc, update, wide) {
        Ok(deltas) => Ok(Input::RightUpdate(deltas)),
        Err(UpdateFault::Wire(fault)) => Ok(Input::WrongUpdate(fault)),
        Err(UpdateFault::NoMemory) => Err(NoMemory),
    }
}

/// What a message is to a session of this autonomous system with this peer, that reads wide or not.
pub(crate) fn input_of(
    alloc: Global,
    asn: u32,
    peer: Addr,
    wide: bool,
    message: &Message<'_>,
) -> Result<Input, NoMemory>
    ensures { IfOk result (λ input. Brings asn peer wide (content_of message.now) (came_of input)) }
{
    match message {
        Message::Hello(hello) => Ok(open_input(asn, peer, hello)),
        Message::Update(update) => update_input(alloc, update, wide),
        Message::Notification { code, subcode } => Ok(Input::Notification {
            code: *code,
            subcode: *subcode,
        }),
        Message::Keepalive => Ok(Input::Keepalive),
    }
}
