//! Sessions.
ghost use Rattle.std.specs.Prelude.{◌≡◌};
ghost use Rattle.bgp_session.specs.Inputs.{came_of, fault_of, cause_of};
ghost use Rattle.bgp_session.specs.Happenings.{happening_of, happening, refusal, wide_by, wide_in};

use crate::event::{Cause, Reply, SessionEvent, State};
use crate::input::{Input, input_of};
use crate::table::{Act, act_in, cell_at, state_in};
use bgp_wire::{Message, WireFault};
use ov_types::{NoMemory, NodeId};
use std::alloc::Global;
use std::marker::Model;

/// An input that does not belong to the state (RFC 4271, section 6.6).
const OUT_OF_ORDER: WireFault = WireFault {
    code: 5,
    subcode: 0,
};

impl Input {
    /// The fault that it has.
    fn fault(&self) -> Option<WireFault>
        ensures { result ≡ fault_of (came_of self.now) }
    {
        match self {
            Input::WrongOpen(fault) | Input::WrongUpdate(fault) | Input::BadFrame(fault) => {
                Some(*fault)
            }
            _ => None,
        }
    }

    /// How a session reads after an input: as a right OPEN says, and else as before.
    fn wide_by(&self, before: bool) -> bool
        ensures { result ≡ wide_by (came_of self.now) before }
    {
        match self {
            Input::RightOpen { wide } => *wide,
            _ => before,
        }
    }

    /// Why a session goes down at it, other than for a fault.
    fn cause(&self) -> Option<Cause>
        ensures { result ≡ cause_of (came_of self.now) }
    {
        match self {
            Input::Notification { code, subcode } => Some(Cause::Notified {
                code: *code,
                subcode: *subcode,
            }),
            Input::Closed => Some(Cause::Ended),
            _ => None,
        }
    }
}

/// A session that goes down for a fault sends its code and subcode.
fn refused(fault: WireFault) -> SessionEvent
    ensures { happening_of result ≡ refusal fault }
{
    SessionEvent::Down {
        cause: Cause::Wire(fault),
        reply: Some((fault.code, fault.subcode)),
    }
}

fn handed_out(input: Input) -> SessionEvent
    ensures { happening_of result ≡ happening Act.HandOut (came_of input) }
{
    match input {
        Input::RightUpdate(deltas) => SessionEvent::Deltas(deltas),
        _ => SessionEvent::Quiet,
    }
}

fn answered(input: &Input) -> SessionEvent
    ensures { happening_of result ≡ happening Act.AnswerFault (came_of input.now) }
{
    match input.fault() {
        Some(fault) => refused(fault),
        None => SessionEvent::Quiet,
    }
}

fn ended(input: &Input) -> SessionEvent
    ensures { happening_of result ≡ happening Act.GoDown (came_of input.now) }
{
    match input.cause() {
        Some(cause) => SessionEvent::Down { cause, reply: None },
        None => SessionEvent::Quiet,
    }
}

fn event_of(act: Act, input: Input) -> SessionEvent
    ensures { happening_of result ≡ happening act (came_of input) }
{
    match act {
        Act::Nothing => SessionEvent::Quiet,
        Act::SendOpen => SessionEvent::Send(Reply::Hello),
        Act::SendKeepalive => SessionEvent::Send(Reply::Keepalive),
        Act::ComeUp => SessionEvent::Up,
        Act::HandOut => handed_out(input),
        Act::AnswerFault => answered(&input),
        Act::AnswerOrder => refused(OUT_OF_ORDER),
        Act::GoDown => ended(&input),
    }
}

/// Whether a session reads wide once this input led to this state.
fn wide_in(state: State, input: &Input, before: bool) -> bool
    ensures { result ≡ wide_in state (came_of input.now) before }
{
    match state {
        State::Idle => false,
        _ => input.wide_by(before),
    }
}

/// One end of a session with a peer.
#[derive(Clone, Copy)]
pub struct Session {
    asn: u32,
    peer: NodeId,
    state: State,
    /// Whether the peer's OPEN said that it has numbers of four octets, which are read in its UPDATEs from then on.
    wide: bool,
}

impl Model for Session {
    ghost use Rattle.bgp_session.specs.Happenings.{SessionFields};

    ghost Value = { SessionFields };

    ghost view = { λ s. record { asn = s.asn; peer = s.peer; state = s.state; wide = s.wide } };

    ghost inverse = { λ s. record { asn = s.asn; peer = s.peer; state = s.state; wide = s.wide } };
}

impl Session {
    ghost use Rattle.std.specs.Prelude.{OnErr, IfOk};
    ghost use Rattle.bgp_wire.specs.Messages.{content_of};
    ghost use Rattle.bgp_session.specs.Inputs.{Opened, BadFrame, Closed};
    ghost use Rattle.bgp_session.specs.Happenings.{after, answer, idle_session, Takes};

    /// A session of this autonomous system with this peer, whose connection is not open yet.
    pub fn new(asn: u32, peer: NodeId) -> Session
        ensures { result ≡ idle_session asn peer }
    {
        Session {
            asn,
            peer,
            state: State::Idle,
            wide: false,
        }
    }

    pub fn state(&self) -> State
        ensures { result ≡ self.now.state }
    {
        self.state
    }

    /// The connection was opened.
    pub fn opened(&mut self) -> SessionEvent
        ensures state { self.new ≡ after self.old Opened }
        ensures event { happening_of result ≡ answer self.old Opened }
    {
        self.take(Input::Opened)
    }

    /// A message came.
    pub fn message(
        &mut self,
        alloc: Global,
        message: &Message<'_>,
    ) -> Result<SessionEvent, NoMemory>
        ensures ok { IfOk result (λ event. Takes self.old (content_of message.now) self.new event) }
        ensures no_memory { OnErr result (self.new ≡ self.old) }
    {
        let input = input_of(alloc, self.asn, self.peer.address, self.wide, message)?;
        Ok(self.take(input))
    }

    /// Octets came that are no message.
    pub fn fault(&mut self, fault: WireFault) -> SessionEvent
        ensures state { self.new ≡ after self.old (BadFrame fault) }
        ensures event { happening_of result ≡ answer self.old (BadFrame fault) }
    {
        self.take(Input::BadFrame(fault))
    }

    /// The connection was closed.
    pub fn closed(&mut self) -> SessionEvent
        ensures state { self.new ≡ after self.old Closed }
        ensures event { happening_of result ≡ answer self.old Closed }
    {
        self.take(Input::Closed)
    }

    fn take(&mut self, input: Input) -> SessionEvent
        ensures state { self.new ≡ after self.old (came_of input) }
        ensures event { happening_of result ≡ answer self.old (came_of input) }
    {
        let cell = cell_at(self.state, &input);
        self.state = state_in(cell);
        self.wide = wide_in(self.state, &input, self.wide);
        event_of(act_in(cell), input)
    }
}
