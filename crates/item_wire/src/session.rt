//! Sessions of items.
ghost use Rattle.std.specs.Prelude.{◌≡◌};
ghost use Rattle.item_wire.specs.Happenings.{cause_of, event_of, handed_out};

use crate::event::{ItemCause, ItemEvent, ItemFrom, ItemState};
use crate::fault::ItemFault;
use crate::framing::TooLong;
use crate::input::{Came, came_by};
use crate::item::Item;
use crate::table::{Act, act_in, cell_at, state_in};
use ov_types::Name;
use std::marker::Model;

/// Why a session goes down at an input.
fn cause_of(came: &Came) -> ItemCause
    ensures { result ≡ cause_of came.now }
{
    match came {
        Came::BadRecord(cause) => *cause,
        Came::Closed => ItemCause::Ended,
        _ => ItemCause::Order,
    }
}

fn handed_out(came: Came) -> ItemEvent
    ensures { result ≡ handed_out came }
{
    match came {
        Came::OtherRecord(item) => ItemEvent::Record(item),
        _ => ItemEvent::Quiet,
    }
}

fn event_of(act: Act, came: Came) -> ItemEvent
    ensures { result ≡ event_of act came }
{
    match act {
        Act::Nothing => ItemEvent::Quiet,
        Act::SendHello => ItemEvent::SendHello,
        Act::ComeUp => ItemEvent::Up,
        Act::HandOut => handed_out(came),
        Act::GoDown => ItemEvent::Down {
            cause: cause_of(&came),
        },
    }
}

/// One end of a session with a node. None of its calls takes memory.
#[derive(Clone, Copy)]
pub struct ItemSession {
    peer: Name,
    from: ItemFrom,
    state: ItemState,
}

impl Model for ItemSession {
    ghost use Rattle.item_wire.specs.Happenings.{SessionFields};

    ghost Value = { SessionFields };

    ghost view = { λ s. record { peer = s.peer; from = s.from; state = s.state } };

    ghost inverse = { λ s. record { peer = s.peer; from = s.from; state = s.state } };
}

impl ItemSession {
    ghost use Rattle.item_wire.specs.declared.input.Came.TheVariants.{Opened, BadRecord, Closed};
    ghost use Rattle.item_wire.specs.Inputs.{came_by};
    ghost use Rattle.item_wire.specs.Happenings.{after, answer, idle_session};

    /// A session with the node of this name, which may send these records. Its connection is not open yet.
    pub fn new(peer: Name, from: ItemFrom) -> ItemSession
        ensures { result ≡ idle_session peer from }
    {
        ItemSession {
            peer,
            from,
            state: ItemState::Idle,
        }
    }

    pub fn state(&self) -> ItemState
        ensures { result ≡ self.now.state }
    {
        self.state
    }

    /// The connection was opened.
    pub fn opened(&mut self) -> ItemEvent
        ensures state { self.new ≡ after self.old Opened }
        ensures event { result ≡ answer self.old Opened }
    {
        self.take(Came::Opened)
    }

    /// A record came.
    pub fn take_item(&mut self, item: Item) -> ItemEvent
        ensures state { self.new ≡ after self.old (came_by self.old.peer self.old.from item) }
        ensures event { result ≡ answer self.old (came_by self.old.peer self.old.from item) }
    {
        let peer = self.peer;
        let from = self.from;
        self.take(came_by(&peer, from, item))
    }

    /// Octets came that are no record.
    pub fn fault(&mut self, fault: ItemFault) -> ItemEvent
        ensures state { self.new ≡ after self.old (BadRecord (ItemCause.Item fault)) }
        ensures event { result ≡ answer self.old (BadRecord (ItemCause.Item fault)) }
    {
        self.take(Came::BadRecord(ItemCause::Item(fault)))
    }

    /// A record of too many octets came.
    pub fn too_long(&mut self, fault: TooLong) -> ItemEvent
        ensures state { self.new ≡ after self.old (BadRecord (ItemCause.TooLong fault.length)) }
        ensures event { result ≡ answer self.old (BadRecord (ItemCause.TooLong fault.length)) }
    {
        self.take(Came::BadRecord(ItemCause::TooLong {
            length: fault.length,
        }))
    }

    /// The connection was closed.
    pub fn closed(&mut self) -> ItemEvent
        ensures state { self.new ≡ after self.old Closed }
        ensures event { result ≡ answer self.old Closed }
    {
        self.take(Came::Closed)
    }

    fn take(&mut self, came: Came) -> ItemEvent
        ensures state { self.new ≡ after self.old came }
        ensures event { result ≡ answer self.old came }
    {
        let cell = cell_at(self.state, &came);
        self.state = state_in(cell);
        event_of(act_in(cell), came)
    }
}
