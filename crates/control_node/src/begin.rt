//! What an input makes of the end of its session.
ghost use Rattle.std.specs.Prelude.{◌≡◌, ◌<◌, ◌≤◌, ◌+◌, [], suc, drop, length, false, true, None, IfOk};
ghost use Rattle.std.specs.Option.{option_map};
ghost use Rattle.ov_link.specs.declared.step.Input.TheVariants as input;
ghost use Rattle.node_core.specs.Keeping.{left_in, size_of};
ghost use Rattle.node_core.specs.Whole.{Comes, session_of};
ghost use Rattle.node_core.specs.NodeModel.Step.{post};
ghost use Rattle.control_node.specs.Begun.{IsBegun, IsHeard};
ghost use Rattle.control_node.specs.Wanting.{is_idle};
ghost use Rattle.control_node.specs.declared.cause.NodeCause.TheVariants as Because;

use crate::cause::NodeCause;
use crate::closing::{EndPlace, place_of};
use crate::ends::ControlEnds;
use crate::inputs::{greet_agent, greet_peer, hear_from_agent, hear_from_feed, hear_from_peer};
use bgp_session::Cause;
use item_wire::ItemCause;
use node_core::Started;
use ov_link::Input;
use ov_types::{Items, NoMemory};

type ControlStarted = Started<NodeCause>;

fn item_cause(cause: Option<ItemCause>) -> Option<NodeCause>
    ensures { result ≡ option_map Because.Item cause }
{
    match cause {
        Some(cause) => Some(NodeCause::Item(cause)),
        None => None,
    }
}

fn peer_cause(cause: Option<Cause>) -> Option<NodeCause>
    ensures { result ≡ option_map Because.Peer cause }
{
    match cause {
        Some(cause) => Some(NodeCause::Peer(cause)),
        None => None,
    }
}

impl ControlEnds {
    fn open_feed(&mut self, session: u16) -> Result<Items<Items<u8>>, NoMemory>
        requires session { session ≡ 0 }
        requires idle { is_idle (post self.old.posts session).phase ≡ true }
        ensures plan { self.new.plan ≡ self.old.plan }
        ensures begun { IfOk result (λ replies. IsBegun self.old.plan self.old.posts session (input.Opened session)
            replies None [] self.new.posts) }
    {
        let replies = node_core::greet(self.alloc, &mut self.feed, &self.me.name)?;
        Ok(replies)
    }

    fn open_peer(&mut self, session: u16, place: usize) -> Result<Items<Items<u8>>, NoMemory>
        requires among { place < length self.old.plan.peers }
        requires session { session ≡ suc place }
        requires idle { is_idle (post self.old.posts session).phase ≡ true }
        ensures plan { self.new.plan ≡ self.old.plan }
        ensures begun { IfOk result (λ replies. IsBegun self.old.plan self.old.posts session (input.Opened session)
            replies None [] self.new.posts) }
    {
        let end = &mut self.peers[place];
        let replies = greet_peer(self.alloc, end, self.asn, self.me.address)?;
        Ok(replies)
    }

    fn open_agent(&mut self, session: u16, place: usize) -> Result<Items<Items<u8>>, NoMemory>
        requires among { place < length self.old.plan.agents }
        requires session { session ≡ suc (length self.old.plan.peers + place) }
        requires idle { is_idle (post self.old.posts session).phase ≡ true }
        ensures plan { self.new.plan ≡ self.old.plan }
        ensures begun { IfOk result (λ replies. IsBegun self.old.plan self.old.posts session (input.Opened session)
            replies None [] self.new.posts) }
    {
        self.dirty.add_address(self.tables.address_of(session));
        let end = &mut self.agents[place];
        let replies = greet_agent(self.alloc, end, &self.me.name)?;
        Ok(replies)
    }

    fn open(&mut self, session: u16) -> Result<Items<Items<u8>>, NoMemory>
        requires known { session < length self.old.posts }
        requires idle { is_idle (post self.old.posts session).phase ≡ true }
        ensures plan { self.new.plan ≡ self.old.plan }
        ensures begun { IfOk result (λ replies. IsBegun self.old.plan self.old.posts session (input.Opened session)
            replies None [] self.new.posts) }
    {
        match place_of(session, self.peers.len()) {
            EndPlace::Feed => self.open_feed(session),
            EndPlace::Peer(place) => self.open_peer(session, place),
            EndPlace::Agent(place) => self.open_agent(session, place),
        }
    }

    fn hear_feed(&mut self, session: u16, bytes: &[u8]) -> Result<ControlStarted, NoMemory>
        requires { session ≡ 0 }
        ensures plan { self.new.plan ≡ self.old.plan }
        ensures heard { IfOk result (λ begun. IsHeard self.old.plan self.old.posts session
            (input.Bytes session bytes.entry) begun.replies begun.cause (drop begun.taken bytes.now) self.new.posts) }
        ensures taken { IfOk result (λ begun. begun.taken ≤ length bytes.now) }
    {
        let heard = hear_from_feed(
            self.alloc,
            &mut self.feed,
            &mut self.dirty,
            &mut self.tables,
            bytes,
        )?;
        Ok(Started {
            replies: Items::new(self.alloc),
            taken: heard.taken,
            cause: item_cause(heard.cause),
        })
    }

    fn hear_peer(
        &mut self,
        session: u16,
        place: usize,
        bytes: &[u8],
    ) -> Result<ControlStarted, NoMemory>
        requires among { place < length self.old.plan.peers }
        requires session { session ≡ suc place }
        ensures plan { self.new.plan ≡ self.old.plan }
        ensures heard { IfOk result (λ begun. IsHeard self.old.plan self.old.posts session
            (input.Bytes session bytes.entry) begun.replies begun.cause (drop begun.taken bytes.now) self.new.posts) }
        ensures taken { IfOk result (λ begun. begun.taken ≤ length bytes.now) }
    {
        let end = &mut self.peers[place];
        let me = self.me.address;
        let heard = hear_from_peer(
            self.alloc,
            end,
            &mut self.dirty,
            &mut self.tables,
            session,
            self.asn,
            me,
            bytes,
        )?;
        Ok(Started {
            replies: heard.replies,
            taken: heard.taken,
            cause: peer_cause(heard.cause),
        })
    }

    fn hear_agent(
        &mut self,
        session: u16,
        place: usize,
        bytes: &[u8],
    ) -> Result<ControlStarted, NoMemory>
        requires among { place < length self.old.plan.agents }
        requires session { session ≡ suc (length self.old.plan.peers + place) }
        ensures plan { self.new.plan ≡ self.old.plan }
        ensures heard { IfOk result (λ begun. IsHeard self.old.plan self.old.posts session
            (input.Bytes session bytes.entry) begun.replies begun.cause (drop begun.taken bytes.now) self.new.posts) }
        ensures taken { IfOk result (λ begun. begun.taken ≤ length bytes.now) }
    {
        let end = &mut self.agents[place];
        let heard = hear_from_agent(
            self.alloc,
            end,
            &mut self.dirty,
            &mut self.tables,
            session,
            bytes,
        )?;
        Ok(Started {
            replies: Items::new(self.alloc),
            taken: heard.taken,
            cause: item_cause(heard.cause),
        })
    }

    /// Hears octets. Where there is a cause, the end is still to be closed.
    fn hear_open(&mut self, session: u16, bytes: &[u8]) -> Result<ControlStarted, NoMemory>
        requires { session < length self.old.posts }
        ensures plan { self.new.plan ≡ self.old.plan }
        ensures heard { IfOk result (λ begun. IsHeard self.old.plan self.old.posts session
            (input.Bytes session bytes.entry) begun.replies begun.cause (drop begun.taken bytes.now) self.new.posts) }
        ensures taken { IfOk result (λ begun. begun.taken ≤ length bytes.now) }
    {
        match place_of(session, self.peers.len()) {
            EndPlace::Feed => self.hear_feed(session, bytes),
            EndPlace::Peer(place) => self.hear_peer(session, place, bytes),
            EndPlace::Agent(place) => self.hear_agent(session, place, bytes),
        }
    }

    fn hear(&mut self, session: u16, bytes: &[u8]) -> Result<ControlStarted, NoMemory>
        requires { session < length self.old.posts }
        ensures plan { self.new.plan ≡ self.old.plan }
        ensures begun { IfOk result (λ begun. IsBegun self.old.plan self.old.posts session
            (input.Bytes session bytes.entry) begun.replies begun.cause (drop begun.taken bytes.now) self.new.posts) }
        ensures taken { IfOk result (λ begun. begun.taken ≤ length bytes.now) }
    {
        let begun = self.hear_open(session, bytes)?;
        match begun.cause {
            None => Ok(begun),
            Some(_) => {
                self.close_end(session);
                Ok(begun)
            }
        }
    }

    /// Applies an input to the end of its session, and says what is to be replied. Where octets bring a cause for which
    /// the session goes down, its end is closed. Where memory is wanting, the ends stay those of the plan.
    pub(crate) fn apply(&mut self, input: Input<'_>) -> Result<ControlStarted, NoMemory>
        requires known { session_of input < length self.old.posts }
        requires comes { Comes (λ i. is_idle (post self.old.posts i).phase ≡ false)
            (λ i. is_idle (post self.old.posts i).phase ≡ true) input }
        ensures plan { self.new.plan ≡ self.old.plan }
        ensures begun { IfOk result (λ begun. IsBegun self.old.plan self.old.posts (session_of input.entry) input.entry
            begun.replies begun.cause (left_in input.entry begun.taken) self.new.posts) }
        ensures taken { IfOk result (λ begun. begun.taken ≤ size_of input.entry) }
    {
        match input {
            Input::Opened { session } => {
                let replies = self.open(session)?;
                Ok(Started {
                    replies,
                    taken: 0,
                    cause: None,
                })
            }
            Input::Bytes { session, bytes } => self.hear(session, bytes),
            Input::Closed { session } => {
                self.close_end(session);
                Ok(Started {
                    replies: Items::new(self.alloc),
                    taken: 0,
                    cause: None,
                })
            }
        }
    }
}
