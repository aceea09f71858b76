//! What lies at the ends of a node's sessions.
ghost use Rattle.std.specs.Prelude.{◌≡◌, ◌<◌, ◌≤◌, ◌+◌, ◌^◌, [], drop, false, length, slice_get, slice_index_or};
ghost use Rattle.std.specs.Prelude.{slice_set, take, None, IfOk, OnErr, OnOk};
ghost use Rattle.std.specs.List.{concat};
ghost use Rattle.ov_link.specs.Breaks.{with_break};
ghost use Rattle.running_nodes.specs.Seats.{index_from, is_name};
ghost use Rattle.running_nodes.specs.Steps.{all_of, untaken};
ghost use Rattle.running_nodes.specs.Changes.{emptied_at, joined_outer, longer_outer, unbroken_outer};
ghost use Rattle.running_nodes.specs.Halves.{IsEven};

use crate::finding::index_of;
use crate::octets;
use bytes::Bytes;
use ov_link::{FailingLink, Links};
use ov_types::{Items, Name, NoMemory};
use std::alloc::Global;
use std::marker::Model;

/// The name of a node and those at the other ends of its sessions, where there is somebody, what left each of its ends and was not taken, the
/// sends that are to fail there, and where a notice of loss waits.
#[derive(Drop)]
pub(crate) struct Edge {
    name: Name,
    others: Vec<Option<Name>>,
    pub(crate) links: Links<FailingLink>,
    notices: Vec<bool>,
    alloc: Global,
}

impl Model for Edge {
    ghost use Rattle.running_nodes.specs.Halves.{IsEven, Outer, accepted_of, breaks_of};
    ghost use Rattle.running_nodes.specs.Codes.{coded_outer};

    ghost Value = { Outer };

    ghost coded = { coded_outer };

    ghost view = { λ e. record {
      name = e.name;
      others = e.others.items;
      links = accepted_of e.links;
      breaks = breaks_of e.links;
      notices = e.notices.items;
    } };

    ghost invariant = { λ e. IsEven (record {
      name = e.name;
      others = e.others.items;
      links = accepted_of e.links;
      breaks = breaks_of e.links;
      notices = e.notices.items;
    }) };
}

impl Edge {
    /// The ends of sessions with these nodes: nothing left them, no send is to fail, and no notice waits.
    pub(crate) fn new(
        alloc: Global,
        name: Name,
        others: Items<Option<Name>>,
    ) -> Result<Edge, NoMemory>
        requires { length others < 2 ^ 16 }
        ensures { IfOk result (λ edge. edge ≡ record {
          name = name;
          others = others;
          links = all_of [] others;
          breaks = all_of [] others;
          notices = all_of false others;
        }) }
    {
        let mut links = Links::new(alloc);
        let mut notices = Vec::new(alloc);
        for _other in others.as_slice() {
            links.push(FailingLink::new(alloc))?;
            notices.push(false)?;
        }
        Ok(Edge {
            name,
            others: others.into_vec(),
            links,
            notices,
            alloc,
        })
    }

    pub(crate) fn name(&self) -> &Name
        ensures { result.now ≡ self.now.name }
    {
        &self.name
    }

    /// How many sessions there are.
    pub(crate) fn sessions(&self) -> u16
        ensures sessions { result ≡ length self.now.others }
        ensures even { IsEven self.now }
    {
        self.links.len()
    }

    /// The name at the other end of a session, where there is somebody.
    pub(crate) fn other(&self, session: u16) -> Option<Name>
        requires { session < length self.now.others }
        ensures { result ≡ slice_index_or self.now.others session None }
    {
        let others = self.others.as_slice();
        others[usize::from(session)]
    }

    /// The first session with the node of this name.
    pub(crate) fn session_with(&self, name: &Name) -> Option<u16>
        ensures { result ≡ index_from 0 (is_name name.now) self.now.others }
    {
        index_of(self.others.as_slice(), name)
    }

    /// Whether a notice waits at the end of a session.
    pub(crate) fn has_notice(&self, session: u16) -> bool
        requires { session < length self.now.others }
        ensures { result ≡ slice_index_or self.now.notices session false }
    {
        self.notices[usize::from(session)]
    }

    /// How many messages left the end of a session and were not taken.
    pub(crate) fn sent(&self, session: u16) -> usize
        requires { session < length self.now.others }
        ensures { result ≡ length (slice_index_or self.now.links session []) }
    {
        self.links.get(session).len()
    }

    pub(crate) fn set_notice(&mut self, session: u16, waits: bool)
        requires { session < length self.old.others }
        ensures { self.new ≡ record self.old { notices = slice_set self.old.notices session waits } }
    {
        self.notices[usize::from(session)] = waits;
    }

    /// Takes out the first message that left the end of a session.
    pub(crate) fn pop(&mut self, session: u16) -> Option<Bytes>
        requires { session < length self.old.others }
        ensures first { result ≡ slice_get (slice_index_or self.old.links session []) 0 }
        ensures rest { self.new ≡ record self.old {
          links = slice_set self.old.links session
              (drop 1 (slice_index_or self.old.links session []));
        } }
    {
        self.links.get_mut(session).pop()
    }

    /// Takes out n octets that left the end of a session, or all where there are fewer, behind those that are passed
    /// over, as they were taken before. A message leaves with its last octet.
    pub(crate) fn take_octets(
        &mut self,
        alloc: Global,
        session: u16,
        skip: usize,
        n: usize,
    ) -> Result<Vec<u8>, NoMemory>
        requires { session < length self.old.others }
        ensures octets { IfOk result (λ octets. octets.items
            ≡ take n (drop skip (concat (slice_index_or self.old.links session [])))) }
        ensures rest { IfOk result (λ _. self.new ≡ record self.old {
          links = slice_set self.old.links session (untaken (skip + n) (slice_index_or self.old.links session []));
        }) }
        ensures name { self.new.name ≡ self.old.name }
        ensures others { self.new.others ≡ self.old.others }
        ensures even { IsEven self.new }
    {
        octets::take_octets(self.links.get_mut(session), alloc, skip, n)
    }

    /// The n-th send from now on fails at the end of a session.
    pub(crate) fn add_break(&mut self, session: u16, n: u32) -> Result<(), NoMemory>
        requires session { session < length self.old.others }
        requires some { 1 ≤ n }
        ensures ok { OnOk result (self.new ≡ record self.old {
          breaks = slice_set self.old.breaks session (with_break n (slice_index_or self.old.breaks session []));
        }) }
        ensures err { OnErr result (self.new ≡ self.old) }
        ensures name { self.new.name ≡ self.old.name }
        ensures others { self.new.others ≡ self.old.others }
        ensures even { IsEven self.new }
    {
        self.links.get_mut(session).add_break(n)
    }

    /// No send is to fail any more at the end of a session.
    fn drop_breaks_at(&mut self, session: u16)
        requires { session < length self.old.others }
        ensures { self.new ≡ record self.old { breaks = slice_set self.old.breaks session [] } }
    {
        self.links.get_mut(session).drop_breaks();
    }

    /// No send is to fail any more.
    pub(crate) fn drop_breaks(&mut self)
        ensures { self.new ≡ unbroken_outer self.old }
    {
        for session in 0..self.sessions() {
            self.drop_breaks_at(session);
        }
    }

    /// Takes out all messages that left the end of a session.
    pub(crate) fn clear(&mut self, session: u16)
        requires { session < length self.old.others }
        ensures { self.new ≡ record self.old { links = slice_set self.old.links session [] } }
    {
        self.links.get_mut(session).clear();
    }

    /// Nothing left the end of a session, no send is to fail there, and no notice waits.
    pub(crate) fn empty(&mut self, session: u16)
        requires { session < length self.old.others }
        ensures { self.new ≡ emptied_at session self.old }
    {
        self.clear(session);
        self.drop_breaks_at(session);
        self.set_notice(session, false);
    }

    /// Who is at the other end of a session.
    pub(crate) fn set_other(&mut self, session: u16, other: Option<Name>)
        requires { session < length self.old.others }
        ensures { self.new ≡ record self.old { others = slice_set self.old.others session other } }
    {
        self.others[usize::from(session)] = other;
    }

    /// One more session, with the node of this name. Where memory is wanting, nothing changes.
    fn add(&mut self, name: Name) -> Result<(), NoMemory>
        requires { length self.old.others < 65535 }
        ensures ok { OnOk result (self.new ≡ longer_outer name self.old) }
        ensures err { OnErr result (self.new ≡ self.old) }
    {
        self.others.reserve(1)?;
        self.notices.reserve(1)?;
        self.links.push(FailingLink::new(self.alloc))?;
        self.others.push_reserved(Some(name));
        self.notices.push_reserved(false);
        Ok(())
    }

    /// A node of this name is at the other end of a session that there is, at which there is nothing then, or of one
    /// more. Where memory is wanting, nothing changes.
    pub(crate) fn join(&mut self, session: u16, name: Name) -> Result<(), NoMemory>
        requires next { session ≤ length self.old.others }
        requires few { session < 65535 }
        ensures ok { OnOk result (self.new ≡ joined_outer name session self.old) }
        ensures err { OnErr result (self.new ≡ self.old) }
    {
        if session < self.sessions() {
            self.empty(session);
            self.set_other(session, Some(name));
            Ok(())
        } else {
            self.add(name)
        }
    }

    /// Takes out all messages and all notices. Which sends are to fail stays.
    pub(crate) fn restart(&mut self)
        ensures { self.new ≡ record self.old {
          links = all_of [] self.old.links;
          notices = all_of false self.old.notices;
        } }
    {
        for session in 0..self.sessions() {
            self.clear(session);
            self.set_notice(session, false);
        }
    }
}
