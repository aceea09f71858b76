//! Nodes, as cases take them.

use case_lines::CaseFault;
use ov_io::TextOut;
use ov_link::{FailingLink, Links};
use std::alloc::Global;

/// A node of some kind, whose sessions have numbers from 0.
pub(crate) trait Node: Drop {
    /// The node that these words say.
    fn made(alloc: Global, words: &str) -> Result<Self, CaseFault>;

    /// How many sessions the node has.
    fn session_count(&self) -> u16;

    /// What comes of it that a session is opened.
    fn open(
        &mut self,
        links: &mut Links<FailingLink>,
        session: u16,
        out: &mut TextOut,
    ) -> Result<(), CaseFault>;

    /// What comes of it that a session is lost.
    fn lose(
        &mut self,
        links: &mut Links<FailingLink>,
        session: u16,
        out: &mut TextOut,
    ) -> Result<(), CaseFault>;

    /// What comes of octets on a session.
    fn hear(
        &mut self,
        links: &mut Links<FailingLink>,
        session: u16,
        octets: &[u8],
        out: &mut TextOut,
    ) -> Result<(), CaseFault>;

    /// How far a session is, and how many octets are kept of it.
    fn tell_session(&self, session: u16, out: &mut TextOut) -> Result<(), CaseFault>;

    /// What comes of a step that is of no session.
    fn make(
        &mut self,
        alloc: Global,
        links: &mut Links<FailingLink>,
        word: &str,
        given: &str,
        out: &mut TextOut,
    ) -> Result<(), CaseFault>;

    /// The way of a packet over all nodes, where they forward packets.
    fn trace(nodes: &mut [Self], given: &str, out: &mut TextOut) -> Result<(), CaseFault>;
}
