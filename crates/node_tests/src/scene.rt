//! The nodes of a case over their links, and its steps.

use crate::cases::is_wanted;
use crate::links;
use crate::nodes::Node;
use crate::octets::{octets, part_of};
use case_lines::{CaseFault, Cases, told};
use ov_io::TextOut;
use ov_link::{FailingLink, Links};
use std::alloc::Global;

/// Nodes of one kind, each with its links. The first is the near one, and the second the far one.
#[derive(Drop)]
pub(crate) struct Scene<N> {
    nodes: Vec<N>,
    links: Vec<Links<FailingLink>>,
}

impl<N: Node> Scene<N> {
    pub(crate) fn new(alloc: Global) -> Scene<N> {
        Scene {
            nodes: Vec::new(alloc),
            links: Vec::new(alloc),
        }
    }

    /// Makes a step: at the far node where `far` stands in front of it, and else at the near one.
    fn make(&mut self, alloc: Global, step: &str, out: &mut TextOut) -> Result<(), CaseFault> {
        let (place, step) = match step.strip_prefix("far ") {
            Some(step) => (1, step),
            None => (0, step),
        };
        let (word, given) = step.split_once(" ").unwrap_or((step, ""));
        match word {
            "node" => self.add(alloc, given, out),
            "trace" => N::trace(&mut self.nodes, given, out),
            _ => self.make_at(alloc, place, word, given, out),
        }
    }

    /// One node more, whose sessions are closed.
    fn add(&mut self, alloc: Global, words: &str, out: &mut TextOut) -> Result<(), CaseFault> {
        let node = N::made(alloc, words)?;
        self.seat(alloc, node)?;
        told(out.push(b"done"))
    }

    fn seat(&mut self, alloc: Global, node: N) -> Result<(), CaseFault> {
        let count = node.session_count();
        self.nodes.push(node)?;
        self.links.push(links::with_count(alloc, count)?)?;
        Ok(())
    }

    fn make_at(
        &mut self,
        alloc: Global,
        place: usize,
        word: &str,
        given: &str,
        out: &mut TextOut,
    ) -> Result<(), CaseFault> {
        match (self.nodes.get_mut(place), self.links.get_mut(place)) {
            (Some(node), Some(links)) => match word.parse::<u16>() {
                Ok(session) => make_on(alloc, node, links, session, given, out),
                Err(_) => node.make(alloc, links, word, given, out),
            },
            _ => Err(CaseFault::Unreadable),
        }
    }
}

/// A line is a step, and behind `=>` what is wanted of it. Where nothing stands there, it is to be done and nothing else.
impl<N: Node> Cases for Scene<N> {
    fn holds(&mut self, alloc: Global, line: &str, came: &mut TextOut) -> Result<bool, CaseFault> {
        let (step, wanted) = line.split_once(" => ").unwrap_or((line, "done"));
        self.make(alloc, step, came)?;
        Ok(is_wanted(wanted, came))
    }
}

/// Makes a step on a session.
fn make_on<N: Node>(
    alloc: Global,
    node: &mut N,
    links: &mut Links<FailingLink>,
    session: u16,
    step: &str,
    out: &mut TextOut,
) -> Result<(), CaseFault> {
    let (word, given) = step.split_once(" ").unwrap_or((step, ""));
    match word {
        "open" => node.open(links, session, out),
        "lose" => node.lose(links, session, out),
        "hear" => hear(alloc, node, links, session, given, out),
        "trickle" => trickle(alloc, node, links, session, given, out),
        "state" => node.tell_session(session, out),
        _ => links::make_on(links, session, word, given, out),
    }
}

/// The session hears octets. Where `first` or `past` and a number stand in front of them, these are some of a whole.
fn hear<N: Node>(
    alloc: Global,
    node: &mut N,
    links: &mut Links<FailingLink>,
    session: u16,
    given: &str,
    out: &mut TextOut,
) -> Result<(), CaseFault> {
    let (part, whole) = given.split_once(" of ").unwrap_or(("", given));
    let octets = octets(alloc, whole)?;
    hear_part(node, links, session, part, octets.as_slice(), out)
}

fn hear_part<N: Node>(
    node: &mut N,
    links: &mut Links<FailingLink>,
    session: u16,
    part: &str,
    whole: &[u8],
    out: &mut TextOut,
) -> Result<(), CaseFault> {
    let heard = part_of(part, whole)?;
    node.hear(links, session, heard, out)
}

/// The session hears octets one by one, until something comes of one of them.
fn trickle<N: Node>(
    alloc: Global,
    node: &mut N,
    links: &mut Links<FailingLink>,
    session: u16,
    given: &str,
    out: &mut TextOut,
) -> Result<(), CaseFault> {
    let octets = octets(alloc, given)?;
    hear_each(node, links, session, octets.as_slice(), out)
}

fn hear_each<N: Node>(
    node: &mut N,
    links: &mut Links<FailingLink>,
    session: u16,
    octets: &[u8],
    out: &mut TextOut,
) -> Result<(), CaseFault> {
    for octet in octets {
        out.clear();
        node.hear(links, session, &[*octet], out)?;
        if out.octets() != b"done".as_slice() {
            return Ok(());
        }
    }
    Ok(())
}
