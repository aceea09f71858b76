//! The links of a node, and what was sent on them.

use crate::octets::push_message;
use case_lines::{CaseFault, begin, number, told};
use ov_io::TextOut;
use ov_link::{FailingLink, Links};
use ov_types::NoMemory;
use std::alloc::Global;

/// As many links as are counted, on which nothing is to fail.
pub(crate) fn with_count(alloc: Global, count: u16) -> Result<Links<FailingLink>, CaseFault> {
    let mut links = Links::new(alloc);
    match add(alloc, count, &mut links) {
        Ok(()) => Ok(links),
        Err(fault) => Err(fault),
    }
}

fn add(alloc: Global, count: u16, links: &mut Links<FailingLink>) -> Result<(), CaseFault> {
    for _link in 0..count {
        if links.len() == u16::MAX {
            return Err(CaseFault::Unreadable);
        }
        links.push(FailingLink::new(alloc))?;
    }
    Ok(())
}

/// Makes a step on the link of a session.
pub(crate) fn make_on(
    links: &mut Links<FailingLink>,
    session: u16,
    word: &str,
    given: &str,
    out: &mut TextOut,
) -> Result<(), CaseFault> {
    if session >= links.len() {
        return Err(CaseFault::Unreadable);
    }
    let link = links.get_mut(session);
    match word {
        "sent" => told(push_sent(link, out)),
        "forget" => told(forget(link, out)),
        "break" => fail_at(link, number(given)?, out),
        _ => Err(CaseFault::Unreadable),
    }
}

/// Takes out what was sent, and tells it.
fn push_sent(link: &mut FailingLink, out: &mut TextOut) -> Result<(), NoMemory> {
    for _message in 0..link.len() {
        if let Some(message) = link.pop() {
            begin(out)?;
            push_message(message.as_slice(), out)?;
        }
    }
    Ok(())
}

/// Lets what was sent be.
fn forget(link: &mut FailingLink, out: &mut TextOut) -> Result<(), NoMemory> {
    link.clear();
    out.push(b"done")
}

/// Lets the nth send from now on fail.
fn fail_at(link: &mut FailingLink, n: u32, out: &mut TextOut) -> Result<(), CaseFault> {
    if n == 0 {
        return Err(CaseFault::Unreadable);
    }
    link.add_break(n)?;
    told(out.push(b"done"))
}
