//! The lines of what is asked of peers and of what they send, each appended whole or not at all.
ghost use Rattle.std.specs.Prelude.{◌≡◌, ◌++◌, Some, OnOk, OnErr};
ghost use Rattle.ov_types.specs.Texts.{target_text};
ghost use Rattle.report.specs.Memberships.{asked_line, bits_text, membership_line, membership_text, sent_line};

use crate::lists::{Listed, joined};
use ov_io::TextOut;
use ov_sync::Delta;
use ov_types::{Name, NoMemory};
use rt_membership::Asked;
use std::alloc::{AllocError, Global};
use std::fmt;

/// The targets that are asked, as they are printed.
#[derive(Clone, Copy)]
struct BitsText(Asked);

impl fmt::Display for BitsText {
    ghost output = { λ a. Some (bits_text a.0) };

    fn fmt<W: fmt::Write>(&self, f: &mut fmt::Formatter<W>) -> fmt::Result {
        let length = self.0.length;
        let target = self.0.target;
        let octets = target.0;
        if length == 96 {
            write!(f, "{target}")
        } else {
            write!(f, "x{octets:016x}/{length}")
        }
    }
}

/// What is asked, as it is printed.
#[derive(Clone, Copy)]
struct MembershipText(Asked);

impl fmt::Display for MembershipText {
    ghost output = { λ a. Some (membership_text a.0) };

    fn fmt<W: fmt::Write>(&self, f: &mut fmt::Formatter<W>) -> fmt::Result {
        if self.0.length == 0 {
            write!(f, "all")
        } else {
            let origin = self.0.origin;
            let bits = BitsText(self.0);
            write!(f, "{origin} {bits}")
        }
    }
}

/// Appends the line of a change of what is asked (RFC 4684, section 4).
#[tactic(auto, unfolding(crate::specs::Memberships::membership_line))]
pub fn membership_lines(
    _alloc: Global,
    change: &Delta<Asked, ()>,
    out: &mut TextOut,
) -> Result<(), NoMemory>
    ensures ok { OnOk result (out.new ≡ out.old ++ membership_line change.now) }
    ensures err { OnErr result (out.new ≡ out.old) }
{
    match change {
        Delta::Put(asked, ()) => {
            let asked = MembershipText(*asked);
            write!(out, "ask {asked}\n")
        }
        Delta::Drop(asked) => {
            let asked = MembershipText(*asked);
            write!(out, "unask {asked}\n")
        }
    }
}

/// In a list, what is asked stands as its target.
impl Listed for Asked {
    ghost item_text = { λ a. target_text a.target.0 };

    fn append_to(&self, text: &mut String) -> Result<(), AllocError> {
        let target = self.target;
        write!(text, "{target}")
    }
}

/// Appends the line of what a control node asks of its peers.
#[tactic(auto, unfolding(crate::specs::Memberships::asked_line))]
pub fn asked_lines(
    alloc: Global,
    node: &Name,
    asked: &[Asked],
    out: &mut TextOut,
) -> Result<(), NoMemory>
    ensures ok { OnOk result (out.new ≡ out.old ++ asked_line node.now asked.now) }
    ensures err { OnErr result (out.new ≡ out.old) }
{
    let asked = joined(alloc, asked)?;
    write!(out, "asked {node} {asked}\n")
}

/// Appends the line of how many of the routes that a control node would tell its peers are sent to one of them.
#[tactic(auto, unfolding(crate::specs::Memberships::sent_line))]
pub fn sent_lines(
    _alloc: Global,
    from: &Name,
    to: &Name,
    sent: usize,
    all: usize,
    out: &mut TextOut,
) -> Result<(), NoMemory>
    ensures ok { OnOk result (out.new ≡ out.old ++ sent_line from.now to.now sent all) }
    ensures err { OnErr result (out.new ≡ out.old) }
{
    write!(out, "sent {from} {to} {sent} of {all}\n")
}
