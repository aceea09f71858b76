//! What UPDATEs change of what is asked, and how such a change is written.
ghost use Rattle.std.specs.Prelude.{IfOk};
ghost use Rattle.rt_membership.specs.Asked.{AreAsked};

use crate::messages::push_fault;
use bgp_vpn::UpdateFault;
use bgp_wire::UpdatePart;
use case_lines::{CaseFault, octets, push_digits, told};
use ov_io::TextOut;
use ov_sync::Delta;
use ov_types::{Addr, NoMemory};
use rt_membership::{Asked, read_membership, write_membership};
use std::alloc::Global;

/// The next hop of what is written, 192.0.2.1.
const NEXT_HOP: Addr = Addr(0xc000_0201);

/// What attributes change of what is asked.
pub(crate) fn tell_memberships(
    alloc: Global,
    given: &str,
    out: &mut TextOut,
) -> Result<(), CaseFault> {
    let attributes = octets(alloc, given)?;
    match read(alloc, attributes.as_slice()) {
        Ok(deltas) => told(push_changes(deltas.as_slice(), out)),
        Err(UpdateFault::Wire(fault)) => told(push_fault(fault, out)),
        Err(UpdateFault::NoMemory) => Err(CaseFault::NoMemory),
    }
}

fn read(alloc: Global, attributes: &[u8]) -> Result<Vec<Delta<Asked, ()>>, UpdateFault>
    ensures { IfOk result (λ deltas. AreAsked deltas.items) }
{
    let part = UpdatePart {
        withdrawn: &[],
        attributes,
        routes: &[],
    };
    read_membership(alloc, &part, false)
}

fn push_changes(deltas: &[Delta<Asked, ()>], out: &mut TextOut) -> Result<(), NoMemory> {
    out.push(b"changes")?;
    for delta in deltas {
        push_change(delta, out)?;
    }
    Ok(())
}

fn push_change(delta: &Delta<Asked, ()>, out: &mut TextOut) -> Result<(), NoMemory> {
    match delta {
        Delta::Put(asked, ()) => push_asked(" put", asked, out),
        Delta::Drop(asked) => push_asked(" drop", asked, out),
    }
}

/// The length, who asks, and the eight octets of the target.
fn push_asked(word: &str, asked: &Asked, out: &mut TextOut) -> Result<(), NoMemory> {
    let length = asked.length;
    let origin = asked.origin;
    let target = asked.target.0;
    write!(out, "{word} {length} {origin} {target:016x}")
}

/// The message of the one change that attributes make.
pub(crate) fn tell_written_membership(
    alloc: Global,
    given: &str,
    out: &mut TextOut,
) -> Result<(), CaseFault> {
    let attributes = octets(alloc, given)?;
    match read(alloc, attributes.as_slice()) {
        Ok(deltas) => tell_written(alloc, deltas.as_slice(), out),
        Err(_) => Err(CaseFault::Unreadable),
    }
}

fn tell_written(
    alloc: Global,
    deltas: &[Delta<Asked, ()>],
    out: &mut TextOut,
) -> Result<(), CaseFault>
    requires { AreAsked deltas.now }
{
    match deltas {
        [delta] => {
            let mut message = Vec::new(alloc);
            write_membership(alloc, delta, NEXT_HOP, &mut message)?;
            told(push_digits(message.as_slice(), out))
        }
        _ => Err(CaseFault::Unreadable),
    }
}
