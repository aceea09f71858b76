//! The lines, each appended whole or not at all.
ghost use Rattle.std.specs.Prelude.{◌≡◌, ◌≤◌, ◌+◌, ◌/◌, ◌^◌, ◌++◌, ◌∷◌, [], ℕ, List, length, codes, decimal};
ghost use Rattle.std.specs.Prelude.{IsTrue, Some, OnOk, OnErr};
ghost use Rattle.ov_types.specs.Texts.{address_text};
ghost use Rattle.report.specs.Lines.{drop_line, fault_line, incomplete_line, key_text, notification_line, open_line};
ghost use Rattle.report.specs.Lines.{put_line, route_line};

use crate::line::Line;
use crate::targets::line_end;
use ov_io::TextOut;
use ov_types::{Addr, Label, NoMemory, Rd, VpnKey, VpnRoute};
use std::alloc::Global;
use std::fmt;

/// Appends the line of an OPEN: its autonomous system, its Hold Time in seconds and its identifier (RFC 4271,
/// section 4.2).
#[tactic(auto, unfolding(crate::specs::Lines::open_line))]
pub fn open_lines(
    _alloc: Global,
    asn: u32,
    hold: u16,
    id: Addr,
    out: &mut TextOut,
) -> Result<(), NoMemory>
    ensures ok { OnOk result (out.new ≡ out.old ++ open_line asn hold id) }
    ensures err { OnErr result (out.new ≡ out.old) }
{
    write!(out, "open as {asn} hold {hold} id {id}\n")
}

/// What names a route, as it is printed.
#[derive(Clone, Copy)]
pub(crate) struct KeyText(pub(crate) VpnKey);

impl fmt::Display for KeyText {
    ghost output = { λ k. Some (key_text k.0) };

    fn fmt<W: fmt::Write>(&self, f: &mut fmt::Formatter<W>) -> fmt::Result {
        let rd = self.0.rd;
        let prefix = self.0.prefix;
        write!(f, "{rd} {prefix}")
    }
}

/// Appends the line of a VPN-IPv4 route that is put: what names it, and where it leads (RFC 4364).
#[tactic(auto, unfolding(crate::specs::Lines::put_line))]
pub fn put_lines(
    alloc: Global,
    key: &VpnKey,
    route: &VpnRoute,
    out: &mut TextOut,
) -> Result<(), NoMemory>
    ensures ok { OnOk result (out.new ≡ out.old ++ put_line key.now route.now) }
    ensures err { OnErr result (out.new ≡ out.old) }
{
    let targets = line_end(alloc, &route.targets)?;
    route_line(key, route.next_hop, route.label, targets.as_str(), out)
}

/// Whether a distinguisher is of a type that has a form of its own.
pub(crate) fn is_named(rd: Rd) -> bool
    ensures { IsTrue result → rd.0 / 2 ^ 48 ≤ 2 }
{
    rd.0 >> 48 <= 2
}

/// Puts what names a route before the rest of a line.
fn prepend_key(line: &mut Line, key: &VpnKey)
    requires named { key.now.rd.0 / 2 ^ 48 ≤ 2 }
    requires room { length line.old + 41 ≤ 128 }
    ensures text { line.new ≡ key_text key.now ++ line.old }
    ensures short { length line.new ≤ length line.old + 41 }
{
    line.prepend_prefix(&key.prefix);
    line.prepend(b" ");
    line.prepend_distinguisher(key.rd);
}

/// The line of a VPN-IPv4 route that is put, up to its targets, where its distinguisher has a form of its own.
fn route_front(key: &VpnKey, next_hop: Addr, label: Label) -> Line
    requires { key.now.rd.0 / 2 ^ 48 ≤ 2 }
    ensures { result ≡ codes "put " ++ (key_text key.now ++ (codes " next-hop " ++ (address_text next_hop.0
        ++ (codes " label " ++ (decimal label.0 ++ codes " targets "))))) }
{
    let mut line = Line::new();
    line.prepend(b" targets ");
    line.prepend_number(label.0);
    line.prepend(b" label ");
    line.prepend_address(next_hop);
    line.prepend(b" next-hop ");
    prepend_key(&mut line, key);
    line.prepend(b"put ");
    line
}

/// Appends the line of a VPN-IPv4 route that is put, by the text of its targets and what ends the line.
#[tactic(auto, unfolding(crate::specs::Lines::route_line))]
pub(crate) fn route_line(
    key: &VpnKey,
    next_hop: Addr,
    label: Label,
    targets: &str,
    out: &mut TextOut,
) -> Result<(), NoMemory>
    ensures ok { (text : List ℕ) → targets.now ≡ text ++ 10 ∷ []
        → OnOk result (out.new ≡ out.old ++ route_line key.now next_hop label text) }
    ensures err { OnErr result (out.new ≡ out.old) }
{
    if is_named(key.rd) {
        let line = route_front(key, next_hop, label);
        return out.push_both(line.octets(), targets.as_bytes());
    }
    let key = KeyText(*key);
    write!(
        out,
        "put {key} next-hop {next_hop} label {label} targets {targets}"
    )
}

/// The line of a VPN-IPv4 route that is dropped, where its distinguisher has a form of its own.
#[tactic(auto, unfolding(crate::specs::Lines::drop_line))]
fn drop_line(key: &VpnKey) -> Line
    requires { key.now.rd.0 / 2 ^ 48 ≤ 2 }
    ensures { result ≡ drop_line key.now }
{
    let mut line = Line::new();
    line.prepend(b"\n");
    prepend_key(&mut line, key);
    line.prepend(b"drop ");
    line
}

/// Appends the line of a VPN-IPv4 route that is dropped.
#[tactic(auto, unfolding(crate::specs::Lines::drop_line))]
pub fn drop_lines(_alloc: Global, key: &VpnKey, out: &mut TextOut) -> Result<(), NoMemory>
    ensures ok { OnOk result (out.new ≡ out.old ++ drop_line key.now) }
    ensures err { OnErr result (out.new ≡ out.old) }
{
    if is_named(key.rd) {
        let line = drop_line(key);
        return out.push(line.octets());
    }
    let key = KeyText(*key);
    write!(out, "drop {key}\n")
}

/// Appends the line of a NOTIFICATION: its code and its subcode (RFC 4271, section 4.5).
#[tactic(auto, unfolding(crate::specs::Lines::notification_line))]
pub fn notification_lines(
    _alloc: Global,
    code: u8,
    subcode: u8,
    out: &mut TextOut,
) -> Result<(), NoMemory>
    ensures ok { OnOk result (out.new ≡ out.old ++ notification_line code subcode) }
    ensures err { OnErr result (out.new ≡ out.old) }
{
    write!(out, "notification {code}/{subcode}\n")
}

/// Appends the line of a fault: the code and the subcode of the NOTIFICATION that answers it (RFC 4271, section 6).
#[tactic(auto, unfolding(crate::specs::Lines::fault_line))]
pub fn fault_lines(_alloc: Global, code: u8, subcode: u8, out: &mut TextOut) -> Result<(), NoMemory>
    ensures ok { OnOk result (out.new ≡ out.old ++ fault_line code subcode) }
    ensures err { OnErr result (out.new ≡ out.old) }
{
    write!(out, "fault {code}/{subcode}\n")
}

/// Appends the line of octets that are not yet a whole message: how many they are.
#[tactic(auto, unfolding(crate::specs::Lines::incomplete_line))]
pub fn incomplete_lines(_alloc: Global, octets: usize, out: &mut TextOut) -> Result<(), NoMemory>
    ensures ok { OnOk result (out.new ≡ out.old ++ incomplete_line octets) }
    ensures err { OnErr result (out.new ≡ out.old) }
{
    write!(out, "incomplete {octets}\n")
}
