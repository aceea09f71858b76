//! The lines of low-level objects.
ghost use Rattle.std.specs.Prelude.{◌≡◌, ◌++◌, Some, IfOk, OnOk, OnErr, string_bytes};
ghost use Rattle.ov_types.specs.Texts.{address_text};
ghost use Rattle.report.specs.Objects.{home_text, key_text, lines_behind, low_lines, object_line, object_lines};
ghost use Rattle.report.specs.Objects.{rules_of, said_text, side_text};
ghost use Rattle.route_targets.specs.Numbers.{circuit_address_of};

use crate::entries::append_entries;
use crate::lined::{LinesOf, append_each};
use crate::lists::joined;
use ov_io::TextOut;
use ov_types::{AclRule, Addr, InstanceId, Low, LowKey, LowValue, NoMemory, Prefix};
use std::alloc::{AllocError, Global};
use std::fmt;

/// What names an object, as it is printed.
#[derive(Clone, Copy)]
pub(crate) struct KeyText(pub(crate) LowKey);

impl fmt::Display for KeyText {
    ghost output = { λ k. Some (key_text k.0) };

    fn fmt<W: fmt::Write>(&self, f: &mut fmt::Formatter<W>) -> fmt::Result {
        match self.0 {
            LowKey::Instance(number) => write!(f, "instance {number}"),
            LowKey::Attach(label) => write!(f, "attach {label}"),
            LowKey::Acl { from, to } => write!(f, "acl {from} {to}"),
            LowKey::ChainUse(number) => write!(f, "use {number}"),
        }
    }
}

/// Where something is attached, as it is printed.
#[derive(Clone, Copy)]
struct HomeText {
    instance: u32,
    address: Addr,
    node: Addr,
}

impl HomeText {
    fn new(instance: u32, address: Addr, node: Addr) -> HomeText
        ensures { result ≡ record { instance = instance; address = address; node = node } }
    {
        HomeText {
            instance,
            address,
            node,
        }
    }
}

impl fmt::Display for HomeText {
    ghost output = { λ h. Some (home_text h.instance h.address h.node) };

    fn fmt<W: fmt::Write>(&self, f: &mut fmt::Formatter<W>) -> fmt::Result {
        let instance = self.instance;
        let address = self.address;
        let node = self.node;
        write!(f, "instance {instance} address {address} node {node}")
    }
}

/// The host address of a circuit of any number. Past the last circuit it goes on, and then begins anew.
fn circuit_address(circuit: u32) -> Addr
    ensures { address_text result.0 ≡ address_text (circuit_address_of circuit).0 }
{
    Addr(0xfa00_0000u32.wrapping_add(circuit))
}

/// Appends a line of an object.
#[tactic(auto, unfolding(crate::specs::Objects::object_line))]
fn append_line(front: &str, key: LowKey, said: &str, out: &mut TextOut) -> Result<(), NoMemory>
    ensures { OnOk result (out.new ≡ out.old ++ object_line front.now key said.now) }
{
    let key = KeyText(key);
    write!(out, "{front}{key} {said}\n")
}

/// One side of a chain's use: its network, and the subnets there.
fn side_of(alloc: Global, network: InstanceId, prefixes: &[Prefix]) -> Result<String, AllocError>
    ensures { IfOk result (λ s. string_bytes s ≡ side_text network prefixes.now) }
{
    let prefixes = joined(alloc, prefixes)?;
    format!(in alloc; "{network} {prefixes}")
}

/// What is said of an object in its first line.
#[tactic(auto, unfolding(crate::specs::Objects::said_text))]
fn said_of(alloc: Global, value: &LowValue) -> Result<String, AllocError>
    ensures { IfOk result (λ s. string_bytes s ≡ said_text value.now) }
{
    match value {
        LowValue::Instance { imports } => {
            let imports = joined(alloc, imports.as_slice())?;
            format!(in alloc; "imports {imports}")
        }
        LowValue::AttachPort {
            port,
            instance,
            address,
            node,
        } => {
            let home = HomeText::new(u32::from(instance.0), *address, *node);
            format!(in alloc; "port {port} {home}")
        }
        LowValue::AttachCircuit {
            circuit,
            service,
            node,
        } => {
            let home = HomeText::new(*circuit / 2, circuit_address(*circuit), *node);
            format!(in alloc; "circuit {circuit} service {service} {home}")
        }
        LowValue::Acl { subnets, .. } => {
            let subnets = joined(alloc, subnets.as_slice())?;
            format!(in alloc; "subnets {subnets}")
        }
        LowValue::ChainUse {
            left,
            right,
            left_prefixes,
            right_prefixes,
            hops,
        } => {
            let left = side_of(alloc, *left, left_prefixes.as_slice())?;
            let right = side_of(alloc, *right, right_prefixes.as_slice())?;
            let hops = joined(alloc, hops.as_slice())?;
            format!(in alloc; "left {left} right {right} hops {hops}")
        }
    }
}

/// The entries of an access list.
fn rules_of(value: &LowValue) -> &[AclRule]
    ensures { result.now ≡ rules_of value.now }
{
    match value {
        LowValue::Acl { rules, .. } => rules.as_slice(),
        _ => &[],
    }
}

/// Appends the lines of an object, each behind a front.
pub(crate) fn lines_behind(
    alloc: Global,
    front: &str,
    object: &(LowKey, LowValue),
    out: &mut TextOut,
) -> Result<(), NoMemory>
    ensures ok { OnOk result (out.new ≡ out.old ++ lines_behind front.now object.now) }
    ensures err { OnErr result (out.new ≡ out.old) }
{
    let said = said_of(alloc, &object.1)?;
    let mut lines = TextOut::new(alloc);
    append_line(front, object.0, said.as_str(), &mut lines)?;
    append_entries(alloc, front, object.0, rules_of(&object.1), &mut lines)?;
    out.push(lines.octets())
}

/// The lines of low-level objects: what names each, and what is said of it. An access list has a line of its subnets, and
/// then one for each entry.
#[derive(Clone, Copy)]
pub struct ObjectLines;

impl LinesOf<(LowKey, LowValue)> for ObjectLines {
    ghost lines = { λ _ object. object_lines object };

    fn append(
        &self,
        alloc: Global,
        object: &(LowKey, LowValue),
        out: &mut TextOut,
    ) -> Result<(), NoMemory> {
        lines_behind(alloc, "", object, out)
    }
}

/// Appends the lines of low-level objects, in order.
pub fn low_lines(alloc: Global, low: &Low, out: &mut TextOut) -> Result<(), NoMemory>
    ensures ok { OnOk result (out.new ≡ out.old ++ low_lines low.now) }
    ensures err { OnErr result (out.new ≡ out.old) }
{
    let mut lines = TextOut::new(alloc);
    append_each(alloc, &ObjectLines, low.as_slice(), &mut lines)?;
    out.push(lines.octets())
}
