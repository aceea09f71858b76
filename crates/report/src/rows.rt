//! The lines of the rows of nodes.
ghost use Rattle.std.specs.Prelude.{◌≡◌, ◌≤◌, ◌+◌, ◌/◌, ◌^◌, ◌++◌, length, Some, OnOk, OnErr};
ghost use Rattle.ov_types.specs.Rows.{table_row_text};
ghost use Rattle.report.specs.Rows.{agent_acl_lines, agent_label_line, agent_lines, agent_row_line, attached_text};
ghost use Rattle.report.specs.Rows.{control_lines, control_row_line, node_lines};

use crate::line::Line;
use crate::lined::{LinesOf, append_each};
use crate::lines::is_named;
use crate::objects::lines_behind;
use ov_io::TextOut;
use ov_types::{
    AgentRows, Attached, ControlRows, Entry, InstanceId, Label, LowKey, LowValue, Name, NoMemory,
    NodeRows, Prefix, TableRow,
};
use std::alloc::Global;
use std::fmt;

/// Puts where a row leads before a line.
#[tactic(auto, unfolding(ov_types::specs::Rows::table_row_text))]
fn prepend_row(line: &mut Line, row: &TableRow)
    requires named { row.now.rd.0 / 2 ^ 48 ≤ 2 }
    requires room { length line.old + 48 ≤ 128 }
    ensures text { line.new ≡ table_row_text row.now ++ line.old }
    ensures short { length line.new ≤ length line.old + 48 }
{
    line.prepend_number(row.label.0);
    line.prepend(b" ");
    line.prepend_address(row.next_hop);
    line.prepend(b" ");
    line.prepend_distinguisher(row.rd);
}

/// The line of a row of a control node, where its distinguisher has a form of its own.
#[tactic(auto, unfolding(crate::specs::Rows::control_row_line))]
fn control_row_line(node: &Name, row: &((InstanceId, Prefix), TableRow)) -> Line
    requires { row.now.1.rd.0 / 2 ^ 48 ≤ 2 }
    ensures { result ≡ control_row_line node.now row.now }
{
    let (instance, prefix) = row.0;
    let mut line = Line::new();
    line.prepend(b"\n");
    prepend_row(&mut line, &row.1);
    line.prepend(b" ");
    line.prepend_prefix(&prefix);
    line.prepend(b" ");
    line.prepend_short_number(instance.0);
    line.prepend(b" table ");
    line.prepend_name(node);
    line.prepend(b"control ");
    line
}

/// The line of a row of an agent.
#[tactic(auto, unfolding(crate::specs::Rows::agent_row_line))]
fn agent_row_line(node: &Name, row: &((InstanceId, Prefix), Entry)) -> Line
    ensures { result ≡ agent_row_line node.now row.now }
{
    let (instance, prefix) = row.0;
    let mut line = Line::new();
    line.prepend(b"\n");
    line.prepend_number(row.1.label.0);
    line.prepend(b" ");
    line.prepend_address(row.1.next_hop);
    line.prepend(b" ");
    line.prepend_prefix(&prefix);
    line.prepend(b" ");
    line.prepend_short_number(instance.0);
    line.prepend(b" table ");
    line.prepend_name(node);
    line.prepend(b"agent ");
    line
}

/// The lines of the rows of a control node.
#[derive(Clone, Copy)]
pub struct ControlRowLines {
    pub node: Name,
}

impl LinesOf<((InstanceId, Prefix), TableRow)> for ControlRowLines {
    ghost lines = { λ w row. control_row_line w.node row };

    #[tactic(auto, unfolding(crate::specs::Rows::control_row_line))]
    fn append(
        &self,
        _alloc: Global,
        row: &((InstanceId, Prefix), TableRow),
        out: &mut TextOut,
    ) -> Result<(), NoMemory> {
        if is_named(row.1.rd) {
            return out.push(control_row_line(&self.node, row).octets());
        }
        let node = self.node;
        let (instance, prefix) = row.0;
        let leads = row.1;
        write!(out, "control {node} table {instance} {prefix} {leads}\n")
    }
}

/// Appends the lines of the rows of a control node, in order.
pub fn control_lines(
    alloc: Global,
    node: &Name,
    rows: &ControlRows,
    out: &mut TextOut,
) -> Result<(), NoMemory>
    ensures ok { OnOk result (out.new ≡ out.old ++ control_lines node.now rows.now) }
    ensures err { OnErr result (out.new ≡ out.old) }
{
    let mut lines = TextOut::new(alloc);
    append_each(
        alloc,
        &ControlRowLines { node: *node },
        rows.as_slice(),
        &mut lines,
    )?;
    out.push(lines.octets())
}

/// What a label leads to, as it is printed.
#[derive(Clone, Copy)]
struct AttachedText(Attached);

impl fmt::Display for AttachedText {
    ghost output = { λ a. Some (attached_text a.0) };

    fn fmt<W: fmt::Write>(&self, f: &mut fmt::Formatter<W>) -> fmt::Result {
        match self.0 {
            Attached::Port { port, instance } => write!(f, "port {port} instance {instance}"),
            Attached::Circuit { circuit, service } => {
                write!(f, "circuit {circuit} service {service}")
            }
        }
    }
}

/// The lines of the labels of an agent.
#[derive(Clone, Copy)]
pub struct AgentLabelLines {
    pub node: Name,
}

impl LinesOf<(Label, Attached)> for AgentLabelLines {
    ghost lines = { λ w attached. agent_label_line w.node attached };

    #[tactic(auto, unfolding(crate::specs::Rows::agent_label_line))]
    fn append(
        &self,
        _alloc: Global,
        attached: &(Label, Attached),
        out: &mut TextOut,
    ) -> Result<(), NoMemory> {
        let node = self.node;
        let label = attached.0;
        let attached = AttachedText(attached.1);
        write!(out, "agent {node} label {label} {attached}\n")
    }
}

/// The lines of the access lists of an agent: those of each object, behind the agent's name.
#[derive(Clone, Copy)]
pub struct AgentAclLines {
    pub node: Name,
}

impl LinesOf<(LowKey, LowValue)> for AgentAclLines {
    ghost lines = { λ w object. agent_acl_lines w.node object };

    #[tactic(auto, unfolding(crate::specs::Rows::agent_acl_lines))]
    fn append(
        &self,
        alloc: Global,
        object: &(LowKey, LowValue),
        out: &mut TextOut,
    ) -> Result<(), NoMemory> {
        let node = self.node;
        let front = format!(in alloc; "agent {node} ")?;
        lines_behind(alloc, front.as_str(), object, out)
    }
}

/// The lines of the rows of an agent.
#[derive(Clone, Copy)]
pub struct AgentRowLines {
    pub node: Name,
}

impl LinesOf<((InstanceId, Prefix), Entry)> for AgentRowLines {
    ghost lines = { λ w row. agent_row_line w.node row };

    fn append(
        &self,
        _alloc: Global,
        row: &((InstanceId, Prefix), Entry),
        out: &mut TextOut,
    ) -> Result<(), NoMemory> {
        out.push(agent_row_line(&self.node, row).octets())
    }
}

/// Appends the lines of an agent: its labels, then its access lists, and then its rows, each in order.
pub fn agent_lines(
    alloc: Global,
    node: &Name,
    rows: &AgentRows,
    out: &mut TextOut,
) -> Result<(), NoMemory>
    ensures ok { OnOk result (out.new ≡ out.old ++ agent_lines node.now rows.now) }
    ensures err { OnErr result (out.new ≡ out.old) }
{
    let node = *node;
    let labels = rows.labels.as_slice();
    let acls = rows.acls.as_slice();
    let routes = rows.routes.as_slice();
    let mut lines = TextOut::new(alloc);
    append_each(alloc, &AgentLabelLines { node }, labels, &mut lines)?;
    append_each(alloc, &AgentAclLines { node }, acls, &mut lines)?;
    append_each(alloc, &AgentRowLines { node }, routes, &mut lines)?;
    out.push(lines.octets())
}

/// Appends the lines of the rows of a node.
pub fn node_lines(
    alloc: Global,
    node: &Name,
    rows: &NodeRows,
    out: &mut TextOut,
) -> Result<(), NoMemory>
    ensures ok { OnOk result (out.new ≡ out.old ++ node_lines node.now rows.now) }
    ensures err { OnErr result (out.new ≡ out.old) }
{
    match rows {
        NodeRows::Control(rows) => control_lines(alloc, node, rows, out),
        NodeRows::Agent(rows) => agent_lines(alloc, node, rows, out),
    }
}
