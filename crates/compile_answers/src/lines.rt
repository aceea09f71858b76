//! Writing what `compile` writes: each line is made, and handed on where enough is gathered.
ghost use Rattle.std.specs.Prelude.{◌++◌, [], flat_map, OnOk, OnErr};
ghost use Rattle.std.specs.Io.KnownBytes.{Appends};
ghost use Rattle.ov_io.specs.Inputs.{TookFront};
ghost use Rattle.ov_io.specs.Pieces.{HasWriteCause, IsOnItsWay};
ghost use Rattle.compile_answers.specs.Lines.{agents_text, compile_text, controls_text, nodes_text, objects_text};
ghost use Rattle.report.specs.Rows.{agent_lines};
ghost use Rattle.schema_transform.specs.TransformModel.Compiled.{compiled_tables};

use config_check::Valid;
use config_types::Node;
use ov_io::{Sink, TextOut, WriteRefusal, write_gathered, write_piece};
use ov_types::{AgentRows, ControlRows, Name, NodeId};
use report::{
    AgentAclLines, AgentLabelLines, AgentRowLines, ControlRowLines, LinesOf, ObjectLines,
};
use schema_transform::{Compiled, compiled, low};
use std::alloc::Global;

/// Hands on the lines of one thing.
#[tactic(auto, using(ov_io::proofs::PieceLemmas::took_nothing))]
pub fn write_one<K: Sink, T, W: LinesOf<T>>(
    alloc: Global,
    lines: &W,
    item: &T,
    sink: &mut K,
    gathered: &mut TextOut,
) -> Result<(), WriteRefusal>
    ensures ok { OnOk result (IsOnItsWay (K.taken sink.old) (K.taken sink.new) gathered.new []
        (gathered.old ++ W.lines lines.now item.now)) }
    ensures front { OnErr result (TookFront (K.taken sink.old) (K.taken sink.new)
        (gathered.old ++ W.lines lines.now item.now)) }
    ensures cause { HasWriteCause (K.faults sink.old) (K.faults sink.new) result }
{
    lines.append(alloc, item, gathered)?;
    write_piece(sink, gathered)
}

/// Hands on the lines of each thing, in order.
fn write_each<K: Sink, T, W: LinesOf<T>>(
    alloc: Global,
    lines: &W,
    items: &[T],
    sink: &mut K,
    gathered: &mut TextOut,
) -> Result<(), WriteRefusal>
    ensures ok { OnOk result (IsOnItsWay (K.taken sink.old) (K.taken sink.new) gathered.new []
        (gathered.old ++ flat_map (W.lines lines.now) items.now)) }
    ensures front { OnErr result (TookFront (K.taken sink.old) (K.taken sink.new)
        (gathered.old ++ flat_map (W.lines lines.now) items.now)) }
    ensures cause { HasWriteCause (K.faults sink.old) (K.faults sink.new) result }
{
    for item in items {
        write_one(alloc, lines, item, sink, gathered)?;
    }
    Ok(())
}

/// Hands on the lines of each control node, in order.
fn write_controls<K: Sink>(
    alloc: Global,
    controllers: &[NodeId],
    tables: &[ControlRows],
    sink: &mut K,
    gathered: &mut TextOut,
) -> Result<(), WriteRefusal>
    ensures ok { OnOk result (IsOnItsWay (K.taken sink.old) (K.taken sink.new) gathered.new []
        (gathered.old ++ controls_text controllers.now tables.now)) }
    ensures front { OnErr result (TookFront (K.taken sink.old) (K.taken sink.new)
        (gathered.old ++ controls_text controllers.now tables.now)) }
    ensures cause { HasWriteCause (K.faults sink.old) (K.faults sink.new) result }
{
    for (index, controller) in controllers.iter().enumerate() {
        let Some(rows) = tables.get(index) else {
            return Ok(());
        };
        let lines = ControlRowLines {
            node: controller.name,
        };
        write_each(alloc, &lines, rows.as_slice(), sink, gathered)?;
    }
    Ok(())
}

/// Hands on the lines of one agent: its labels, then its access lists, then its routes.
fn write_agent<K: Sink>(
    alloc: Global,
    node: &Name,
    rows: &AgentRows,
    sink: &mut K,
    gathered: &mut TextOut,
) -> Result<(), WriteRefusal>
    ensures ok { OnOk result (IsOnItsWay (K.taken sink.old) (K.taken sink.new) gathered.new []
        (gathered.old ++ agent_lines node.now rows.now)) }
    ensures front { OnErr result (TookFront (K.taken sink.old) (K.taken sink.new)
        (gathered.old ++ agent_lines node.now rows.now)) }
    ensures cause { HasWriteCause (K.faults sink.old) (K.faults sink.new) result }
{
    let labels = rows.labels.as_slice();
    let objects = rows.acls.as_slice();
    let routes = rows.routes.as_slice();
    let node = *node;
    write_each(alloc, &AgentLabelLines { node }, labels, sink, gathered)?;
    write_each(alloc, &AgentAclLines { node }, objects, sink, gathered)?;
    write_each(alloc, &AgentRowLines { node }, routes, sink, gathered)
}

/// Hands on the lines of each agent, in the order of the compute nodes.
fn write_agents<K: Sink>(
    alloc: Global,
    nodes: &[Node],
    tables: &[AgentRows],
    sink: &mut K,
    gathered: &mut TextOut,
) -> Result<(), WriteRefusal>
    ensures ok { OnOk result (IsOnItsWay (K.taken sink.old) (K.taken sink.new) gathered.new []
        (gathered.old ++ agents_text nodes.now tables.now)) }
    ensures front { OnErr result (TookFront (K.taken sink.old) (K.taken sink.new)
        (gathered.old ++ agents_text nodes.now tables.now)) }
    ensures cause { HasWriteCause (K.faults sink.old) (K.faults sink.new) result }
{
    for (index, node) in nodes.iter().enumerate() {
        let Some(rows) = tables.get(index) else {
            return Ok(());
        };
        write_agent(alloc, &node.name, rows, sink, gathered)?;
    }
    Ok(())
}

/// Hands on the lines of the low-level objects of a valid configuration.
#[tactic(auto, using(ov_io::proofs::PieceLemmas::took_nothing))]
fn write_low<K: Sink>(
    alloc: Global,
    valid: &Valid,
    sink: &mut K,
    gathered: &mut TextOut,
) -> Result<(), WriteRefusal>
    ensures ok { OnOk result (IsOnItsWay (K.taken sink.old) (K.taken sink.new) gathered.new []
        (gathered.old ++ objects_text valid.now)) }
    ensures front { OnErr result (TookFront (K.taken sink.old) (K.taken sink.new)
        (gathered.old ++ objects_text valid.now)) }
    ensures cause { HasWriteCause (K.faults sink.old) (K.faults sink.new) result }
{
    let objects = low(alloc, valid)?;
    write_each(alloc, &ObjectLines, objects.as_slice(), sink, gathered)
}

/// Hands on the lines of every node: first of the control nodes, then of the agents.
fn write_nodes<K: Sink>(
    alloc: Global,
    valid: &Valid,
    tables: &Compiled,
    sink: &mut K,
    gathered: &mut TextOut,
) -> Result<(), WriteRefusal>
    ensures ok { OnOk result (IsOnItsWay (K.taken sink.old) (K.taken sink.new) gathered.new []
        (gathered.old ++ nodes_text valid.now tables.now)) }
    ensures front { OnErr result (TookFront (K.taken sink.old) (K.taken sink.new)
        (gathered.old ++ nodes_text valid.now tables.now)) }
    ensures cause { HasWriteCause (K.faults sink.old) (K.faults sink.new) result }
{
    let topology = valid.topology();
    let controllers = topology.controllers.as_slice();
    let nodes = topology.nodes.as_slice();
    let controls = tables.controls.as_slice();
    let agents = tables.agents.as_slice();
    write_controls(alloc, controllers, controls, sink, gathered)?;
    write_agents(alloc, nodes, agents, sink, gathered)
}

/// Hands on the lines of the rows that a valid configuration asks for.
#[tactic(auto, using(ov_io::proofs::PieceLemmas::took_nothing))]
fn write_compiled<K: Sink>(
    alloc: Global,
    valid: &Valid,
    sink: &mut K,
    gathered: &mut TextOut,
) -> Result<(), WriteRefusal>
    ensures ok { OnOk result (IsOnItsWay (K.taken sink.old) (K.taken sink.new) gathered.new []
        (gathered.old ++ nodes_text valid.now (compiled_tables valid.now))) }
    ensures front { OnErr result (TookFront (K.taken sink.old) (K.taken sink.new)
        (gathered.old ++ nodes_text valid.now (compiled_tables valid.now))) }
    ensures cause { HasWriteCause (K.faults sink.old) (K.faults sink.new) result }
{
    let tables = compiled(alloc, valid)?;
    write_nodes(alloc, valid, &tables, sink, gathered)
}

/// Writes what `compile` writes of a valid configuration. The objects are dropped before the rows are made.
#[tactic(auto, unfolding(crate::specs::Lines::compile_text))]
pub(crate) fn write_tables<K: Sink>(
    alloc: Global,
    valid: &Valid,
    sink: &mut K,
) -> Result<(), WriteRefusal>
    ensures ok { OnOk result (Appends (K.taken sink.old) (K.taken sink.new) (compile_text valid.now)) }
    ensures front { OnErr result (TookFront (K.taken sink.old) (K.taken sink.new) (compile_text valid.now)) }
    ensures cause { HasWriteCause (K.faults sink.old) (K.faults sink.new) result }
{
    let mut gathered = TextOut::new(alloc);
    write_low(alloc, valid, sink, &mut gathered)?;
    write_compiled(alloc, valid, sink, &mut gathered)?;
    write_gathered(sink, &mut gathered)
}
