//! Writing what `hitless` writes: each line is made, and handed on where enough is gathered.
ghost use Rattle.std.specs.Prelude.{◌++◌, [], flat_map, IsTrue, OnErr, OnOk};
ghost use Rattle.std.specs.Io.KnownBytes.{Appends};
ghost use Rattle.std.specs.List.{list_all};
ghost use Rattle.ov_io.specs.Inputs.{TookFront};
ghost use Rattle.ov_io.specs.Pieces.{HasWriteCause, IsOnItsWay};
ghost use Rattle.config_types.specs.Form.{has_edit_form};
ghost use Rattle.hitless_answers.specs.Judging.{judgements, standing};
ghost use Rattle.hitless_answers.specs.FormLines.{hitless_in, judgement_in, judgement_json, lines_in, made_json};
ghost use Rattle.hitless_answers.specs.Lines.{judgement_text, made_text};

use crate::json_lines::{PacketJson, RefusedJson, push_count_json};
use crate::judging::{Judge, Judgement};
use crate::lines::{PacketLines, RefusedLines, push_count, push_hitless};
use compile_answers::write_one;
use config_check::Valid;
use config_types::Edit;
use hitless_cells::Interruption;
use inspect_json::Form;
use ov_io::{Sink, TextOut, WriteRefusal, write_gathered};
use report::LinesOf;
use std::alloc::Global;

/// Hands on the lines of each thing, in order.
fn write_each<K: Sink, T, W: LinesOf<T>>(
    alloc: Global,
    lines: &W,
    items: &[T],
    sink: &mut K,
    gathered: &mut TextOut,
) -> Result<(), WriteRefusal>
    ensures ok { OnOk result (IsOnItsWay (K.taken sink.old) (K.taken sink.new) gathered.new []
        (gathered.old ++ flat_map (W.lines lines.now) items.now)) }
    ensures front { OnErr result (TookFront (K.taken sink.old) (K.taken sink.new)
        (gathered.old ++ flat_map (W.lines lines.now) items.now)) }
    ensures cause { HasWriteCause (K.faults sink.old) (K.faults sink.new) result }
{
    for item in items {
        write_one(alloc, lines, item, sink, gathered)?;
    }
    Ok(())
}

/// Hands on the lines of text of an edit that is made.
#[tactic(auto, using(ov_io::proofs::PieceLemmas::took_nothing))]
fn write_made<K: Sink>(
    alloc: Global,
    number: usize,
    packets: &[Interruption],
    sink: &mut K,
    gathered: &mut TextOut,
) -> Result<(), WriteRefusal>
    ensures ok { OnOk result (IsOnItsWay (K.taken sink.old) (K.taken sink.new) gathered.new []
        (gathered.old ++ made_text number packets.now)) }
    ensures front { OnErr result (TookFront (K.taken sink.old) (K.taken sink.new)
        (gathered.old ++ made_text number packets.now)) }
    ensures cause { HasWriteCause (K.faults sink.old) (K.faults sink.new) result }
{
    if packets.is_empty() {
        push_hitless(number, gathered)?;
    } else {
        push_count(number, packets.len(), gathered)?;
    }
    write_each(alloc, &PacketLines { number }, packets, sink, gathered)
}

/// Hands on the lines of text of what is said of an edit.
fn write_judgement_text<K: Sink>(
    alloc: Global,
    number: usize,
    judgement: &Judgement,
    sink: &mut K,
    gathered: &mut TextOut,
) -> Result<(), WriteRefusal>
    ensures ok { OnOk result (IsOnItsWay (K.taken sink.old) (K.taken sink.new) gathered.new []
        (gathered.old ++ judgement_text number judgement.now)) }
    ensures front { OnErr result (TookFront (K.taken sink.old) (K.taken sink.new)
        (gathered.old ++ judgement_text number judgement.now)) }
    ensures cause { HasWriteCause (K.faults sink.old) (K.faults sink.new) result }
{
    match judgement {
        Judgement::Refused(fault) => {
            write_one(alloc, &RefusedLines { number }, fault, sink, gathered)
        }
        Judgement::Made(packets) => {
            write_made(alloc, number, packets.as_slice(), sink, gathered)
        }
    }
}

/// Hands on the lines of JSON of an edit that is made.
#[tactic(auto, using(ov_io::proofs::PieceLemmas::took_nothing))]
fn write_made_json<K: Sink>(
    alloc: Global,
    lines: &PacketJson<'_>,
    packets: &[Interruption],
    sink: &mut K,
    gathered: &mut TextOut,
) -> Result<(), WriteRefusal>
    ensures ok { OnOk result (IsOnItsWay (K.taken sink.old) (K.taken sink.new) gathered.new []
        (gathered.old ++ made_json lines.now.config.now lines.now.number packets.now)) }
    ensures front { OnErr result (TookFront (K.taken sink.old) (K.taken sink.new)
        (gathered.old ++ made_json lines.now.config.now lines.now.number packets.now)) }
    ensures cause { HasWriteCause (K.faults sink.old) (K.faults sink.new) result }
{
    push_count_json(alloc, lines.number, packets.len(), gathered)?;
    write_each(alloc, lines, packets, sink, gathered)
}

/// Hands on the lines of JSON of what is said of an edit.
fn write_judgement_json<K: Sink>(
    alloc: Global,
    lines: &PacketJson<'_>,
    judgement: &Judgement,
    sink: &mut K,
    gathered: &mut TextOut,
) -> Result<(), WriteRefusal>
    ensures ok { OnOk result (IsOnItsWay (K.taken sink.old) (K.taken sink.new) gathered.new []
        (gathered.old ++ judgement_json lines.now.config.now lines.now.number judgement.now)) }
    ensures front { OnErr result (TookFront (K.taken sink.old) (K.taken sink.new)
        (gathered.old ++ judgement_json lines.now.config.now lines.now.number judgement.now)) }
    ensures cause { HasWriteCause (K.faults sink.old) (K.faults sink.new) result }
{
    match judgement {
        Judgement::Refused(fault) => {
            let number = lines.number;
            write_one(alloc, &RefusedJson { number }, fault, sink, gathered)
        }
        Judgement::Made(packets) => {
            write_made_json(alloc, lines, packets.as_slice(), sink, gathered)
        }
    }
}

/// Hands on the lines of what is said of an edit, by its number and the configuration after it, in a form.
fn write_judgement<K: Sink>(
    alloc: Global,
    form: Form,
    lines: &PacketJson<'_>,
    judgement: &Judgement,
    sink: &mut K,
    gathered: &mut TextOut,
) -> Result<(), WriteRefusal>
    ensures ok { OnOk result (IsOnItsWay (K.taken sink.old) (K.taken sink.new) gathered.new []
        (gathered.old ++ judgement_in form lines.now.config.now lines.now.number judgement.now)) }
    ensures front { OnErr result (TookFront (K.taken sink.old) (K.taken sink.new)
        (gathered.old ++ judgement_in form lines.now.config.now lines.now.number judgement.now)) }
    ensures cause { HasWriteCause (K.faults sink.old) (K.faults sink.new) result }
{
    match form {
        Form::Text => write_judgement_text(alloc, lines.number, judgement, sink, gathered),
        Form::Json => write_judgement_json(alloc, lines, judgement, sink, gathered),
    }
}

/// Writes what is said of these edits, the first of them with the number 1.
fn write_edits<K: Sink>(
    alloc: Global,
    form: Form,
    judge: &mut Judge,
    edits: &[Edit],
    sink: &mut K,
) -> Result<(), WriteRefusal>
    requires { IsTrue (list_all has_edit_form edits.now) }
    ensures ok { OnOk result (Appends (K.taken sink.old) (K.taken sink.new)
        (lines_in form 1 edits.now (standing judge.old) (judgements edits.now (standing judge.old)))) }
    ensures front { OnErr result (TookFront (K.taken sink.old) (K.taken sink.new)
        (lines_in form 1 edits.now (standing judge.old) (judgements edits.now (standing judge.old)))) }
    ensures cause { HasWriteCause (K.faults sink.old) (K.faults sink.new) result }
{
    let mut gathered = TextOut::new(alloc);
    for (index, edit) in edits.iter().enumerate() {
        let judgement = judge.judge(alloc, edit)?;
        let lines = PacketJson {
            config: judge.config(),
            number: index + 1,
        };
        write_judgement(alloc, form, &lines, &judgement, sink, &mut gathered)?;
    }
    write_gathered(sink, &mut gathered)
}

/// Writes what `hitless` writes of a valid configuration and of edits.
pub(crate) fn write_hitless<K: Sink>(
    alloc: Global,
    form: Form,
    valid: Valid,
    edits: &[Edit],
    sink: &mut K,
) -> Result<(), WriteRefusal>
    requires { IsTrue (list_all has_edit_form edits.now) }
    ensures ok { OnOk result (Appends (K.taken sink.old) (K.taken sink.new) (hitless_in form valid edits.now)) }
    ensures front { OnErr result (TookFront (K.taken sink.old) (K.taken sink.new) (hitless_in form valid edits.now)) }
    ensures cause { HasWriteCause (K.faults sink.old) (K.faults sink.new) result }
{
    let mut judge = Judge::new(alloc, valid)?;
    write_edits(alloc, form, &mut judge, edits, sink)
}
