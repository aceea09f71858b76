//! What is answered to two documents, one before a change and one after.
ghost use Rattle.std.specs.Prelude.{◌≡◌, ◌++◌, [], ℕ, List, IfOk, OnOk, OnErr};
ghost use Rattle.std.specs.Io.KnownBytes.{Appends};
ghost use Rattle.ov_io.specs.Inputs.{TookFront};
ghost use Rattle.ov_io.specs.Pieces.{HasWriteCause, IsOnItsWay};
ghost use Rattle.compile_answers.specs.Answers.{AreReadAs, DocumentAnswer, IsAnswered, answer_good, input_of};
ghost use Rattle.inspect_answers.specs.Changes.{TookDifferences};
ghost use Rattle.inspect_answers.specs.Differences.{IsOfAfter, IsOfBefore, IsWhich, IsWhichAfter, SaysWhether, WasSaid};
ghost use Rattle.inspect_answers.specs.Differences.{diff_answer, diff_answer_in, to_document};
ghost use Rattle.inspect_changes.specs.DifferenceLines.{diff_text, lists_text};
ghost use Rattle.inspect_changes.specs.Fates.{all_differences};
ghost use Rattle.inspect_changes.specs.Objects.{gone};
ghost use Rattle.inspect_json.specs.ChangeLines.{diff_in, lists_in};
ghost use Rattle.inspect_answers.specs.Runs.{IsAnswered as IsEndOfAnswer};
ghost use Rattle.inspect_answers.specs.TwoRuns.{status_found};

use crate::writing::write_each;
use compile_answers::{Reception, Unfit, read_question, write_unfit};
use config_check::Valid;
use inspect_changes::{Difference, Object, all_differences, gone};
use inspect_json::{CameIn, DifferencesIn, Form, WentIn};
use ov_io::{Sink, TextOut, WriteRefusal, write_gathered};
use ov_types::NoMemory;
use std::alloc::Global;

/// What two documents are found to be.
#[derive(Clone, Copy)]
pub enum Comparison {
    /// Both documents are fit, and there is no line.
    Same,
    Differs,
    UnfitBefore(Reception),
    UnfitAfter(Reception),
}

/// What differs between two configurations: the objects that went and those that came, and then what becomes of packets.
#[derive(Drop)]
struct Found {
    went: Vec<Object>,
    came: Vec<Object>,
    differences: Vec<Difference>,
}

fn find(alloc: Global, before: &Valid, after: &Valid) -> Result<Found, NoMemory>
    ensures went { IfOk result (λ found. found.went.items ≡ gone before.now.config after.now.config) }
    ensures came { IfOk result (λ found. found.came.items ≡ gone after.now.config before.now.config) }
    ensures differences { IfOk result (λ found. found.differences.items
        ≡ all_differences before.now.config after.now.config) }
{
    let went = gone(alloc, before.config(), after.config())?;
    let came = gone(alloc, after.config(), before.config())?;
    let differences = all_differences(alloc, before, after)?;
    Ok(Found {
        went,
        came,
        differences,
    })
}

/// Hands on the lines of what went, of what came, and of differences.
fn write_lists<K: Sink>(
    alloc: Global,
    lines: &DifferencesIn<'_>,
    went: &[Object],
    came: &[Object],
    differences: &[Difference],
    sink: &mut K,
    gathered: &mut TextOut,
) -> Result<(), WriteRefusal>
    ensures ok { OnOk result (IsOnItsWay (K.taken sink.old) (K.taken sink.new) gathered.new []
        (gathered.old ++ lists_in lines.now.form lines.now.before.now lines.now.after.now went.now came.now differences.now)) }
    ensures front { OnErr result (TookFront (K.taken sink.old) (K.taken sink.new)
        (gathered.old ++ lists_in lines.now.form lines.now.before.now lines.now.after.now went.now came.now differences.now)) }
    ensures cause { HasWriteCause (K.faults sink.old) (K.faults sink.new) result }
{
    let went_lines = WentIn {
        form: lines.form,
        config: lines.before,
    };
    let came_lines = CameIn {
        form: lines.form,
        config: lines.after,
    };
    write_each(alloc, &went_lines, went, sink, gathered)?;
    write_each(alloc, &came_lines, came, sink, gathered)?;
    write_each(alloc, lines, differences, sink, gathered)
}

/// Writes what was found.
fn write_found<K: Sink>(
    alloc: Global,
    lines: &DifferencesIn<'_>,
    found: &Found,
    sink: &mut K,
) -> Result<(), WriteRefusal>
    ensures ok { OnOk result (Appends (K.taken sink.old) (K.taken sink.new)
        (lists_in lines.now.form lines.now.before.now lines.now.after.now
        found.now.went.items found.now.came.items found.now.differences.items)) }
    ensures front { OnErr result (TookFront (K.taken sink.old) (K.taken sink.new)
        (lists_in lines.now.form lines.now.before.now lines.now.after.now
        found.now.went.items found.now.came.items found.now.differences.items)) }
    ensures cause { HasWriteCause (K.faults sink.old) (K.faults sink.new) result }
{
    let mut gathered = TextOut::new(alloc);
    write_lists(
        alloc,
        lines,
        &found.went,
        &found.came,
        &found.differences,
        sink,
        &mut gathered,
    )?;
    write_gathered(sink, &mut gathered)
}

#[tactic(auto, using(inspect_changes::proofs::SomeLine::no_went, inspect_changes::proofs::SomeLine::no_came, inspect_changes::proofs::SomeLine::no_difference))]
fn comparison_of(found: &Found) -> Comparison
    ensures { SaysWhether result (lists_text found.now.went.items found.now.came.items found.now.differences.items) }
{
    if !found.went.is_empty() {
        return Comparison::Differs;
    }
    if !found.came.is_empty() {
        return Comparison::Differs;
    }
    if !found.differences.is_empty() {
        return Comparison::Differs;
    }
    Comparison::Same
}

/// Writes what differs between two valid configurations.
#[tactic(auto, unfolding(inspect_changes::specs::DifferenceLines::diff_text, inspect_json::specs::ChangeLines::diff_in), using(ov_io::proofs::PieceLemmas::took_nothing))]
fn write_differences<K: Sink>(
    alloc: Global,
    form: Form,
    before: &Valid,
    after: &Valid,
    sink: &mut K,
) -> Result<Comparison, WriteRefusal>
    ensures ok { OnOk result (Appends (K.taken sink.old) (K.taken sink.new)
        (diff_in form before.now.config after.now.config)) }
    ensures says { IfOk result (λ found. SaysWhether found (diff_text before.now.config after.now.config)) }
    ensures front { OnErr result (TookFront (K.taken sink.old) (K.taken sink.new)
        (diff_in form before.now.config after.now.config)) }
    ensures cause { HasWriteCause (K.faults sink.old) (K.faults sink.new) result }
    ensures promise { (first second : List ℕ) → AreReadAs first (input_of before.now) → AreReadAs second (input_of after.now)
        → IfOk result (λ found. TookDifferences form (status_found found) first second (K.taken sink.old) (K.taken sink.new)) }
{
    let found = find(alloc, before, after)?;
    let lines = DifferencesIn {
        form,
        before: before.config(),
        after: after.config(),
    };
    write_found(alloc, &lines, &found, sink)?;
    Ok(comparison_of(&found))
}

/// Writes the one line of the document before, which is not fit.
fn write_unfit_before<K: Sink>(
    alloc: Global,
    unfit: Unfit,
    sink: &mut K,
) -> Result<Comparison, WriteRefusal>
    ensures given { (answer formed : DocumentAnswer) → IsAnswered unfit answer → IsAnswered unfit formed
        → IfOk result (λ found. WasSaid answer formed found (K.taken sink.old) (K.taken sink.new)) }
    ensures front { (answer : DocumentAnswer) → IsAnswered unfit answer
        → OnErr result (TookFront (K.taken sink.old) (K.taken sink.new) answer.text) }
    ensures cause { HasWriteCause (K.faults sink.old) (K.faults sink.new) result }
    ensures before { IfOk result (λ found. IsOfBefore found) }
    ensures unfit { IfOk result (λ found. ¬ IsEndOfAnswer (status_found found)) }
{
    let reception = write_unfit(alloc, unfit, sink)?;
    Ok(Comparison::UnfitBefore(reception))
}

/// Writes the one line of the document after, which is not fit.
fn write_unfit_after<K: Sink>(
    alloc: Global,
    unfit: Unfit,
    sink: &mut K,
) -> Result<Comparison, WriteRefusal>
    ensures given { (answer formed : DocumentAnswer) → IsAnswered unfit answer → IsAnswered unfit formed
        → IfOk result (λ found. WasSaid answer formed found (K.taken sink.old) (K.taken sink.new)) }
    ensures front { (answer : DocumentAnswer) → IsAnswered unfit answer
        → OnErr result (TookFront (K.taken sink.old) (K.taken sink.new) answer.text) }
    ensures cause { HasWriteCause (K.faults sink.old) (K.faults sink.new) result }
    ensures after { IfOk result (λ found. IsOfAfter found) }
    ensures unfit { IfOk result (λ found. ¬ IsEndOfAnswer (status_found found)) }
{
    let reception = write_unfit(alloc, unfit, sink)?;
    Ok(Comparison::UnfitAfter(reception))
}

/// Writes what is answered to a document that is compared with a valid configuration before.
#[tactic(auto, using(crate::proofs::Unfitting::unfit_document), unfolding(crate::specs::Differences::to_document))]
fn answer_after<K: Sink>(
    alloc: Global,
    form: Form,
    before: &Valid,
    after: &[u8],
    sink: &mut K,
) -> Result<Comparison, WriteRefusal>
    ensures given { IfOk result (λ found. WasSaid
        (to_document (λ d. answer_good (diff_text before.now.config d)) after.now)
        (to_document (λ d. answer_good (diff_in form before.now.config d)) after.now) found
        (K.taken sink.old) (K.taken sink.new)) }
    ensures which { IfOk result (λ found. IsWhichAfter found after.now) }
    ensures front { OnErr result (TookFront (K.taken sink.old) (K.taken sink.new)
        (to_document (λ d. answer_good (diff_in form before.now.config d)) after.now).text) }
    ensures cause { HasWriteCause (K.faults sink.old) (K.faults sink.new) result }
    ensures promise { (first : List ℕ) → AreReadAs first (input_of before.now) → IfOk result (λ found. IsEndOfAnswer (status_found found)
        → TookDifferences form (status_found found) first after.now (K.taken sink.old) (K.taken sink.new)) }
{
    match read_question::<Valid>(alloc, after) {
        Ok(valid) => write_differences(alloc, form, before, &valid, sink),
        Err(unfit) => write_unfit_after(alloc, unfit, sink),
    }
}

/// Writes what `inspect diff` answers to two documents, one before a change and one after: the lines of what differs, or
/// the one line of the first of them that is not fit.
#[tactic(auto, using(crate::proofs::Unfitting::unfit_document), unfolding(crate::specs::Differences::to_document))]
pub(crate) fn answer_diff<K: Sink>(
    alloc: Global,
    form: Form,
    before: &[u8],
    after: &[u8],
    sink: &mut K,
) -> Result<Comparison, WriteRefusal>
    ensures given { IfOk result (λ found. WasSaid (diff_answer before.now after.now) (diff_answer_in form before.now after.now) found
        (K.taken sink.old) (K.taken sink.new)) }
    ensures which { IfOk result (λ found. IsWhich found before.now after.now) }
    ensures front { OnErr result (TookFront (K.taken sink.old) (K.taken sink.new)
        (diff_answer_in form before.now after.now).text) }
    ensures cause { HasWriteCause (K.faults sink.old) (K.faults sink.new) result }
    ensures promise { IfOk result (λ found. IsEndOfAnswer (status_found found)
        → TookDifferences form (status_found found) before.now after.now (K.taken sink.old) (K.taken sink.new)) }
{
    match read_question::<Valid>(alloc, before) {
        Ok(valid) => answer_after(alloc, form, &valid, after, sink),
        Err(unfit) => write_unfit_before(alloc, unfit, sink),
    }
}
