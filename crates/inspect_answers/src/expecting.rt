//! The answer of `expect`.
ghost use Rattle.std.specs.Prelude.{◌≡◌, ◌≤◌, ◌∷◌, ◌++◌, [], Ok, IfOk, OnErr, IsTrue};
ghost use Rattle.ov_io.specs.Inputs.{TookFront};
ghost use Rattle.ov_io.specs.Pieces.{HasWriteCause, IsOnItsWay};
ghost use Rattle.inspect_answers.specs.Expectations.{expect_at};
ghost use Rattle.config_types.specs.Form.{has_config_form};
ghost use Rattle.compile_answers.specs.Answers.{input_of};
ghost use Rattle.inspect_answers.specs.InForm.{AreExpectedInForm};
ghost use Rattle.inspect_answers.specs.Answers.{IsAnswer, WasGiven, expect_answer, expect_taken, expected_answer};
ghost use Rattle.inspect_answers.specs.Expecting as expecting;
ghost use Rattle.inspect_answers.specs.Expecting.{drop_is_met, expect_in, unmet_count};
ghost use Rattle.inspect_answers.specs.Expecting.{unmet_from, unmet_in};

use crate::expect_lines::{CountsLines, UnmetLines};
use crate::expect_reader::read_expect;
use crate::expectation::{ExpectInput, Expectation, Expected};
use crate::verdict::{Verdict, answer_unfit};
use compile_answers::{Question, Unfit, read_question, valid_of, write_one};
use config_check::Valid;
use inspect_json::Form;
use ov_io::{Sink, TextOut, WriteRefusal, write_gathered};
use ov_types::{Items, Outcome, Why};
use reach_plain::reach;
use serde_json::Value;
use std::alloc::Global;

fn drop_is_met(expected: &Expected, why: Why) -> bool
    ensures { result ≡ drop_is_met expected.now why }
{
    match expected {
        Expected::Dropped => true,
        Expected::NoSourcePort => matches!(why, Why::NoSourcePort),
        Expected::NoDestination => matches!(why, Why::NoDestination),
        Expected::NoRoute => matches!(why, Why::NoRoute),
        Expected::Denied => matches!(why, Why::Denied { .. }),
        Expected::Delivered { .. } => false,
    }
}

/// Whether an outcome is as expected.
fn is_met(expected: &Expected, outcome: &Outcome) -> bool
    ensures { result ≡ expecting.is_met expected.now outcome.now }
{
    match (expected, outcome) {
        (
            Expected::Delivered { port, services },
            Outcome::Delivered {
                port: reached,
                services: passed,
            },
        ) => *port == *reached && services.as_slice() == passed.as_slice(),
        (_, Outcome::Delivered { .. }) => false,
        (_, Outcome::Dropped { why }) => drop_is_met(expected, *why),
    }
}

/// Hands on the line of a packet of this number, where its outcome is otherwise than expected, and says how many lines that
/// are.
#[tactic(auto, using(ov_io::proofs::PieceLemmas::way_stays))]
fn write_unmet<K: Sink>(
    alloc: Global,
    form: Form,
    number: usize,
    valid: &Valid,
    expectation: &Expectation,
    sink: &mut K,
    gathered: &mut TextOut,
) -> Result<usize, WriteRefusal>
    ensures count { IfOk result (λ count. count ≡ unmet_count valid.now.config (expectation.now ∷ [])) }
    ensures one { IfOk result (λ count. count ≤ 1) }
    ensures ok { IfOk result (λ count. IsOnItsWay (K.taken sink.old) (K.taken sink.new) gathered.new []
        (gathered.old ++ unmet_in form valid.now.config number expectation.now)) }
    ensures front { OnErr result (TookFront (K.taken sink.old) (K.taken sink.new)
        (gathered.old ++ unmet_in form valid.now.config number expectation.now)) }
    ensures cause { HasWriteCause (K.faults sink.old) (K.faults sink.new) result }
{
    let expected = &expectation.expected;
    let outcome = reach(valid, expectation.packet);
    if is_met(expected, &outcome) {
        return Ok(0);
    }
    write_one(
        alloc,
        &UnmetLines {
            form,
            config: valid.config(),
            number,
            expected,
        },
        &outcome,
        sink,
        gathered,
    )?;
    Ok(1)
}

/// Hands on the line of each packet whose outcome is otherwise than expected, in order, and counts these.
fn write_each_unmet<K: Sink>(
    alloc: Global,
    form: Form,
    valid: &Valid,
    packets: &[Expectation],
    sink: &mut K,
    gathered: &mut TextOut,
) -> Result<usize, WriteRefusal>
    ensures count { IfOk result (λ count. count ≡ unmet_count valid.now.config packets.now) }
    ensures ok { IfOk result (λ count. IsOnItsWay (K.taken sink.old) (K.taken sink.new) gathered.new []
        (gathered.old ++ unmet_from form valid.now.config 1 packets.now)) }
    ensures front { OnErr result (TookFront (K.taken sink.old) (K.taken sink.new)
        (gathered.old ++ unmet_from form valid.now.config 1 packets.now)) }
    ensures cause { HasWriteCause (K.faults sink.old) (K.faults sink.new) result }
{
    let mut count = 0;
    for (index, expectation) in packets.iter().enumerate() {
        count += write_unmet(alloc, form, index + 1, valid, expectation, sink, gathered)?;
    }
    Ok(count)
}

/// Writes which packets have another outcome than is expected, and says whether one has.
#[tactic(auto, unfolding(crate::specs::Expecting::expect_in))]
fn write_expected<K: Sink>(
    alloc: Global,
    form: Form,
    valid: &Valid,
    packets: &[Expectation],
    sink: &mut K,
) -> Result<Verdict, WriteRefusal>
    ensures given { IfOk result (λ verdict. WasGiven (expected_answer form valid.now.config packets.now) verdict
        (K.taken sink.old) (K.taken sink.new)) }
    ensures front { OnErr result (TookFront (K.taken sink.old) (K.taken sink.new)
        (expect_in form valid.now.config packets.now)) }
    ensures cause { HasWriteCause (K.faults sink.old) (K.faults sink.new) result }
{
    let mut gathered = TextOut::new(alloc);
    let count = write_each_unmet(alloc, form, valid, packets, sink, &mut gathered)?;
    let lines = CountsLines {
        form,
        packets: packets.len(),
    };
    write_one(alloc, &lines, &count, sink, &mut gathered)?;
    write_gathered(sink, &mut gathered)?;
    if count == 0 {
        Ok(Verdict::Good)
    } else {
        Ok(Verdict::Differs)
    }
}

/// Packets of which something is expected, and the valid configuration that decides them.
#[derive(Drop)]
struct AskedExpectations {
    valid: Valid,
    packets: Items<Expectation>,
}

impl Question for AskedExpectations {
    ghost taken = { expect_taken };

    ghost reads = { λ d asked. expect_at [] d
        ≡ Ok (record { input = input_of asked.valid; packets = asked.packets }) };

    ghost form = { λ asked. IsTrue (has_config_form asked.valid.config) };

    #[tactic(auto, using(compile_answers::proofs::Unfitting::fault_unfit, compile_answers::proofs::Unfitting::rule_unfit), unfolding(crate::specs::Answers::expect_taken))]
    fn from_value(alloc: Global, value: &Value) -> Result<Self, Unfit> {
        let ExpectInput { input, packets } = read_expect(alloc, value)?;
        match valid_of(alloc, input) {
            Ok(valid) => Ok(AskedExpectations { valid, packets }),
            Err(unfit) => Err(unfit),
        }
    }
}

/// Writes what `expect` answers to an input.
#[tactic(auto, using(crate::proofs::Unfitting::unfit_judged, crate::proofs::Formed::never_answered), unfolding(crate::specs::Answers::expect_answer))]
pub(crate) fn answer_expect<K: Sink>(
    alloc: Global,
    form: Form,
    octets: &[u8],
    sink: &mut K,
) -> Result<Verdict, WriteRefusal>
    ensures given { IfOk result (λ verdict. WasGiven (expect_answer form octets.now) verdict
        (K.taken sink.old) (K.taken sink.new)) }
    ensures front { OnErr result (TookFront (K.taken sink.old) (K.taken sink.new) (expect_answer form octets.now).text) }
    ensures cause { HasWriteCause (K.faults sink.old) (K.faults sink.new) result }
    ensures in_form { IfOk result (λ verdict. IsAnswer verdict → AreExpectedInForm octets.now) }
{
    match read_question::<AskedExpectations>(alloc, octets) {
        Ok(AskedExpectations { valid, packets }) => {
            write_expected(alloc, form, &valid, packets.as_slice(), sink)
        }
        Err(unfit) => answer_unfit(alloc, unfit, sink),
    }
}
