//! The lines of packets whose outcome is otherwise than is expected.
ghost use Rattle.std.specs.Prelude.{◌≡◌, ◌++◌, Some, IfOk, OnOk, OnErr, string_bytes};
ghost use Rattle.inspect_changes.specs.Report.Outcomes.{why_text};
ghost use Rattle.inspect_answers.specs.ExpectValues.{counts_value, unmet_value};
ghost use Rattle.inspect_answers.specs.Expecting.{counts_in, counts_line, delivered_text, expected_text, outcome_text};
ghost use Rattle.inspect_answers.specs.Expecting.{unmet_line, unmet_line_in};
ghost use Rattle.inspect_json.specs.Form.{json_line};

use crate::expect_values::{counts_value, unmet_value};
use crate::expectation::Expected;
use config_types::Config;
use inspect_changes::{LinesOf, joined};
use inspect_json::{Form, append_line};
use ov_io::TextOut;
use ov_types::{NoMemory, Outcome, PortNo, ServiceNo, Why};
use std::alloc::{AllocError, Global};
use std::fmt;

/// Why a packet is dropped, as it is printed.
#[derive(Clone, Copy)]
struct WhyText(Why);

impl fmt::Display for WhyText {
    ghost output = { λ w. Some (why_text w.0) };

    fn fmt<W: fmt::Write>(&self, f: &mut fmt::Formatter<W>) -> fmt::Result {
        match self.0 {
            Why::NoSourcePort => write!(f, "no-source-port"),
            Why::NoDestination => write!(f, "no-destination"),
            Why::NoRoute => write!(f, "no-route"),
            Why::Denied { rule: None } => write!(f, "denied -"),
            Why::Denied { rule: Some(rule) } => write!(f, "denied {rule}"),
            Why::NoLabel => write!(f, "no-label"),
            Why::TtlExpired => write!(f, "ttl-expired"),
        }
    }
}

fn delivered_text(alloc: Global, port: PortNo, services: &[ServiceNo]) -> Result<String, AllocError>
    ensures { IfOk result (λ s. string_bytes s ≡ delivered_text port services.now) }
{
    let services = joined(alloc, services)?;
    format!(in alloc; "delivered port {port} services {services}")
}

/// What is expected of a packet, in the words of outcomes.
fn expected_text(alloc: Global, expected: &Expected) -> Result<String, AllocError>
    ensures { IfOk result (λ s. string_bytes s ≡ expected_text expected.now) }
{
    match expected {
        Expected::Dropped => String::from_str(alloc, "dropped"),
        Expected::NoSourcePort => String::from_str(alloc, "dropped no-source-port"),
        Expected::NoDestination => String::from_str(alloc, "dropped no-destination"),
        Expected::NoRoute => String::from_str(alloc, "dropped no-route"),
        Expected::Denied => String::from_str(alloc, "dropped denied"),
        Expected::Delivered { port, services } => {
            delivered_text(alloc, *port, services.as_slice())
        }
    }
}

/// What becomes of a packet, in the words of outcomes.
fn outcome_text(alloc: Global, outcome: &Outcome) -> Result<String, AllocError>
    ensures { IfOk result (λ s. string_bytes s ≡ outcome_text outcome.now) }
{
    match outcome {
        Outcome::Delivered { port, services } => delivered_text(alloc, *port, services.as_slice()),
        Outcome::Dropped { why } => {
            let why = WhyText(*why);
            format!(in alloc; "dropped {why}")
        }
    }
}

/// Appends, as text, an outcome that is otherwise than is expected.
#[tactic(auto, unfolding(crate::specs::Expecting::unmet_line))]
fn append_unmet_text(
    alloc: Global,
    number: usize,
    expected: &Expected,
    outcome: &Outcome,
    out: &mut TextOut,
) -> Result<(), NoMemory>
    ensures ok { OnOk result (out.new ≡ out.old ++ unmet_line number expected.now outcome.now) }
    ensures err { OnErr result (out.new ≡ out.old) }
{
    let expected = expected_text(alloc, expected)?;
    let outcome = outcome_text(alloc, outcome)?;
    write!(out, "{number} expected {expected} but {outcome}\n")
}

/// The line of an outcome that is otherwise than is expected, behind the number of its packet, in a form.
#[derive(Clone, Copy)]
pub(crate) struct UnmetLines<'a> {
    pub(crate) form: Form,
    pub(crate) config: &'a Config,
    pub(crate) number: usize,
    pub(crate) expected: &'a Expected,
}

/// Appends, as a line of JSON, an outcome that is otherwise than is expected.
#[tactic(auto, using(crate::proofs::NoFloats::unmet))]
fn append_unmet_json(
    alloc: Global,
    lines: &UnmetLines<'_>,
    outcome: &Outcome,
    out: &mut TextOut,
) -> Result<(), NoMemory>
    ensures ok { OnOk result (out.new ≡ out.old
        ++ json_line (unmet_value lines.now.config.now lines.now.number lines.now.expected.now outcome.now)) }
    ensures err { OnErr result (out.new ≡ out.old) }
{
    let value = unmet_value(alloc, lines.config, lines.number, lines.expected, outcome)?;
    append_line(alloc, &value, out)
}

impl LinesOf<Outcome> for UnmetLines<'_> {
    ghost lines = { λ w outcome. unmet_line_in w.form w.config.now w.number w.expected.now outcome };

    fn append(&self, alloc: Global, outcome: &Outcome, out: &mut TextOut) -> Result<(), NoMemory> {
        match self.form {
            Form::Text => append_unmet_text(alloc, self.number, self.expected, outcome, out),
            Form::Json => append_unmet_json(alloc, self, outcome, out),
        }
    }
}

/// Appends, as text, how many packets there are, and of how many the outcome is otherwise.
#[tactic(auto, unfolding(crate::specs::Expecting::counts_line))]
fn append_counts_text(packets: usize, otherwise: usize, out: &mut TextOut) -> Result<(), NoMemory>
    ensures ok { OnOk result (out.new ≡ out.old ++ counts_line packets otherwise) }
    ensures err { OnErr result (out.new ≡ out.old) }
{
    write!(out, "packets {packets} otherwise {otherwise}\n")
}

/// Appends, as a line of JSON, how many packets there are, and of how many the outcome is otherwise.
#[tactic(auto, using(crate::proofs::NoFloats::counts))]
fn append_counts_json(
    alloc: Global,
    packets: usize,
    otherwise: usize,
    out: &mut TextOut,
) -> Result<(), NoMemory>
    ensures ok { OnOk result (out.new ≡ out.old ++ json_line (counts_value packets otherwise)) }
    ensures err { OnErr result (out.new ≡ out.old) }
{
    let value = counts_value(alloc, packets, otherwise)?;
    append_line(alloc, &value, out)
}

/// The line that counts packets, behind their number, in a form.
#[derive(Clone, Copy)]
pub(crate) struct CountsLines {
    pub(crate) form: Form,
    pub(crate) packets: usize,
}

impl LinesOf<usize> for CountsLines {
    ghost lines = { λ w otherwise. counts_in w.form w.packets otherwise };

    fn append(&self, alloc: Global, otherwise: &usize, out: &mut TextOut) -> Result<(), NoMemory> {
        match self.form {
            Form::Text => append_counts_text(self.packets, *otherwise, out),
            Form::Json => append_counts_json(alloc, self.packets, *otherwise, out),
        }
    }
}
