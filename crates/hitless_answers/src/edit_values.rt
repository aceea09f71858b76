//! The JSON values of what is said of edits.
ghost use Rattle.std.specs.Prelude.{◌≡◌, IfOk};
ghost use Rattle.serde_json.specs.View.{view};
ghost use Rattle.hitless_answers.specs.EditValues.{count_value, course_use, course_value, course_word, difference_word};
ghost use Rattle.hitless_answers.specs.EditValues.{other_port_value, packet_value, refused_value};

use crate::lines::TiedFaultText;
use config_types::Config;
use hitless_cells::{Course, Difference, Interruption};
use inspect_json::port_number_value;
use schedule_script::TiedFault;
use serde_json::{Value, json};
use std::alloc::{AllocError, Global};

/// The word of a way.
fn course_word(course: Course) -> &'static str
    ensures { result.now ≡ course_word course }
{
    match course {
        Course::Inside => "inside",
        Course::Passing => "pass",
        Course::Through { .. } => "use",
    }
}

/// The use of a way, and `null` where it has none.
fn course_use(alloc: Global, course: Course) -> Result<Value, AllocError>
    ensures { IfOk result (λ v. view v ≡ course_use course) }
{
    match course {
        Course::Through { use_no, .. } => json!(in alloc; (use_no)),
        _ => Ok(Value::Null),
    }
}

/// A way.
#[tactic(auto, unfolding(crate::specs::EditValues::course_value))]
fn course_value(alloc: Global, course: Course) -> Result<Value, AllocError>
    ensures { IfOk result (λ v. view v ≡ course_value course) }
{
    let use_no = course_use(alloc, course)?;
    let way = course_word(course);
    json!(in alloc; {"use": use_no, "way": way})
}

/// The word of what differs.
fn difference_word(difference: Difference) -> &'static str
    ensures { result.now ≡ difference_word difference }
{
    match difference {
        Difference::NotOfferedBefore => "not offered before",
        Difference::NotOfferedAfter => "not offered after",
        Difference::Network => "network",
        Difference::Node => "node",
        Difference::Services => "services",
        Difference::Subnet => "subnet",
        Difference::ControlNodes => "control nodes",
        Difference::AnotherPort { .. } => "another port",
    }
}

/// The port that the packet is delivered to after, where it is another, and else `null`.
fn other_port_value(
    alloc: Global,
    config: &Config,
    difference: Difference,
) -> Result<Value, AllocError>
    ensures { IfOk result (λ v. view v ≡ other_port_value config.now difference) }
{
    match difference {
        Difference::AnotherPort { after } => port_number_value(alloc, config, after),
        _ => Ok(Value::Null),
    }
}

/// A packet that the edit of a number interrupts.
#[tactic(auto, unfolding(crate::specs::EditValues::packet_value))]
pub(crate) fn packet_value(
    alloc: Global,
    config: &Config,
    number: usize,
    line: &Interruption,
) -> Result<Value, AllocError>
    ensures { IfOk result (λ v. view v ≡ packet_value config.now number line.now) }
{
    let becomes = course_value(alloc, line.becomes)?;
    let from = port_number_value(alloc, config, line.from)?;
    let other_port = other_port_value(alloc, config, line.difference)?;
    let to = port_number_value(alloc, config, line.to)?;
    let was = course_value(alloc, line.was)?;
    let difference = difference_word(line.difference);
    json!(in alloc; {
        "becomes": becomes,
        "difference": difference,
        "dport": (line.tuple.dport),
        "edit": number,
        "from": from,
        "other_port": other_port,
        "protocol": (line.tuple.proto),
        "sport": (line.tuple.sport),
        "to": to,
        "was": was
    })
}

/// Why the edit of a number is not made.
#[tactic(auto, unfolding(crate::specs::EditValues::refused_value))]
pub(crate) fn refused_value(
    alloc: Global,
    number: usize,
    fault: &TiedFault,
) -> Result<Value, AllocError>
    ensures { IfOk result (λ v. view v ≡ refused_value number fault.now) }
{
    let fault = TiedFaultText(fault);
    let text = format!(in alloc; "{fault}")?;
    let refused = text.as_str();
    json!(in alloc; {"edit": number, "refused": refused})
}

/// How many pairs of ports the edit of a number interrupts.
#[tactic(auto, unfolding(crate::specs::EditValues::count_value))]
pub(crate) fn count_value(alloc: Global, number: usize, count: usize) -> Result<Value, AllocError>
    ensures { IfOk result (λ v. view v ≡ count_value number count) }
{
    json!(in alloc; {"edit": number, "interrupts": count})
}
