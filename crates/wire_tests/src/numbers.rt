//! The numbers that follow from the configuration's own.
ghost use Rattle.std.specs.Prelude.{◌≤◌};

use case_lines::{CaseFault, both, number, octet, short_number, told};
use ov_io::TextOut;
use ov_types::{InstanceId, NoMemory};
use route_targets::{circuit_address, circuit_label, hop_instance, other_side, target};

/// The label of a circuit, its address, and the circuit on its other side.
pub(crate) fn tell_circuit(given: &str, out: &mut TextOut) -> Result<(), CaseFault> {
    let circuit = number(given)?;
    if circuit < 32_769 || circuit > 131_070 {
        return Err(CaseFault::Unreadable);
    }
    told(push_circuit(circuit, out))
}

fn push_circuit(circuit: u32, out: &mut TextOut) -> Result<(), NoMemory>
    requires first { 32769 ≤ circuit }
    requires last { circuit ≤ 131070 }
{
    let label = circuit_label(circuit);
    let address = circuit_address(circuit);
    let across = other_side(circuit);
    write!(out, "{label} {address} {across}")
}

/// The instance of a hop of a use, by the numbers of both.
pub(crate) fn tell_hop(given: &str, out: &mut TextOut) -> Result<(), CaseFault> {
    let (use_no, hop) = both(given)?;
    let use_no = short_number(use_no)?;
    let hop = octet(hop)?;
    if use_no > 3071 || hop > 15 {
        return Err(CaseFault::Unreadable);
    }
    let instance = hop_instance(use_no, hop);
    told(write!(out, "{instance}"))
}

/// The octets of the target of an instance in an autonomous system, and its text.
pub(crate) fn tell_target(given: &str, out: &mut TextOut) -> Result<(), CaseFault> {
    let (asn, instance) = both(given)?;
    let made = target(number(asn)?, InstanceId(short_number(instance)?));
    let octets = made.0;
    told(write!(out, "{octets:016x} {made}"))
}
