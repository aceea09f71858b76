//! The lines of what differs between two configurations.
ghost use Rattle.std.specs.Prelude.{◌≡◌, Some, IfOk, string_bytes};
ghost use Rattle.inspect_changes.specs.DifferenceLines.{came_line, difference_line, fate_text, object_text, went_line};

use crate::fate::{Difference, Fate};
use crate::lines::{RegionText, joined};
use crate::objects::Object;
use ov_io::TextOut;
use ov_types::NoMemory;
use report::LinesOf;
use std::alloc::{AllocError, Global};
use std::fmt;

/// An object, as it is printed.
#[derive(Clone, Copy)]
struct ObjectText(Object);

impl fmt::Display for ObjectText {
    ghost output = { λ o. Some (object_text o.0) };

    fn fmt<W: fmt::Write>(&self, f: &mut fmt::Formatter<W>) -> fmt::Result {
        match &self.0 {
            Object::Network { name } => write!(f, "network {name}"),
            Object::Subnet { network, prefix } => write!(f, "subnet {network} {prefix}"),
            Object::Port {
                number,
                network,
                address,
                node,
            } => write!(
                f,
                "port {number} network {network} address {address} node {node}"
            ),
            Object::Service { number, node } => write!(f, "service {number} node {node}"),
        }
    }
}

/// The line of an object that went.
pub struct WentLines;

impl LinesOf<Object> for WentLines {
    ghost lines = { λ w o. went_line o };

    #[tactic(auto, unfolding(crate::specs::DifferenceLines::went_line))]
    fn append(&self, _alloc: Global, object: &Object, out: &mut TextOut) -> Result<(), NoMemory> {
        let object = ObjectText(*object);
        write!(out, "went {object}\n")
    }
}

/// The line of an object that came.
pub struct CameLines;

impl LinesOf<Object> for CameLines {
    ghost lines = { λ w o. came_line o };

    #[tactic(auto, unfolding(crate::specs::DifferenceLines::came_line))]
    fn append(&self, _alloc: Global, object: &Object, out: &mut TextOut) -> Result<(), NoMemory> {
        let object = ObjectText(*object);
        write!(out, "came {object}\n")
    }
}

/// What becomes of packets, as it is printed.
fn fate_text(alloc: Global, fate: &Fate) -> Result<String, AllocError>
    ensures { IfOk result (λ s. string_bytes s ≡ fate_text fate.now) }
{
    match fate {
        Fate::Passed { rule } => format!(in alloc; "passed {rule}"),
        Fate::Through { rule, services } => {
            let services = joined(alloc, services.as_slice())?;
            format!(in alloc; "through {rule} services {services}")
        }
        Fate::Denied { rule } => format!(in alloc; "denied {rule}"),
        Fate::Unmatched => String::from_str(alloc, "denied -"),
    }
}

/// The line of a difference.
pub struct DifferenceLines;

impl LinesOf<Difference> for DifferenceLines {
    ghost lines = { λ w x. difference_line x };

    #[tactic(auto, unfolding(crate::specs::DifferenceLines::difference_line))]
    fn append(
        &self,
        alloc: Global,
        difference: &Difference,
        out: &mut TextOut,
    ) -> Result<(), NoMemory> {
        let from = difference.from;
        let to = difference.to;
        let region = RegionText(difference.region);
        let was = fate_text(alloc, &difference.was)?;
        let becomes = fate_text(alloc, &difference.becomes)?;
        write!(out, "{from} > {to} {region}: {was} => {becomes}\n")
    }
}
