//! The circuits of a use of a chain.
ghost use Rattle.std.specs.Prelude.{◌≡◌, ◌≤◌, ◌+◌, length, map, IfOk};
ghost use Rattle.transform_model.specs.Uses.{left_circuits_from, right_circuits_from};
ghost use Rattle.schema_transform.specs.Held.{circuit_of};

use crate::attachment::Attachment;
use config_types::Service;
use ov_types::{Items, NoMemory};
use route_targets::{left_circuit, right_circuit};
use std::alloc::Global;

/// The left circuits of the services of a use.
pub(crate) fn left_circuits(
    alloc: Global,
    number: u16,
    services: &[Service],
) -> Result<Items<Attachment>, NoMemory>
    requires last_use { number ≤ 3071 }
    requires few { length services.now ≤ 15 }
    ensures { IfOk result (λ list. map circuit_of list ≡ left_circuits_from number 1 services.now) }
{
    let mut circuits = Items::new(alloc);
    let mut place = 1;
    for service in services {
        circuits.push(Attachment {
            number: left_circuit(number, place),
            service: *service,
        })?;
        place += 1;
    }
    Ok(circuits)
}

/// The right circuits of the services of a use.
pub(crate) fn right_circuits(
    alloc: Global,
    number: u16,
    services: &[Service],
) -> Result<Items<Attachment>, NoMemory>
    requires last_use { number ≤ 3071 }
    requires few { length services.now ≤ 15 }
    ensures { IfOk result (λ list. map circuit_of list ≡ right_circuits_from number 1 services.now) }
{
    let mut circuits = Items::new(alloc);
    let mut place = 1;
    for service in services {
        circuits.push(Attachment {
            number: right_circuit(number, place),
            service: *service,
        })?;
        place += 1;
    }
    Ok(circuits)
}
