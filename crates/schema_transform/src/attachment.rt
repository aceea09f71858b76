//! A circuit of a service.
ghost use Rattle.std.specs.Prelude.{◌≤◌};

use config_types::Service;

/// What attaches one side of a service to the instance there: a circuit's number, and the service.
#[derive(Clone, Copy, PartialEq, Eq)]
pub(crate) struct Attachment {
    pub(crate) number: u32,
    pub(crate) service: Service,
    ghost last_circuit: { number ≤ 131070 },
}
