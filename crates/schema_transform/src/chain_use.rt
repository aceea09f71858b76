//! A use of a chain.
ghost use Rattle.std.specs.Prelude.{◌≡◌, ◌≤◌, length, map};
ghost use Rattle.transform_model.specs.Uses.{left_circuits_from, right_circuits_from};
ghost use Rattle.schema_transform.specs.Held.{circuit_of};

use crate::attachment::Attachment;
use config_types::{Network, Service};
use ov_types::Items;

/// A use of a chain that is in effect: its number, the networks that its rule names, the services of its chain, and
/// their circuits.
#[derive(Drop)]
pub(crate) struct ChainUse {
    pub(crate) number: u16,
    pub(crate) left: Network,
    pub(crate) right: Network,
    pub(crate) services: Items<Service>,
    pub(crate) left_circuits: Items<Attachment>,
    pub(crate) right_circuits: Items<Attachment>,
    ghost last_use: { number ≤ 3071 },
    ghost few: { length services ≤ 15 },
    ghost lefts: { map circuit_of left_circuits ≡ left_circuits_from number 1 services },
    ghost rights: { map circuit_of right_circuits ≡ right_circuits_from number 1 services },
}
