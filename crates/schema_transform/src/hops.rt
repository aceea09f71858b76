//! The instances of a use of a chain.
ghost use Rattle.std.specs.Prelude.{◌≡◌};
ghost use Rattle.transform_model.specs.Uses.{first_hop, last_hop};
ghost use Rattle.schema_transform.specs.HeldUses.{use_of};

use crate::chain_use::ChainUse;
use ov_types::InstanceId;
use route_targets::hop_instance;

/// The instance before the first service.
pub(crate) fn first_hop(found: &ChainUse) -> InstanceId
    ensures { result ≡ first_hop (use_of found.now) }
{
    hop_instance(found.number, 0)
}

/// The instance behind the last service.
pub(crate) fn last_hop(found: &ChainUse) -> InstanceId
    ensures { result ≡ last_hop (use_of found.now) }
{
    hop_instance(found.number, found.services.len() as u8)
}
