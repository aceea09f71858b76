//! The octets of routes.
ghost use Rattle.std.specs.Prelude.{◌≡◌, IfOk};
ghost use Rattle.ov_sync.specs.Embed.{moved_delta};
ghost use Rattle.bgp_vpn.specs.Written.{IfPut};
ghost use Rattle.node_model.specs.Keys.{Vpn};
ghost use Rattle.node_model.specs.Values.{Route};
ghost use Rattle.node_routes.specs.Told.{IsWritable, spelled};

use bgp_vpn::write_update;
use ov_sync::Delta;
use ov_types::{Items, NoMemory, VpnKey, VpnRoute};
use std::alloc::Global;

/// The octets of a change that a control node tells another.
pub fn spell(alloc: Global, delta: &Delta<VpnKey, VpnRoute>) -> Result<Items<u8>, NoMemory>
    requires { IfPut delta.now IsWritable }
    ensures { IfOk result (λ octets. octets ≡ spelled (moved_delta Vpn Route delta.now)) }
{
    let mut octets = Vec::new(alloc);
    write_update(alloc, delta, &mut octets)?;
    Ok(Items::from_vec(octets))
}
