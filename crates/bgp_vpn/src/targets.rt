//! The route targets among extended communities (RFC 4360, section 4).
ghost use Rattle.std.specs.Prelude.{◌≡◌, IfOk, OnOk};
ghost use Rattle.bgp_vpn.specs.Values.{with_community, targets_among};

use byteorder::{BigEndian, ByteOrder};
use ov_types::{NoMemory, Target, Targets, is_target};
use std::alloc::Global;

fn insert_community(targets: &mut Targets, community: u64) -> Result<(), NoMemory>
    ensures { OnOk result (targets.new ≡ with_community targets.old community) }
{
    if is_target(community) {
        targets.insert(Target(community))?;
    }
    Ok(())
}

pub(crate) fn targets_among(alloc: Global, value: &[u8]) -> Result<Targets, NoMemory>
    ensures { IfOk result (λ targets. targets ≡ targets_among value.now) }
{
    let mut targets = Targets::new(alloc);
    let mut rest = value;
    while rest.len() >= 8 {
        insert_community(&mut targets, BigEndian::read_u64(rest))?;
        rest = &rest[8..];
    }
    Ok(targets)
}
