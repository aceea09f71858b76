//! Networks of two configurations, with the ports of theirs that meet.
ghost use Rattle.std.specs.Prelude.{◌≡◌, ◌++◌, flat_map, IfOk, OnOk};
ghost use Rattle.hitless_cells.specs.Ends.{ends_at, ends_from, ends_of, ends_to};

use crate::joints::{Joint, Meeting, joints, of_network_after, of_network_before};
use config_check::Valid;
use config_types::Network;
use ov_types::{Items, NoMemory};
use std::alloc::{AllocError, Global};

/// A network of each configuration, and the ports of theirs that meet.
#[derive(Drop)]
pub(crate) struct Ends {
    pub(crate) before: Network,
    pub(crate) after: Network,
    pub(crate) joints: Items<Joint>,
}

fn copied_network(network: &Network) -> Result<Network, AllocError>
    ensures { IfOk result (λ n. n ≡ network.now) }
{
    network.clone()
}

fn push_at(
    list: &mut Vec<Ends>,
    before: &Network,
    after: &Network,
    joints: Vec<Joint>,
) -> Result<(), NoMemory>
    ensures { OnOk result (list.new.items ≡ list.old.items ++ ends_at before.now after.now joints.items) }
{
    if joints.is_empty() {
        return Ok(());
    }
    let before = copied_network(before)?;
    let after = copied_network(after)?;
    list.push(Ends {
        before,
        after,
        joints: Items::from_vec(joints),
    })?;
    Ok(())
}

fn push_to(
    alloc: Global,
    list: &mut Vec<Ends>,
    network: &Network,
    joints: &[Joint],
    other: &Network,
) -> Result<(), NoMemory>
    ensures { OnOk result (list.new.items ≡ list.old.items ++ ends_to network.now joints.now other.now) }
{
    let both = of_network_after(alloc, joints, &other.name)?;
    push_at(list, network, other, both)
}

fn push_to_each(
    alloc: Global,
    list: &mut Vec<Ends>,
    network: &Network,
    joints: &[Joint],
    others: &[Network],
) -> Result<(), NoMemory>
    ensures { OnOk result (list.new.items ≡ list.old.items ++ flat_map (ends_to network.now joints.now) others.now) }
{
    for other in others {
        push_to(alloc, list, network, joints, other)?;
    }
    Ok(())
}

fn push_from(
    alloc: Global,
    list: &mut Vec<Ends>,
    after: &Valid,
    joints: &[Joint],
    network: &Network,
) -> Result<(), NoMemory>
    ensures { OnOk result (list.new.items ≡ list.old.items ++ ends_from after.now joints.now network.now) }
{
    let near = of_network_before(alloc, joints, &network.name)?;
    push_to_each(
        alloc,
        list,
        network,
        &near,
        after.config().networks.as_slice(),
    )
}

/// Each two networks, one of each configuration, of which ports meet, with these ports.
pub(crate) fn ends_of(
    alloc: Global,
    before: &Valid,
    after: &Valid,
    meeting: Meeting,
) -> Result<Vec<Ends>, NoMemory>
    ensures { IfOk result (λ v. v.items ≡ ends_of before.now after.now meeting) }
{
    let joints = joints(alloc, before, after, meeting)?;
    let mut list = Vec::new(alloc);
    for network in before.config().networks.as_slice() {
        push_from(alloc, &mut list, after, &joints, network)?;
    }
    Ok(list)
}
