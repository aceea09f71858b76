//! Ports of two configurations that are one in what packets say of them.
ghost use Rattle.std.specs.Prelude.{◌≡◌, ◌++◌, ◌∷◌, [], filter, IfOk, OnOk};
ghost use Rattle.ov_types.specs.First.{same_name};
ghost use Rattle.hitless_cells.specs.Ends.{joint_of, joints, joints_from, joints_if, meets};

use crate::changes::{Change, change_found};
use config_check::{Valid, node_named};
use config_types::Port;
use ov_types::{Name, NoMemory};
use std::alloc::Global;

/// By what ports of two configurations meet: by their number, as a packet says where it leaves, or by their address, as it
/// says where it goes.
#[derive(Clone, Copy)]
pub(crate) enum Meeting {
    ByNumber,
    ByAddress,
}

/// Two ports that meet, one of each configuration, and what is otherwise of their compute node.
#[derive(Clone, Copy)]
pub(crate) struct Joint {
    pub(crate) before: Port,
    pub(crate) after: Port,
    pub(crate) change: Change,
}

fn meets(meeting: Meeting, port: &Port, other: &Port) -> bool
    ensures { result ≡ meets meeting port.now other.now }
{
    match meeting {
        Meeting::ByNumber => port.id.0 == other.id.0,
        Meeting::ByAddress => port.address.0 == other.address.0,
    }
}

fn joint_of(before: &Valid, after: &Valid, port: &Port, other: &Port) -> Joint
    ensures { result ≡ joint_of before.now after.now port.now other.now }
{
    Joint {
        before: *port,
        after: *other,
        change: change_found(
            node_named(before.topology(), &port.node),
            node_named(after.topology(), &other.node),
        ),
    }
}

fn push_if(
    list: &mut Vec<Joint>,
    before: &Valid,
    after: &Valid,
    meeting: Meeting,
    port: &Port,
    other: &Port,
) -> Result<(), NoMemory>
    ensures { OnOk result (list.new.items ≡ list.old.items ++ joints_if before.now after.now meeting port.now other.now) }
{
    if meets(meeting, port, other) {
        list.push(joint_of(before, after, port, other))?;
    }
    Ok(())
}

fn push_from(
    list: &mut Vec<Joint>,
    before: &Valid,
    after: &Valid,
    meeting: Meeting,
    port: &Port,
) -> Result<(), NoMemory>
    ensures { OnOk result (list.new.items ≡ list.old.items ++ joints_from before.now after.now meeting port.now) }
{
    for other in after.config().ports.as_slice() {
        push_if(list, before, after, meeting, port, other)?;
    }
    Ok(())
}

/// The ports of two configurations that meet.
pub(crate) fn joints(
    alloc: Global,
    before: &Valid,
    after: &Valid,
    meeting: Meeting,
) -> Result<Vec<Joint>, NoMemory>
    ensures { IfOk result (λ v. v.items ≡ joints before.now after.now meeting) }
{
    let mut list = Vec::new(alloc);
    for port in before.config().ports.as_slice() {
        push_from(&mut list, before, after, meeting, port)?;
    }
    Ok(list)
}

fn push_before(list: &mut Vec<Joint>, joint: &Joint, network: &Name) -> Result<(), NoMemory>
    ensures { OnOk result (list.new.items ≡ list.old.items ++ filter (λ j. same_name j.before.network network.now) (joint.now ∷ [])) }
{
    if joint.before.network == *network {
        list.push(*joint)?;
    }
    Ok(())
}

/// The joints whose port before is of a network.
pub(crate) fn of_network_before(
    alloc: Global,
    joints: &[Joint],
    network: &Name,
) -> Result<Vec<Joint>, NoMemory>
    ensures { IfOk result (λ v. v.items ≡ filter (λ j. same_name j.before.network network.now) joints.now) }
{
    let mut list = Vec::new(alloc);
    for joint in joints {
        push_before(&mut list, joint, network)?;
    }
    Ok(list)
}

fn push_after(list: &mut Vec<Joint>, joint: &Joint, network: &Name) -> Result<(), NoMemory>
    ensures { OnOk result (list.new.items ≡ list.old.items ++ filter (λ j. same_name j.after.network network.now) (joint.now ∷ [])) }
{
    if joint.after.network == *network {
        list.push(*joint)?;
    }
    Ok(())
}

/// The joints whose port after is of a network.
pub(crate) fn of_network_after(
    alloc: Global,
    joints: &[Joint],
    network: &Name,
) -> Result<Vec<Joint>, NoMemory>
    ensures { IfOk result (λ v. v.items ≡ filter (λ j. same_name j.after.network network.now) joints.now) }
{
    let mut list = Vec::new(alloc);
    for joint in joints {
        push_after(&mut list, joint, network)?;
    }
    Ok(list)
}
