//! What an agent tells its control nodes.
ghost use Rattle.std.specs.Prelude.{◌≡◌, ◌∷◌, [], IfOk, OnOk, map};
ghost use Rattle.std.specs.List.{AllByRecursion, flat_map};
ghost use Rattle.node_core.specs.Told.{AllFit, up_of};
ghost use Rattle.node_core.specs.NodeModel.Agent.{Heard, publication, wanted as wanted_of};
ghost use Rattle.node_core.specs.NodeModel.Keys.{Subscribe, of_up};
ghost use Rattle.node_core.specs.NodeModel.Values.{Label as LabelOf};
ghost use Rattle.agent_tables.specs.Kept.{added, entries_of};
ghost use Rattle.agent_tables.specs.Slice.{pairs_of};
ghost use Rattle.agent_tables.specs.Views.{heard_of};

use crate::hearing::Hearing;
use crate::needs::needed;
use crate::object::SliceObject;
use crate::slice::slice_in_use;
use ov_types::{InstanceId, Label, LowKey, LowValue, NoMemory, Prefix, UpKey};
use route_targets::{circuit_address, circuit_instance};
use std::alloc::Global;
use std::collections::BTreeMap;

/// What every control node is to have been told: the publications and subscriptions of the slice in use, which is that
/// of the first session that is up.
pub fn wanted(alloc: Global, sessions: &[Hearing]) -> Result<BTreeMap<UpKey, Label>, NoMemory>
    requires { AllByRecursion (λ (s : Heard). AllFit s.map) (map heard_of sessions.now) }
    ensures { IfOk result (λ wanted. up_of wanted.entries ≡ wanted_of (map heard_of sessions.now)) }
{
    let slice = slice_in_use(alloc, sessions)?;
    let needed = needed(alloc, slice.as_slice())?;
    let mut wanted = BTreeMap::new(alloc);
    publish_all(&mut wanted, slice.as_slice())?;
    subscribe_all(&mut wanted, needed.as_slice())?;
    Ok(wanted)
}

/// Adds the publications of the attachments of a slice.
fn publish_all(
    wanted: &mut BTreeMap<UpKey, Label>,
    slice: &[SliceObject<'_>],
) -> Result<(), NoMemory>
    ensures { OnOk result (up_of wanted.new.entries
        ≡ added (up_of wanted.old.entries) (flat_map (λ e. publication e.0 e.1) (pairs_of slice.now))) }
{
    for object in slice {
        publish(wanted, object)?;
    }
    Ok(())
}

fn publish(wanted: &mut BTreeMap<UpKey, Label>, object: &SliceObject<'_>) -> Result<(), NoMemory>
    ensures { OnOk result (up_of wanted.new.entries
        ≡ added (up_of wanted.old.entries) (publication object.now.key object.now.value.now)) }
{
    match publication(object) {
        Some((key, label)) => add(wanted, key, label),
        None => Ok(()),
    }
}

/// The publication of an attachment: in its instance, under its host prefix.
fn publication(object: &SliceObject<'_>) -> Option<(UpKey, Label)>
    ensures { entries_of result ≡ publication object.now.key object.now.value.now }
{
    let LowKey::Attach(label) = object.key else {
        return None;
    };
    match object.value {
        LowValue::AttachPort {
            instance,
            address,
            ..
        } => {
            let host = Prefix::host(*address);
            Some((UpKey::Publish(*instance, host), Label(label)))
        }
        LowValue::AttachCircuit { circuit, .. } => {
            let host = Prefix::host(circuit_address(*circuit));
            Some((
                UpKey::Publish(circuit_instance(*circuit), host),
                Label(label),
            ))
        }
        _ => None,
    }
}

/// Adds the subscriptions of instances.
fn subscribe_all(
    wanted: &mut BTreeMap<UpKey, Label>,
    instances: &[InstanceId],
) -> Result<(), NoMemory>
    ensures { OnOk result (up_of wanted.new.entries
        ≡ added (up_of wanted.old.entries) (map (λ i. (Subscribe i, LabelOf (record { 0 = 0 }))) instances.now)) }
{
    for instance in instances {
        add(wanted, UpKey::Subscribe(*instance), Label(0))?;
    }
    Ok(())
}

/// Adds a key with its label, where the key is not there yet.
#[tactic(auto, using(crate::proofs::Added::up_there, crate::proofs::Added::up_new))]
fn add(wanted: &mut BTreeMap<UpKey, Label>, key: UpKey, label: Label) -> Result<(), NoMemory>
    ensures { OnOk result (up_of wanted.new.entries
        ≡ added (up_of wanted.old.entries) ((of_up key, LabelOf label) ∷ [])) }
{
    if wanted.contains_key(&key) {
        return Ok(());
    }
    wanted.insert(key, label)?;
    Ok(())
}
