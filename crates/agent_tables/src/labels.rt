//! What the labels of a slice lead to.
ghost use Rattle.std.specs.Prelude.{◌≡◌, IfOk, OnOk, map};
ghost use Rattle.std.specs.List.{All, filter_map};
ghost use Rattle.std.specs.List.Sorted.{IsStrictlySortedBy};
ghost use Rattle.ov_types.specs.Keys.{low_key_cmp};
ghost use Rattle.packet_trace.specs.Circuits.{IsOfAUse};
ghost use Rattle.node_core.specs.NodeModel.Agent.{attached};
ghost use Rattle.agent_tables.specs.Kept.{label_order, with_entry};
ghost use Rattle.agent_tables.specs.Slice.{pairs_of};

use crate::object::SliceObject;
use ov_types::{Attached, Label, LowKey, LowValue, NoMemory};
use std::alloc::Global;
use vrouter_fib::Labels;

/// What the labels of a slice lead to.
pub(crate) fn labels_of(alloc: Global, slice: &[SliceObject<'_>]) -> Result<Labels, NoMemory>
    requires { IsStrictlySortedBy low_key_cmp (map (λ e. e.0) (pairs_of slice.now)) }
    ensures labels { IfOk result (λ labels. labels ≡ filter_map (λ e. attached e.0 e.1) (pairs_of slice.now)) }
    ensures circuits { IfOk result (λ labels. All (λ e. IsOfAUse e.1) labels) }
{
    let mut labels = Labels::new(alloc);
    for object in slice {
        attach(&mut labels, object)?;
    }
    Ok(labels)
}

fn attach(labels: &mut Labels, object: &SliceObject<'_>) -> Result<(), NoMemory>
    ensures { OnOk result (labels.new
        ≡ with_entry label_order labels.old (attached object.now.key object.now.value.now)) }
{
    let LowKey::Attach(label) = object.key else {
        return Ok(());
    };
    match object.value {
        LowValue::AttachPort { port, instance, .. } => {
            let port = *port;
            let instance = *instance;
            labels.set(Label(label), Attached::Port { port, instance })
        }
        LowValue::AttachCircuit {
            circuit,
            service,
            ..
        } => {
            let circuit = *circuit;
            let service = *service;
            labels.set(Label(label), Attached::Circuit { circuit, service })
        }
        _ => Ok(()),
    }
}
