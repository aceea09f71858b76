//! What the sessions of the configuration node are to be told in a pass.
ghost use Rattle.std.specs.Prelude.{◌≡◌, ◌⊎◌, ◌∷◌, [], Option, Some, IfOk, OnOk, map, true, false};
ghost use Rattle.std.specs.List.{All, AllByRecursion, cons_option};
ghost use Rattle.ov_sync.specs.Embed.{moved_delta};
ghost use Rattle.ov_sync.specs.Keyed.{AgreeBut, map_of};
ghost use Rattle.ov_types.specs.declared.objects.LowKey.{LowKey as Key};
ghost use Rattle.node_core.specs.Told.{AllFit, ChangeFits, spelled};
ghost use Rattle.node_core.specs.NodeModel.Keys.{Low};
ghost use Rattle.node_core.specs.NodeModel.Maps.{difference};
ghost use Rattle.node_core.specs.NodeModel.Values.{Object};
ghost use Rattle.config_node.specs.Ends.{HasSent, low_of, low_order};
ghost use Rattle.config_node.specs.Planning.{AreEndsTold, IsEndTold, plan_of, sends};

use crate::ends::FeedEnd;
use crate::wants::{Objects, wanted_of};
use node_core::{Plan, spell_low};
use ov_sync::{Delta, SyncOut};
use ov_types::{Items, LowKey, LowValue, NoMemory};
use std::alloc::Global;

/// The octets of each change, in order.
fn spell_all(
    alloc: Global,
    deltas: &[Delta<LowKey, LowValue>],
) -> Result<Items<Items<u8>>, NoMemory>
    requires { All ChangeFits (map (moved_delta Low Object) deltas.now) }
    ensures { IfOk result (λ messages. messages ≡ map (λ c. spelled c) (map (moved_delta Low Object) deltas.now)) }
{
    let mut messages = Items::new(alloc);
    for delta in deltas {
        messages.push(spell_low(alloc, delta)?)?;
    }
    Ok(messages)
}

/// What a session that may send is to be told: what changes from what was sent to what is wanted, which is sent then.
fn plan_changes(alloc: Global, end: &mut FeedEnd, wants: &Objects) -> Result<Plan, NoMemory>
    requires sends { sends end.old ≡ true }
    requires untold { end.old.told ≡ false }
    requires sent { AllFit (low_of end.old.sent) }
    requires wants { AllFit (low_of wants.now.entries) }
    ensures session { end.new.session ≡ end.old.session }
    ensures sent { (changed : Option Key) → HasSent wants.now.entries changed end.new }
    ensures told { IfOk result (λ plan. IsEndTold wants.now.entries end.old end.new) }
    ensures plan { IfOk result (λ plan. plan ≡ plan_of wants.now.entries end.old) }
{
    let deltas = end.sent.replace(wants)?;
    let messages = spell_all(alloc, &deltas)?;
    end.told = true;
    Ok(Plan { messages })
}

fn listed(
    alloc: Global,
    delta: Option<Delta<LowKey, LowValue>>,
) -> Result<Vec<Delta<LowKey, LowValue>>, NoMemory>
    ensures { IfOk result (λ list. list.items ≡ cons_option delta []) }
{
    let mut list = Vec::new(alloc);
    if let Some(delta) = delta {
        list.push(delta)?;
    }
    Ok(list)
}

/// The changes from what was sent to what is wanted, where they differ at one key alone. What is wanted is sent then.
fn tell_key(
    alloc: Global,
    sent: &mut SyncOut<LowKey, LowValue>,
    wants: &Objects,
    key: LowKey,
) -> Result<Vec<Delta<LowKey, LowValue>>, NoMemory>
    requires { AgreeBut (key ∷ []) (map_of low_order sent.old) (map_of low_order wants.now.entries) }
    ensures changes { IfOk result (λ deltas. map (moved_delta Low Object) deltas.items
        ≡ difference (low_of sent.old) (low_of wants.now.entries)) }
    ensures sent { OnOk result (map_of low_order sent.new ≡ map_of low_order wants.now.entries) }
    ensures either { (map_of low_order sent.new ≡ map_of low_order sent.old)
        ⊎ (map_of low_order sent.new ≡ map_of low_order wants.now.entries) }
{
    let wanted = wanted_of(wants, &key)?;
    let delta = sent.replace_key(key, wanted)?;
    let deltas = listed(alloc, delta)?;
    Ok(deltas)
}

/// What a session that counts as told is to be told of the key that changed.
fn plan_key(
    alloc: Global,
    end: &mut FeedEnd,
    wants: &Objects,
    key: LowKey,
) -> Result<Plan, NoMemory>
    requires sends { sends end.old ≡ true }
    requires told { end.old.told ≡ true }
    requires sent { HasSent wants.now.entries (Some key) end.old }
    requires wants { AllFit (low_of wants.now.entries) }
    ensures session { end.new.session ≡ end.old.session }
    ensures sent { HasSent wants.now.entries (Some key) end.new }
    ensures told { IfOk result (λ plan. IsEndTold wants.now.entries end.old end.new) }
    ensures plan { IfOk result (λ plan. plan ≡ plan_of wants.now.entries end.old) }
{
    let deltas = tell_key(alloc, &mut end.sent, wants, key)?;
    let messages = spell_all(alloc, &deltas)?;
    Ok(Plan { messages })
}

/// What a session that counts as told is to be told: nothing where nothing changed. No other key is compared.
fn plan_told(
    alloc: Global,
    end: &mut FeedEnd,
    wants: &Objects,
    changed: &Option<LowKey>,
) -> Result<Plan, NoMemory>
    requires sends { sends end.old ≡ true }
    requires told { end.old.told ≡ true }
    requires sent { HasSent wants.now.entries changed.now end.old }
    requires wants { AllFit (low_of wants.now.entries) }
    ensures session { end.new.session ≡ end.old.session }
    ensures sent { HasSent wants.now.entries changed.now end.new }
    ensures told { IfOk result (λ plan. IsEndTold wants.now.entries end.old end.new) }
    ensures plan { IfOk result (λ plan. plan ≡ plan_of wants.now.entries end.old) }
{
    match changed {
        Some(key) => plan_key(alloc, end, wants, *key),
        None => Ok(Plan {
            messages: Items::new(alloc),
        }),
    }
}

/// What one session is to be told. It is nothing where the session is idle. Where it counts as told, it is told of the
/// key that changed alone.
fn plan_one(
    alloc: Global,
    end: &mut FeedEnd,
    wants: &Objects,
    changed: &Option<LowKey>,
) -> Result<Plan, NoMemory>
    requires sent { HasSent wants.now.entries changed.now end.old }
    requires wants { AllFit (low_of wants.now.entries) }
    ensures session { end.new.session ≡ end.old.session }
    ensures sent { HasSent wants.now.entries changed.now end.new }
    ensures told { IfOk result (λ plan. IsEndTold wants.now.entries end.old end.new) }
    ensures plan { IfOk result (λ plan. plan ≡ plan_of wants.now.entries end.old) }
{
    if !end.is_live() {
        end.told = false;
        return Ok(Plan {
            messages: Items::new(alloc),
        });
    }
    if end.told {
        return plan_told(alloc, end, wants, changed);
    }
    plan_changes(alloc, end, wants)
}

/// What each session is to be told.
pub(crate) fn plan_all(
    alloc: Global,
    ends: &mut [FeedEnd],
    wants: &Objects,
    changed: &Option<LowKey>,
) -> Result<Vec<Plan>, NoMemory>
    requires sent { AllByRecursion (HasSent wants.now.entries changed.now) ends.old }
    requires wants { AllFit (low_of wants.now.entries) }
    ensures sessions { map (λ e. e.session) ends.new ≡ map (λ e. e.session) ends.old }
    ensures sent { AllByRecursion (HasSent wants.now.entries changed.now) ends.new }
    ensures told { IfOk result (λ plans. AreEndsTold wants.now.entries ends.old ends.new) }
    ensures plans { IfOk result (λ plans. plans.items ≡ map (plan_of wants.now.entries) ends.old) }
{
    let mut plans = Vec::new(alloc);
    for end in ends.iter_mut() {
        plans.push(plan_one(alloc, end, wants, changed)?)?;
    }
    Ok(plans)
}
