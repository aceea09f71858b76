//! What the sessions of an agent are to be told in a pass.
ghost use Rattle.std.specs.Prelude.{◌≡◌, IfOk, OnOk, length, map};
ghost use Rattle.std.specs.List.{All};
ghost use Rattle.ov_sync.specs.Embed.{moved_delta};
ghost use Rattle.node_core.specs.Beginning.{phase_of};
ghost use Rattle.node_core.specs.Told.{ChangeFits, spelled, up_of};
ghost use Rattle.node_core.specs.NodeModel.Keys.{of_up};
ghost use Rattle.node_core.specs.NodeModel.Values.{Label as LabelOf};
ghost use Rattle.agent_node.specs.Ends.{SentFits};
ghost use Rattle.agent_node.specs.Planning.{ArePlanned, messages_of, told_of};

use agent_tables::Hearing;
use item_wire::ItemState;
use node_core::{Plan, spell_up};
use ov_sync::{Delta, SyncOut};
use ov_types::{Items, Label, NoMemory, UpKey};
use std::alloc::Global;
use std::collections::BTreeMap;

/// The octets of each change, in order.
fn spell_all(alloc: Global, deltas: &[Delta<UpKey, Label>]) -> Result<Items<Items<u8>>, NoMemory>
    requires { All ChangeFits (map (moved_delta of_up LabelOf) deltas.now) }
    ensures { IfOk result (λ messages. messages ≡ map (λ c. spelled c) (map (moved_delta of_up LabelOf) deltas.now)) }
{
    let mut messages = Items::new(alloc);
    for delta in deltas {
        messages.push(spell_up(alloc, delta)?)?;
    }
    Ok(messages)
}

/// What one session is to be told: nothing where it is idle, and else what changes from what was sent to what is
/// wanted, which is sent then.
fn plan_one(
    alloc: Global,
    state: ItemState,
    sent: &mut SyncOut<UpKey, Label>,
    wanted: &BTreeMap<UpKey, Label>,
) -> Result<Plan, NoMemory>
    requires sent { SentFits sent.old }
    requires wanted { SentFits wanted.now.entries }
    ensures messages { IfOk result (λ plan. plan.messages
        ≡ messages_of (phase_of state) (up_of sent.old) (up_of wanted.now.entries)) }
    ensures told { OnOk result (up_of sent.new ≡ told_of (phase_of state) (up_of sent.old) (up_of wanted.now.entries)) }
    ensures fits { SentFits sent.new }
{
    if state == ItemState::Idle {
        return Ok(Plan {
            messages: Items::new(alloc),
        });
    }
    let deltas = sent.replace(wanted)?;
    let messages = spell_all(alloc, &deltas)?;
    Ok(Plan { messages })
}

/// What each session is to be told.
pub(crate) fn plan_all(
    alloc: Global,
    hearings: &[Hearing],
    sents: &mut [SyncOut<UpKey, Label>],
    wanted: &BTreeMap<UpKey, Label>,
) -> Result<Vec<Plan>, NoMemory>
    requires many { length sents.old ≡ length hearings.now }
    requires sent { All SentFits sents.old }
    requires wanted { SentFits wanted.now.entries }
    ensures planned { IfOk result (λ plans. ArePlanned hearings.now sents.old sents.new (up_of wanted.now.entries)
        plans.items (length hearings.now)) }
    ensures fits { All SentFits sents.new }
{
    let mut plans = Vec::new(alloc);
    for session in 0..hearings.len() {
        let state = hearings[session].session.state();
        let plan = plan_one(alloc, state, &mut sents[session], wanted)?;
        plans.push(plan)?;
    }
    Ok(plans)
}
