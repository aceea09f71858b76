//! What the slice in use gives to forward by, before any route.
ghost use Rattle.std.specs.Prelude.{IfOk, map};
ghost use Rattle.std.specs.List.{AllByRecursion};
ghost use Rattle.node_core.specs.Told.{AllFit};
ghost use Rattle.node_core.specs.NodeModel.Agent.{Heard};
ghost use Rattle.agent_tables.specs.Sliced.{AreOfSlice};
ghost use Rattle.agent_tables.specs.Views.{heard_of};

use crate::acls::acls_of;
use crate::fibs::{Fibs, empty_fibs};
use crate::hearing::Hearing;
use crate::labels::labels_of;
use crate::needs::needed;
use crate::slice::slice_in_use;
use flow_acl::Acls;
use ov_types::NoMemory;
use std::alloc::Global;
use vrouter_fib::Labels;

/// The labels and access lists of the slice in use, and a table of no routes for each instance that it makes an agent
/// need.
#[derive(Drop)]
pub(crate) struct SliceTables {
    pub(crate) labels: Labels,
    pub(crate) acls: Acls,
    pub(crate) fibs: Fibs,
}

/// What the slice in use gives, which is that of the first session that is up.
pub(crate) fn slice_tables(alloc: Global, sessions: &[Hearing]) -> Result<SliceTables, NoMemory>
    requires { AllByRecursion (λ (s : Heard). AllFit s.map) (map heard_of sessions.now) }
    ensures { IfOk result (λ tables. AreOfSlice (map heard_of sessions.now) tables) }
{
    let slice = slice_in_use(alloc, sessions)?;
    let needed = needed(alloc, slice.as_slice())?;
    let labels = labels_of(alloc, slice.as_slice())?;
    let acls = acls_of(alloc, slice.as_slice())?;
    let fibs = empty_fibs(alloc, needed.as_slice())?;
    Ok(SliceTables { labels, acls, fibs })
}
