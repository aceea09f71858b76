//! What an input makes of the end of its session.
ghost use Rattle.std.specs.Prelude.{◌≡◌, ◌<◌, ◌≤◌, ◌∷◌, [], IfOk, drop, length, slice_set, true, false};
ghost use Rattle.item_wire.specs.Records.{spelling};
ghost use Rattle.item_wire.specs.declared.event.ItemFrom.TheVariants.{Nothing};
ghost use Rattle.item_wire.specs.declared.item.Item.TheVariants.{Hello};
ghost use Rattle.node_core.specs.Begun.{HasBegun};
ghost use Rattle.node_core.specs.Keeping.{left_in, size_of};
ghost use Rattle.node_core.specs.Whole.{Comes, session_of};
ghost use Rattle.node_core.specs.NodeModel.Step.{Beginning, Idle, Opened, post};
ghost use Rattle.config_node.specs.MachineModel.Network.{config};
ghost use Rattle.config_node.specs.Beginning.{BeginsKeeping};
ghost use Rattle.config_node.specs.Core.{is_idle, sessions};
ghost use Rattle.config_node.specs.Ends.{whom};
ghost use Rattle.config_node.specs.Taking.{HasHeard, HasTaken};

use crate::ends::ConfigEnds;
use item_wire::{ItemCause, ItemSession};
use node_core::{Ends, HeardRecords, Started, config_name, greet, hear};
use ov_link::Input;
use ov_types::{Items, NoMemory};
use std::alloc::Global;

/// What octets came to at an end.
#[derive(Drop)]
struct Taken {
    /// How many octets were taken: all but those of a record that is not whole.
    taken: usize,
    /// Why the octets took the session down, where they did.
    cause: Option<ItemCause>,
}

/// Hears octets at an end. A control node sends its hello alone, so that any other record takes the session down.
fn hear_at(alloc: Global, session: &mut ItemSession, bytes: &[u8]) -> Result<Taken, NoMemory>
    requires from { session.old.from ≡ Nothing }
    ensures heard { IfOk result (λ came. HasHeard session.old bytes.now (drop came.taken bytes.now) session.new
        came.cause) }
    ensures taken { IfOk result (λ came. came.taken ≤ length bytes.now) }
    ensures whom { whom session.new ≡ whom session.old }
{
    let HeardRecords {
        records,
        taken,
        cause,
    } = hear(alloc, session, bytes)?;
    let _none = records;
    Ok(Taken { taken, cause })
}

impl ConfigEnds {
    /// Opens an end. Gives the hello that is to be sent.
    fn greet_at(&mut self, session: u16) -> Result<Items<Items<u8>>, NoMemory>
        requires known { session < sessions self.old.setup }
        requires idle { (post self.old.posts session).phase ≡ Idle }
        ensures setup { self.new.setup ≡ self.old.setup }
        ensures hello { IfOk result (λ replies. replies ≡ spelling (Hello config) ∷ []) }
        ensures opened { self.new.posts
            ≡ slice_set self.old.posts session (record (post self.old.posts session) { phase = Opened }) }
    {
        let end = &mut self.ends[usize::from(session)];
        greet(self.alloc, &mut end.session, &config_name())
    }

    /// Hears octets at an end, which is closed where they take its session down.
    fn hear_on(&mut self, session: u16, bytes: &[u8]) -> Result<Taken, NoMemory>
        requires known { session < sessions self.old.setup }
        ensures setup { self.new.setup ≡ self.old.setup }
        ensures heard { IfOk result (λ came. HasTaken self.old.setup session bytes.now (drop came.taken bytes.now)
            self.old.posts self.new.posts came.cause) }
        ensures taken { IfOk result (λ came. came.taken ≤ length bytes.now) }
    {
        let end = &mut self.ends[usize::from(session)];
        let Taken { taken, cause } = hear_at(self.alloc, &mut end.session, bytes)?;
        match cause {
            None => Ok(Taken { taken, cause: None }),
            Some(cause) => {
                self.close(session);
                Ok(Taken {
                    taken,
                    cause: Some(cause),
                })
            }
        }
    }

    /// Applies an input to the end of its session.
    pub(crate) fn apply(&mut self, input: Input<'_>) -> Result<Started<ItemCause>, NoMemory>
        requires known { session_of input < sessions self.old.setup }
        requires comes { Comes (λ i. is_idle (post self.old.posts i).phase ≡ false)
            (λ i. is_idle (post self.old.posts i).phase ≡ true) input }
        ensures setup { self.new.setup ≡ self.old.setup }
        ensures begins { IfOk result (λ started. (given : Beginning)
            × BeginsKeeping self.old.setup (session_of input.entry) (post self.old.posts (session_of input.entry)) []
            input.entry given started.cause (left_in input.entry started.taken)
            × HasBegun self.old.posts (session_of input.entry) given started.replies self.new.posts) }
        ensures taken { IfOk result (λ started. started.taken ≤ size_of input.entry) }
        ensures few { IfOk result (λ started. length (left_in input.entry started.taken) ≤ 65539) }
    {
        let alloc = self.alloc;
        match input {
            Input::Opened { session } => {
                let replies = self.greet_at(session)?;
                Ok(Started {
                    replies,
                    taken: 0,
                    cause: None,
                })
            }
            Input::Bytes { session, bytes } => {
                let Taken { taken, cause } = self.hear_on(session, bytes)?;
                Ok(Started {
                    replies: Items::new(alloc),
                    taken,
                    cause,
                })
            }
            Input::Closed { session } => {
                self.close(session);
                Ok(Started {
                    replies: Items::new(alloc),
                    taken: 0,
                    cause: None,
                })
            }
        }
    }
}
