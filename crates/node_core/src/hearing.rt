//! What is heard on a session of items.
ghost use Rattle.std.specs.Prelude.{◌≡◌, ◌<◌, ◌≤◌, ◌∷◌, ◌++◌, [], List, drop, length, IfOk, IfSome, IsTrue};
ghost use Rattle.std.specs.List.{AllByRecursion};
ghost use Rattle.item_wire.specs.Happenings.{after, answer};
ghost use Rattle.item_wire.specs.Inputs.{may_send};
ghost use Rattle.item_wire.specs.Reading.{item_in};
ghost use Rattle.item_wire.specs.Records.{spelling};
ghost use Rattle.item_wire.specs.declared.event.ItemState.TheVariants.{Idle, Opened};
ghost use Rattle.item_wire.specs.declared.input.Came.{Came};
ghost use Rattle.item_wire.specs.declared.item.Item.TheVariants.{Hello};
ghost use Rattle.node_core.specs.Told.{IsWritable};
ghost use Rattle.node_core.specs.Left.{Leaves};
ghost use Rattle.node_core.specs.Hearing.{Brings, Hears, came_with, cause_in, heard, records_in};

use crate::spelling::item_octets;
use item_wire::{Item, ItemCause, ItemEvent, ItemRefusal, ItemSession, frame, read_item};
use ov_types::{Items, Name, NoMemory};
use std::alloc::Global;

/// How many octets of a record say its length.
const LENGTH_SIZE: usize = 4;

/// What octets brought to a session.
#[derive(Drop)]
pub struct HeardRecords {
    /// The records that were handed out, in order.
    pub records: Vec<Item>,
    /// How many octets were taken, from the first on: all of them where the session went down. Those behind them are
    /// part of a record, which is to be heard once more octets came.
    pub taken: usize,
    /// Why the session went down, where it did.
    pub cause: Option<ItemCause>,
}

/// Opens an end of the node of this name: its hello is to be sent.
pub fn greet(
    alloc: Global,
    session: &mut ItemSession,
    me: &Name,
) -> Result<Items<Items<u8>>, NoMemory>
    requires idle { session.old.state ≡ Idle }
    ensures opened { session.new ≡ record session.old { state = Opened } }
    ensures hello { IfOk result (λ replies. replies ≡ spelling (Hello me.now) ∷ []) }
{
    let _event = session.opened();
    // (for its clause: a name has the form of names)
    let _text = me.text();
    let hello = item_octets(alloc, &Item::Hello { name: *me })?;
    let mut replies = Vec::new(alloc);
    replies.push(hello)?;
    Ok(Items::from_vec(replies))
}

/// Hears the octets of JSON of one record.
fn take_json(alloc: Global, session: &mut ItemSession, json: &[u8]) -> Result<ItemEvent, NoMemory>
    requires { length json.now ≤ 65536 }
    ensures state { IfOk result (λ event. session.new ≡ after session.old (came_with session.old (item_in json.now))) }
    ensures event { IfOk result (λ event. event ≡ answer session.old (came_with session.old (item_in json.now))) }
    ensures peer { session.new.peer ≡ session.old.peer }
    ensures from { session.new.from ≡ session.old.from }
    ensures sent { IfOk result
        (λ event. AllByRecursion (λ i. IsTrue (may_send session.old.from i)) (records_in event)) }
    ensures writable { IfOk result (λ event. AllByRecursion IsWritable (records_in event)) }
{
    match read_item(alloc, json) {
        Ok(item) => Ok(session.take_item(item)),
        Err(ItemRefusal::Fault(fault)) => Ok(session.fault(fault)),
        Err(ItemRefusal::NoMemory) => Err(NoMemory),
    }
}

/// Hears the first record of octets, where they have one: what it made of the session, and how many octets it was.
fn take_record(
    alloc: Global,
    session: &mut ItemSession,
    bytes: &[u8],
) -> Result<Option<(ItemEvent, usize)>, NoMemory>
    ensures brings { IfOk result (λ brought. Brings session.old bytes.now session.new brought) }
    ensures some { IfOk result (λ brought. IfSome brought (λ b. 0 < b.1)) }
    ensures within { IfOk result (λ brought. IfSome brought (λ b. b.1 ≤ length bytes.now)) }
    ensures peer { session.new.peer ≡ session.old.peer }
    ensures from { session.new.from ≡ session.old.from }
    ensures sent { IfOk result (λ brought. IfSome brought
        (λ b. AllByRecursion (λ i. IsTrue (may_send session.old.from i)) (records_in b.0))) }
    ensures writable { IfOk result (λ brought. IfSome brought (λ b. AllByRecursion IsWritable (records_in b.0))) }
{
    match frame(bytes) {
        Err(long) => Ok(Some((session.too_long(long), bytes.len()))),
        Ok(None) => Ok(None),
        Ok(Some(json)) => {
            let event = take_json(alloc, session, json)?;
            Ok(Some((event, LENGTH_SIZE + json.len())))
        }
    }
}

/// Keeps the record that was handed out, where one was, and says why the session went down, where it did.
fn keep(records: &mut Vec<Item>, event: ItemEvent) -> Result<Option<ItemCause>, NoMemory>
    ensures records { IfOk result (λ cause. records.new.items ≡ records.old.items ++ records_in event) }
    ensures cause { IfOk result (λ cause. cause ≡ cause_in event) }
{
    match event {
        ItemEvent::Record(item) => {
            records.push(item)?;
            Ok(None)
        }
        ItemEvent::Down { cause } => Ok(Some(cause)),
        _ => Ok(None),
    }
}

/// The octets behind a first part of a size.
fn past(bytes: &[u8], size: usize) -> &[u8]
    requires { size ≤ length bytes.now }
    ensures { result.now ≡ drop size bytes.now }
{
    &bytes[size..]
}

/// Hears octets: each record of them in order, up to one that takes the session down. Octets at the end that are no
/// whole record are left. Where memory runs out, some of the records may have been heard.
pub fn hear(
    alloc: Global,
    session: &mut ItemSession,
    bytes: &[u8],
) -> Result<HeardRecords, NoMemory>
    ensures heard { IfOk result (λ w. (inputs : List Came) × Hears session.old bytes.now inputs
        × (w.records.items ≡ (heard session.old inputs).records) × (w.cause ≡ (heard session.old inputs).cause)
        × (session.new.state ≡ (heard session.old inputs).state)) }
    ensures left { IfOk result (λ w. (inputs : List Came) × Leaves session.old bytes.now inputs (drop w.taken bytes.now)
        × (w.records.items ≡ (heard session.old inputs).records) × (w.cause ≡ (heard session.old inputs).cause)
        × (session.new.state ≡ (heard session.old inputs).state)) }
    ensures taken { IfOk result (λ w. w.taken ≤ length bytes.now) }
    ensures peer { session.new.peer ≡ session.old.peer }
    ensures from { session.new.from ≡ session.old.from }

    // What was handed out may be sent there, and can be written again.
    ensures sent { IfOk result (λ w. AllByRecursion (λ i. IsTrue (may_send session.old.from i)) w.records.items) }
    ensures writable { IfOk result (λ w. AllByRecursion IsWritable w.records.items) }
{
    let mut records = Vec::new(alloc);
    let mut rest = bytes;
    'hearing: while let Some((event, size)) = take_record(alloc, session, rest)? {
        rest = past(rest, size);
        if let Some(cause) = keep(&mut records, event)? {
            return Ok(HeardRecords {
                records,
                taken: bytes.len(),
                cause: Some(cause),
            });
        }
    }
    Ok(HeardRecords {
        records,
        taken: bytes.len() - rest.len(),
        cause: None,
    })
}
