//! What an input makes of the end of its session.
ghost use Rattle.std.specs.Prelude.{◌≡◌, ◌<◌, ◌≤◌, ◌∷◌, [], IfOk, IfSome, IsTrue, OnOk, drop, length, map, slice_set};
ghost use Rattle.std.specs.Prelude.{None, Some, is_some, true, false};
ghost use Rattle.std.specs.List.{AllByRecursion, filter_map, list_any};
ghost use Rattle.ov_sync.specs.Keyed.{after};
ghost use Rattle.item_wire.specs.Inputs.{is_of_control};
ghost use Rattle.item_wire.specs.Records.{spelling};
ghost use Rattle.item_wire.specs.declared.event.ItemFrom.TheVariants.{Control};
ghost use Rattle.item_wire.specs.declared.item.Item.TheVariants.{Hello};
ghost use Rattle.node_core.specs.Begun.{HasBegun};
ghost use Rattle.node_core.specs.Keeping.{left_in, size_of};
ghost use Rattle.node_core.specs.Whole.{Comes, session_of};
ghost use Rattle.node_core.specs.Told.{AllFit, IsWritable, change_of, down_of};
ghost use Rattle.node_core.specs.NodeModel.Step.{Beginning, Idle, Opened, post};
ghost use Rattle.agent_node.specs.Beginning.{BeginsKeeping};
ghost use Rattle.agent_node.specs.Core.{holdings, is_idle, sessions};
ghost use Rattle.agent_node.specs.Ends.{HeldFits, whom};
ghost use Rattle.agent_node.specs.Applying.{AreLed, AreListed, HasHeard, HasKeptRoutes, HasLed, HasListed, HasTaken};
ghost use Rattle.agent_node.specs.Applying.{HaveKeptRoutes, HaveKeptSlice};
ghost use Rattle.agent_node.specs.Applying.{changed_by};
ghost use Rattle.agent_tables.specs.Listed.{list_key};
ghost use Rattle.agent_tables.specs.Touched.{SameRoutes, route_key};

use crate::ends::AgentEnds;
use agent_tables::Hearing;
use item_wire::{Item, ItemCause, ItemState};
use node_core::{HeardRecords, Started, down_change, greet, hear};
use ov_link::Input;
use ov_sync::SyncIn;
use ov_types::{DownKey, DownValue, InstanceId, Items, NoMemory, Prefix};
use std::alloc::Global;

type Held = SyncIn<DownKey, DownValue>;

/// Applies a record of a control node to what is held of it.
fn apply(held: &mut Held, item: Item) -> Result<(), NoMemory>
    requires of_control { IsTrue (is_of_control item) }
    requires writable { IsWritable item }
    requires fits { AllFit (down_of held.old) }
    ensures changed { OnOk result (down_of held.new ≡ changed_by (change_of item) (down_of held.old)) }
    ensures fits { AllFit (down_of held.new) }
{
    if let Some(delta) = down_change(item) {
        held.apply(delta)?;
    }
    Ok(())
}

/// Applies records in order.
fn apply_all(held: &mut Held, items: Vec<Item>) -> Result<(), NoMemory>
    requires of_control { AllByRecursion (λ i. IsTrue (is_of_control i)) items.items }
    requires writable { AllByRecursion IsWritable items.items }
    requires fits { AllFit (down_of held.old) }
    ensures after { OnOk result (down_of held.new ≡ after (down_of held.old) (filter_map change_of items.items)) }
    ensures fits { AllFit (down_of held.new) }
{
    for item in items {
        apply(held, item)?;
    }
    Ok(())
}

/// The instance and prefix of the route that a record puts or drops; none where it does something else.
fn route_of(item: &Item) -> Option<(InstanceId, Prefix)>
    ensures { result ≡ route_key (change_of item.now) }
{
    match item {
        Item::Route {
            instance,
            prefix,
            ..
        } => Some((*instance, *prefix)),
        Item::Unroute { instance, prefix } => Some((*instance, *prefix)),
        _ => None,
    }
}

/// The routes that records put or drop, record by record; none where one of them does something else.
fn routes_of(alloc: Global, records: &[Item]) -> Result<Option<Vec<(InstanceId, Prefix)>>, NoMemory>
    ensures { IfOk result (λ routes. IfSome routes (λ keys.
        map (λ i. route_key (change_of i)) records.now ≡ map Some keys.items)) }
{
    let mut routes = Vec::new(alloc);
    for record in records {
        let Some(route) = route_of(record) else {
            return Ok(None);
        };
        routes.push(route)?;
    }
    Ok(Some(routes))
}

/// The routes that the records of a session put or drop, where it stays opened or up and the records do nothing else.
fn routes_alone(
    alloc: Global,
    before: ItemState,
    after: ItemState,
    items: &[Item],
) -> Result<Option<Vec<(InstanceId, Prefix)>>, NoMemory>
    ensures state { IfOk result (λ routes. IfSome routes (λ keys. after ≡ before)) }
    ensures routes { IfOk result (λ routes. IfSome routes (λ keys.
        map (λ i. route_key (change_of i)) items.now ≡ map Some keys.items)) }
{
    match (before, after) {
        (ItemState::Opened, ItemState::Opened) => routes_of(alloc, items),
        (ItemState::Up, ItemState::Up) => routes_of(alloc, items),
        _ => Ok(None),
    }
}

/// Whether one of these records puts or drops a route.
fn has_route(records: &[Item]) -> bool
    ensures { result ≡ list_any (λ i. is_some (route_key (change_of i))) records.now }
{
    for record in records {
        if route_of(record).is_some() {
            return true;
        }
    }
    false
}

/// Whether none of the records of a session that stays opened or up puts or drops a route.
fn routes_stay(before: ItemState, after: ItemState, items: &[Item]) -> bool
    ensures state { IsTrue result → after ≡ before }
    ensures routes { IsTrue result → list_any (λ i. is_some (route_key (change_of i))) items.now ≡ false }
{
    match (before, after) {
        (ItemState::Opened, ItemState::Opened) => !has_route(items),
        (ItemState::Up, ItemState::Up) => !has_route(items),
        _ => false,
    }
}

/// The networks of the access list that a record puts or drops; none where it does something else.
fn list_of(item: &Item) -> Option<(InstanceId, InstanceId)>
    ensures { result ≡ list_key (change_of item.now) }
{
    match item {
        Item::Acl { from, to, .. } => Some((InstanceId(*from), InstanceId(*to))),
        Item::NoAcl { from, to } => Some((InstanceId(*from), InstanceId(*to))),
        _ => None,
    }
}

/// The networks of the access list that the one record of a session puts or drops, where the session stays up and the
/// record does nothing else.
fn list_alone(
    before: ItemState,
    after: ItemState,
    records: &[Item],
) -> Option<(InstanceId, InstanceId)>
    ensures state { IfSome result (λ n. after ≡ before) }
    ensures list { IfSome result (λ n. map (λ i. list_key (change_of i)) records.now ≡ Some n ∷ []) }
{
    match (before, after) {
        (ItemState::Up, ItemState::Up) => match records {
            [record] => list_of(record),
            _ => None,
        },
        _ => None,
    }
}

/// The networks of an access list, where it is of the slice in use.
fn list_in_use(
    list: Option<(InstanceId, InstanceId)>,
    in_use: bool,
) -> Option<(InstanceId, InstanceId)>
    ensures { IfSome result (λ n. list ≡ Some n) }
{
    if in_use { list } else { None }
}

/// Whether records leave the slice in use as it was, with every route: where they put and drop no route on a session
/// whose slice is not the one in use.
fn slice_stays(routes_stay: bool, in_use: bool) -> bool
    ensures routes { IsTrue result → IsTrue routes_stay }
    ensures slice { IsTrue result → in_use ≡ false }
{
    if in_use { false } else { routes_stay }
}

/// What octets came to at an end.
#[derive(Drop)]
struct Taken {
    /// How many octets were taken: all but those of a record that is not whole.
    taken: usize,
    /// Why the octets took the session down, where they did.
    cause: Option<ItemCause>,
    /// The routes that the records put or dropped, where they did nothing else.
    routes: Option<Vec<(InstanceId, Prefix)>>,
    /// Whether the records put and dropped no route, and left the session as it was.
    routes_stay: bool,
    /// The networks of the access list that they put or dropped, where they did nothing else.
    list: Option<(InstanceId, InstanceId)>,
}

/// Hears octets at an end, and applies their records, where none of them takes the session down.
fn hear_at(alloc: Global, hearing: &mut Hearing, bytes: &[u8]) -> Result<Taken, NoMemory>
    requires from { hearing.old.session.from ≡ Control }
    requires fits { HeldFits hearing.old }
    ensures heard { IfOk result (λ came. HasHeard hearing.old bytes.now (drop came.taken bytes.now) hearing.new
        came.cause) }
    ensures taken { IfOk result (λ came. came.taken ≤ length bytes.now) }
    ensures led { IfOk result (λ came. IfSome came.routes (λ keys. HasLed keys.items hearing.old hearing.new)) }
    ensures stay { IfOk result (λ came. IsTrue came.routes_stay → HasKeptRoutes hearing.old hearing.new) }
    ensures list { IfOk result (λ came. IfSome came.list (λ n. HasListed n hearing.old hearing.new)) }
    ensures whom { whom hearing.new ≡ whom hearing.old }
    ensures fits { HeldFits hearing.new }
{
    let before = hearing.session.state();
    let HeardRecords {
        records,
        taken,
        cause,
    } = hear(alloc, &mut hearing.session, bytes)?;
    if cause.is_some() {
        return Ok(Taken {
            taken,
            cause,
            routes: None,
            routes_stay: false,
            list: None,
        });
    }
    let after = hearing.session.state();
    let routes = routes_alone(alloc, before, after, &records)?;
    let routes_stay = routes_stay(before, after, &records);
    let list = list_alone(before, after, &records);
    apply_all(&mut hearing.held, records)?;
    Ok(Taken {
        taken,
        cause: None,
        routes,
        routes_stay,
        list,
    })
}

/// What an input came to at the end of its session.
#[derive(Drop)]
pub(crate) struct Applied {
    pub(crate) started: Started<ItemCause>,
    /// The routes that it put or dropped, where it did nothing else.
    pub(crate) routes: Option<Vec<(InstanceId, Prefix)>>,
    /// Whether it put and dropped no route, and left its session as it was.
    pub(crate) routes_stay: bool,
    /// Whether it did so on a session whose slice is not in use.
    pub(crate) slice_stays: bool,
    /// The networks of the access list of the slice in use that it put or dropped, where it did nothing else.
    pub(crate) list: Option<(InstanceId, InstanceId)>,
}

/// An input that has no records, and these replies.
fn without_records(replies: Items<Items<u8>>) -> Applied
    ensures { result ≡ record {
      started = record { replies = replies; taken = 0; cause = None };
      routes = None;
      routes_stay = false;
      slice_stays = false;
      list = None;
    } }
{
    Applied {
        started: Started {
            replies,
            taken: 0,
            cause: None,
        },
        routes: None,
        routes_stay: false,
        slice_stays: false,
        list: None,
    }
}

impl AgentEnds {
    /// Opens an end. Gives the hello that is to be sent.
    fn greet_at(&mut self, session: u16) -> Result<Items<Items<u8>>, NoMemory>
        requires known { session < sessions self.old.plan }
        requires idle { (post self.old.posts session).phase ≡ Idle }
        ensures plan { self.new.plan ≡ self.old.plan }
        ensures hello { IfOk result (λ replies. replies ≡ spelling (Hello self.old.plan.me.name) ∷ []) }
        ensures opened { self.new.posts
            ≡ slice_set self.old.posts session (record (post self.old.posts session) { phase = Opened }) }
    {
        let hearing = &mut self.hearings[usize::from(session)];
        greet(self.alloc, &mut hearing.session, &self.plan.me.name)
    }

    /// Hears octets at an end, which is closed where they take its session down.
    fn hear_on(&mut self, session: u16, bytes: &[u8]) -> Result<Taken, NoMemory>
        requires known { session < sessions self.old.plan }
        ensures plan { self.new.plan ≡ self.old.plan }
        ensures heard { IfOk result (λ came. HasTaken self.old.plan session bytes.now (drop came.taken bytes.now)
            self.old.posts self.new.posts came.cause) }
        ensures taken { IfOk result (λ came. came.taken ≤ length bytes.now) }
        ensures led { IfOk result (λ came. IfSome came.routes (λ keys.
            AreLed keys.items session self.old.posts self.new.posts)) }
        ensures stay { IfOk result (λ came. IsTrue came.routes_stay
            → HaveKeptRoutes session self.old.posts self.new.posts) }
        ensures list { IfOk result (λ came. IfSome came.list (λ n. AreListed n session self.old.posts self.new.posts)) }
    {
        let Taken {
            taken,
            cause,
            routes,
            routes_stay,
            list,
        } = hear_at(self.alloc, &mut self.hearings[usize::from(session)], bytes)?;
        match cause {
            None => Ok(Taken {
                taken,
                cause: None,
                routes,
                routes_stay,
                list,
            }),
            Some(cause) => {
                self.close(session);
                Ok(Taken {
                    taken,
                    cause: Some(cause),
                    routes: None,
                    routes_stay: false,
                    list: None,
                })
            }
        }
    }

    /// Applies an input to the end of its session.
    pub(crate) fn apply(&mut self, input: Input<'_>) -> Result<Applied, NoMemory>
        requires known { session_of input < sessions self.old.plan }
        requires comes { Comes (λ i. is_idle (post self.old.posts i).phase ≡ false)
            (λ i. is_idle (post self.old.posts i).phase ≡ true) input }
        ensures plan { self.new.plan ≡ self.old.plan }
        ensures begins { IfOk result (λ applied. (given : Beginning)
            × BeginsKeeping self.old.plan (session_of input.entry) (post self.old.posts (session_of input.entry)) []
            input.entry given applied.started.cause (left_in input.entry applied.started.taken)
            × HasBegun self.old.posts (session_of input.entry) given applied.started.replies self.new.posts) }
        ensures taken { IfOk result (λ applied. applied.started.taken ≤ size_of input.entry) }
        ensures few { IfOk result (λ applied. length (left_in input.entry applied.started.taken) ≤ 65539) }
        ensures led { IfOk result (λ applied. IfSome applied.routes (λ keys.
            AreLed keys.items (session_of input.entry) self.old.posts self.new.posts)) }
        ensures stay { IfOk result (λ applied. IsTrue applied.routes_stay
            → SameRoutes (holdings self.old.posts) (holdings self.new.posts)) }
        ensures slice { IfOk result (λ applied. IsTrue applied.slice_stays
            → HaveKeptSlice (session_of input.entry) self.old.posts self.new.posts) }
        ensures list { IfOk result (λ applied. IfSome applied.list (λ n.
            AreListed n (session_of input.entry) self.old.posts self.new.posts)) }
    {
        let alloc = self.alloc;
        match input {
            Input::Opened { session } => {
                let replies = self.greet_at(session)?;
                Ok(without_records(replies))
            }
            Input::Bytes { session, bytes } => {
                let in_use = self.is_in_use(session);
                let Taken {
                    taken,
                    cause,
                    routes,
                    routes_stay,
                    list,
                } = self.hear_on(session, bytes)?;
                Ok(Applied {
                    started: Started {
                        replies: Items::new(alloc),
                        taken,
                        cause,
                    },
                    routes,
                    routes_stay,
                    slice_stays: slice_stays(routes_stay, in_use),
                    list: list_in_use(list, in_use),
                })
            }
            Input::Closed { session } => {
                self.close(session);
                Ok(without_records(Items::new(alloc)))
            }
        }
    }
}
