//! The services of hops, in place of the hops, as long as there is room.
ghost use Rattle.std.specs.Prelude.{[], ◌∷◌, ◌≤◌, ◌<◌, length};
ghost use Rattle.chain_expand.specs.Room.{IsAppended, AreBarren};
ghost use Rattle.chain_expand.specs.Expansion.{services_within};
ghost use Rattle.chain_expand.specs.Links.{hops_at};
ghost use Rattle.std.specs.List.{flat_map};

use crate::bounds::MOST_CHAINS;
use crate::found::Found;
use crate::{hops, links};
use config_types::{Config, Service};
use ov_types::Name;

/// For the place of each chain a number of depths, below which the chain is known to have no service.
pub(crate) type Depths = [usize; MOST_CHAINS];

/// Whether what was to be appended had room.
pub(crate) enum Room {
    Fits,
    Full,
}

/// Appends a service.
fn append_service(service: &Service, found: &mut Found) -> Room
    ensures { IsAppended (service.now ∷ []) found.old found.new result }
{
    if found.is_full() {
        return Room::Full;
    }
    found.push(*service);
    Room::Fits
}

/// Appends the services of a hop, whose chains are at most `depth` deep.
#[cycle(append)]
#[tactic(auto, using(crate::proofs::Expansions::within))]
fn append_hop(
    config: &Config,
    depth: usize,
    hop: &Name,
    found: &mut Found,
    barren: &mut Depths,
) -> Room
    requires few { length config.now.chains ≤ 128 }
    requires deep { depth ≤ 128 }
    requires barren { AreBarren config.now barren.old }
    ensures appended { IsAppended (services_within depth config.now hop.now) found.old found.new result }
    ensures barren { AreBarren config.now barren.new }
{
    if let Some(service) = hops::service_named(config, hop) {
        return append_service(service, found);
    }
    if depth == 0 {
        return Room::Fits;
    }
    match links::place_of(config, hop) {
        None => Room::Fits,
        Some(place) => append_chain(config, depth - 1, place, found, barren),
    }
}

/// Appends the services of the chain at a place, unless it is known to have none.
#[cycle(append)]
fn append_chain(
    config: &Config,
    depth: usize,
    place: usize,
    found: &mut Found,
    barren: &mut Depths,
) -> Room
    requires few { length config.now.chains ≤ 128 }
    requires deep { depth ≤ 128 }
    requires place { place < length config.now.chains }
    requires barren { AreBarren config.now barren.old }
    ensures appended { IsAppended (flat_map (services_within depth config.now) (hops_at config.now place))
        found.old found.new result }
    ensures barren { AreBarren config.now barren.new }
{
    if depth < barren[place] {
        return Room::Fits;
    }
    let before = found.len();
    match append_hops(config, depth, hops::hops_at(config, place), found, barren) {
        Room::Full => Room::Full,
        Room::Fits => {
            if found.len() == before {
                barren[place] = depth + 1;
            }
            Room::Fits
        }
    }
}

/// Appends the services of hops.
#[cycle(append)]
pub(crate) fn append_hops(
    config: &Config,
    depth: usize,
    hops: &[Name],
    found: &mut Found,
    barren: &mut Depths,
) -> Room
    requires few { length config.now.chains ≤ 128 }
    requires deep { depth ≤ 128 }
    requires barren { AreBarren config.now barren.old }
    ensures appended { IsAppended (flat_map (services_within depth config.now) hops.now) found.old found.new result }
    ensures barren { AreBarren config.now barren.new }
{
    for hop in hops {
        match append_hop(config, depth, hop, found, barren) {
            Room::Fits => {}
            Room::Full => return Room::Full,
        }
    }
    Room::Fits
}
