//! Which chains the hops of chains name.
ghost use Rattle.std.specs.Prelude.{◌≡◌, ◌≤◌, ◌<◌, length, IfSome, Some};
ghost use Rattle.std.specs.Option.{ForSome};
ghost use Rattle.chain_expand.specs.Links.{place_of, place_named, with_mark, meets, HasNamed, IsLinked};

use crate::bounds::MOST_CHAINS;
use crate::hops;
use config_types::Config;
use ov_types::Name;

/// A mark for the place of each chain.
pub(crate) type Marks = [bool; MOST_CHAINS];

/// For the place of each chain the places that its hops name.
pub(crate) type Rows = [Marks; MOST_CHAINS];

/// The place of the first chain of a name.
pub(crate) fn place_of(config: &Config, name: &Name) -> Option<usize>
    ensures place { result ≡ place_of config.now name.now }
    ensures within { IfSome result (λ p. p < length config.now.chains) }
{
    config
        .chains
        .as_slice()
        .iter()
        .position(|d| d.name == *name)
}

/// The place of the chain that a hop names.
fn place_named(config: &Config, hop: &Name) -> Option<usize>
    ensures place { result ≡ place_named config.now hop.now }
    ensures within { IfSome result (λ p. p < length config.now.chains) }
{
    if hops::service_named(config, hop).is_some() {
        return None;
    }
    place_of(config, hop)
}

/// Marks a place, if there is one.
fn mark(marks: &mut Marks, place: Option<usize>)
    requires { ForSome place (λ p. p < 128) }
    ensures { marks.new ≡ with_mark marks.old place }
{
    if let Some(place) = place {
        marks[place] = true;
    }
}

/// The places that hops name.
fn row_of(config: &Config, hops: &[Name]) -> Marks
    requires { length config.now.chains ≤ 128 }
    ensures { HasNamed config.now hops.now result }
{
    let mut row = [false; MOST_CHAINS];
    for hop in hops {
        mark(&mut row, place_named(config, hop));
    }
    row
}

/// The places that the hops of each chain name.
pub(crate) fn links_of(config: &Config) -> Rows
    requires { length config.now.chains ≤ 128 }
    ensures { IsLinked config.now result }
{
    let mut rows = [[false; MOST_CHAINS]; MOST_CHAINS];
    for (index, chain) in config.chains.as_slice().iter().enumerate() {
        rows[index] = row_of(config, chain.hops.as_slice());
    }
    rows
}

/// Whether some place is marked in both.
pub(crate) fn do_meet(row: &Marks, marks: &Marks) -> bool
    ensures { result ≡ meets row.now marks.now }
{
    row.iter().zip(marks).any(|(a, b)| *a && *b)
}
