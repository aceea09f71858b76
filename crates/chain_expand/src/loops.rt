//! Loops of chains.
ghost use Rattle.std.specs.Prelude.{◌≡◌, ℕ, List, ◌≤◌, ◌<◌, ◌-◌, ◌&&◌, ◌||◌, ◌==◌, length, find, option_map};
ghost use Rattle.std.specs.Prelude.{slice_index_or, Some, []};
ghost use Rattle.ov_types.specs.First.{same_name};
ghost use Rattle.chain_expand.specs.Expansion.{leads, loops, loop_of};
ghost use Rattle.chain_expand.specs.Links.{place_of, meets, IsLinked, IsReached, IsRound};

use crate::bounds::MOST_CHAINS;
use crate::links::{Marks, Rows, do_meet, links_of, place_of};
use config_types::Config;
use ov_types::Name;

/// Whether a place is the target, or leads to a marked one.
fn is_next(rows: &Rows, target: usize, place: usize, marks: &Marks) -> bool
    requires { place < 128 }
    ensures { result ≡ (place == target || meets (slice_index_or rows.now place []) marks.now) }
{
    if place == target {
        return true;
    }
    do_meet(&rows[place], marks)
}

/// The marks one round on.
fn round(rows: &Rows, target: usize, marks: &Marks) -> Marks
    ensures { IsRound target rows.now marks.now result }
{
    let mut next = [false; MOST_CHAINS];
    for (place, mark) in next.iter_mut().enumerate() {
        *mark = is_next(rows, target, place, marks);
    }
    next
}

/// The places of the target and of all chains that lead to it.
fn reached(config: &Config, rows: &Rows, target: usize) -> Marks
    requires few { length config.now.chains ≤ 128 }
    requires linked { IsLinked config.now rows.now }
    requires within { target < length config.now.chains }
    ensures { IsReached config.now target (length config.now.chains - 1) result }
{
    let mut marks = [false; MOST_CHAINS];
    marks[target] = true;
    for _ in 1..config.chains.len() {
        let next = round(rows, target, &marks);
        if next == marks {
            return marks;
        }
        marks = next;
    }
    marks
}

/// Whether a chain leads to the target that the marks are of.
fn leads_to(config: &Config, rows: &Rows, target: usize, marks: &Marks, from: &Name) -> bool
    requires few { length config.now.chains ≤ 128 }
    requires linked { IsLinked config.now rows.now }
    requires within { target < length config.now.chains }
    requires reached { IsReached config.now target (length config.now.chains - 1) marks.now }
    ensures { (to : List ℕ) → place_of config.now to ≡ Some target → result ≡ leads config.now from.now to }
{
    match place_of(config, from) {
        None => false,
        Some(place) => do_meet(&rows[place], marks),
    }
}

/// Whether a chain leads back to itself.
fn does_loop(config: &Config, rows: &Rows, chain: &Name) -> bool
    requires few { length config.now.chains ≤ 128 }
    requires linked { IsLinked config.now rows.now }
    ensures { result ≡ loops config.now chain.now }
{
    match place_of(config, chain) {
        None => false,
        Some(target) => {
            let marks = reached(config, rows, target);
            leads_to(config, rows, target, &marks, chain)
        }
    }
}

/// Whether the chain at the target is the one of a name, or is led to by it.
fn is_along(
    config: &Config,
    rows: &Rows,
    target: usize,
    marks: &Marks,
    name: &Name,
    chain: &Name,
) -> bool
    requires few { length config.now.chains ≤ 128 }
    requires linked { IsLinked config.now rows.now }
    requires within { target < length config.now.chains }
    requires reached { IsReached config.now target (length config.now.chains - 1) marks.now }
    requires place { place_of config.now chain.now ≡ Some target }
    ensures { result ≡ (same_name chain.now name.now || leads config.now name.now chain.now) }
{
    if chain == name {
        return true;
    }
    leads_to(config, rows, target, marks, name)
}

/// Whether a chain loops, and is the one of a name or is led to by it.
fn is_loop_of(config: &Config, rows: &Rows, name: &Name, chain: &Name) -> bool
    requires few { length config.now.chains ≤ 128 }
    requires linked { IsLinked config.now rows.now }
    ensures { result ≡ ((same_name chain.now name.now || leads config.now name.now chain.now)
        && loops config.now chain.now) }
{
    match place_of(config, chain) {
        None => false,
        Some(target) => {
            let marks = reached(config, rows, target);
            is_along(config, rows, target, &marks, name, chain)
                && leads_to(config, rows, target, &marks, chain)
        }
    }
}

/// The name of the first chain in order that leads back to itself.
pub fn first_loop(config: &Config) -> Option<Name>
    requires { length config.now.chains ≤ 128 }
    ensures { result ≡ option_map (λ d. d.name) (find (λ d. loops config.now d.name) config.now.chains) }
{
    let rows = links_of(config);
    let first = config
        .chains
        .as_slice()
        .iter()
        .find(|d| does_loop(config, &rows, &d.name))?;
    Some(first.name)
}

/// The name of the first chain in order that loops, of the one of a name and those that it leads to.
pub(crate) fn first_loop_of(config: &Config, name: &Name) -> Option<Name>
    requires { length config.now.chains ≤ 128 }
    ensures { result ≡ option_map (λ d. d.name) (loop_of config.now name.now) }
{
    let rows = links_of(config);
    let first = config
        .chains
        .as_slice()
        .iter()
        .find(|d| is_loop_of(config, &rows, name, &d.name))?;
    Some(first.name)
}
