//! Regions that touch and say the same, as one where they make one box.
ghost use Rattle.std.specs.Prelude.{◌≡◌, ◌&&◌, ◌++◌, ◌∷◌, [], List, IfOk, OnOk, is_none};
ghost use Rattle.std.specs.List.{list_all};
ghost use Rattle.policy_regions.specs.declared.region.DecidedRegion.{DecidedRegion};
ghost use Rattle.ov_types.specs.First.{◌<|>◌};
ghost use Rattle.policy_regions.specs.Joining.{all_among, among, both_ranges, box_of, goes_on, joined, joint_box};
ghost use Rattle.policy_regions.specs.Joining.{same_decision, same_effect, same_range, say_the_same};

use crate::region::{DecidedRegion, Effect, Region};
use ov_types::{NoMemory, Range16};
use policy_rules::Decision;
use std::alloc::Global;

pub(crate) fn is_same_decision(decision: &Option<Decision>, after: &Option<Decision>) -> bool
    ensures { result ≡ same_decision decision.now after.now }
{
    match (decision, after) {
        (None, None) => true,
        (Some(one), Some(two)) => {
            one.rule.sequence == two.rule.sequence
                && one.rule.position == two.rule.position
                && one.mirrored == two.mirrored
        }
        _ => false,
    }
}

pub(crate) fn is_same_effect(effect: &Effect, after: &Effect) -> bool
    ensures { result ≡ same_effect effect.now after.now }
{
    match (effect, after) {
        (Effect::Passes, Effect::Passes) | (Effect::Drops, Effect::Drops) => true,
        (Effect::Leads { chain: one }, Effect::Leads { chain: two }) => one == two,
        _ => false,
    }
}

pub(crate) fn is_same_range(range: &Range16, after: &Range16) -> bool
    ensures { result ≡ same_range range.now after.now }
{
    range.lo == after.lo && range.hi == after.hi
}

/// Whether one range begins where another ends.
fn goes_on(range: &Range16, after: &Range16) -> bool
    ensures { result ≡ goes_on range.now after.now }
{
    u32::from(range.hi) + 1 == u32::from(after.lo) && range.lo <= after.lo && range.hi <= after.hi
}

fn both_ranges(range: &Range16, after: &Range16) -> Range16
    ensures { result ≡ both_ranges range.now after.now }
{
    Range16 {
        lo: range.lo,
        hi: after.hi,
    }
}

fn is_along_protocols(region: &Region, after: &Region) -> bool
    ensures { result ≡ (goes_on region.now.protocols after.now.protocols
        && (same_range region.now.source_ports after.now.source_ports
        && same_range region.now.destination_ports after.now.destination_ports)) }
{
    goes_on(&region.protocols, &after.protocols)
        && (is_same_range(&region.source_ports, &after.source_ports)
            && is_same_range(&region.destination_ports, &after.destination_ports))
}

fn is_along_source_ports(region: &Region, after: &Region) -> bool
    ensures { result ≡ (goes_on region.now.source_ports after.now.source_ports
        && (same_range region.now.protocols after.now.protocols
        && same_range region.now.destination_ports after.now.destination_ports)) }
{
    goes_on(&region.source_ports, &after.source_ports)
        && (is_same_range(&region.protocols, &after.protocols)
            && is_same_range(&region.destination_ports, &after.destination_ports))
}

fn is_along_destination_ports(region: &Region, after: &Region) -> bool
    ensures { result ≡ (goes_on region.now.destination_ports after.now.destination_ports
        && (same_range region.now.protocols after.now.protocols
        && same_range region.now.source_ports after.now.source_ports)) }
{
    goes_on(&region.destination_ports, &after.destination_ports)
        && (is_same_range(&region.protocols, &after.protocols)
            && is_same_range(&region.source_ports, &after.source_ports))
}

/// The box of two regions of which the second goes on where the first ends.
fn box_of(region: &Region, after: &Region) -> Option<Region>
    ensures { result ≡ box_of region.now after.now }
{
    if is_along_protocols(region, after) {
        return Some(Region {
            protocols: both_ranges(&region.protocols, &after.protocols),
            ..*region
        });
    }
    if is_along_source_ports(region, after) {
        return Some(Region {
            source_ports: both_ranges(&region.source_ports, &after.source_ports),
            ..*region
        });
    }
    if is_along_destination_ports(region, after) {
        return Some(Region {
            destination_ports: both_ranges(&region.destination_ports, &after.destination_ports),
            ..*region
        });
    }
    None
}

/// The box of two regions, whichever goes on where the other ends.
fn box_of_either(region: &Region, other: &Region) -> Option<Region>
    ensures { result ≡ (box_of region.now other.now <|> box_of other.now region.now) }
{
    match box_of(region, other) {
        Some(both) => Some(both),
        None => box_of(other, region),
    }
}

fn say_the_same(region: &DecidedRegion, other: &DecidedRegion) -> bool
    ensures { result ≡ say_the_same region.now other.now }
{
    is_same_decision(&region.decision, &other.decision)
        && is_same_effect(&region.effect, &other.effect)
}

/// The box of two regions, where they say the same and make one.
fn joint_box(region: &DecidedRegion, other: &DecidedRegion) -> Option<Region>
    ensures { result ≡ joint_box region.now other.now }
{
    if say_the_same(region, other) {
        return box_of_either(&region.region, &other.region);
    }
    None
}

/// Joins a region with another, where they say the same and make one box, or else leaves the other apart.
fn join_or_push(
    apart: &mut Vec<DecidedRegion>,
    region: &mut DecidedRegion,
    other: &DecidedRegion,
) -> Result<(), NoMemory>
    ensures { (rest : List DecidedRegion) → OnOk result (apart.new.items ++ among region.new rest
        ≡ apart.old.items ++ among region.old (other.now ∷ rest)) }
{
    match joint_box(region, other) {
        Some(both) => region.region = both,
        None => apart.push(DecidedRegion {
            region: other.region,
            decision: other.decision,
            effect: other.effect,
        })?,
    }
    Ok(())
}

/// A region among others: joined with those of them that it makes one box with, and behind the rest.
fn joined_among(
    alloc: Global,
    region: &DecidedRegion,
    others: &[DecidedRegion],
) -> Result<Vec<DecidedRegion>, NoMemory>
    ensures { IfOk result (λ v. v.items ≡ among region.now others.now) }
{
    let mut region = *region;
    let mut apart = Vec::new(alloc);
    for other in others {
        join_or_push(&mut apart, &mut region, other)?;
    }
    apart.push(region)?;
    Ok(apart)
}

/// Whether a region makes one box with none of others.
fn stays_apart(region: &DecidedRegion, others: &[DecidedRegion]) -> bool
    ensures { result ≡ list_all (λ s. is_none (joint_box region.now s)) others.now }
{
    others
        .iter()
        .all(|other| joint_box(region, other).is_none())
}

/// Puts a region among others.
fn among(
    alloc: Global,
    region: &DecidedRegion,
    others: Vec<DecidedRegion>,
) -> Result<Vec<DecidedRegion>, NoMemory>
    ensures { IfOk result (λ v. v.items ≡ among region.now others.items) }
{
    if stays_apart(region, &others) {
        let mut apart = others;
        apart.push(*region)?;
        return Ok(apart);
    }
    joined_among(alloc, region, &others)
}

/// Regions among one another.
fn all_among(alloc: Global, regions: &[DecidedRegion]) -> Result<Vec<DecidedRegion>, NoMemory>
    ensures { IfOk result (λ v. v.items ≡ all_among [] regions.now) }
{
    let mut done = Vec::new(alloc);
    for region in regions {
        done = among(alloc, region, done)?;
    }
    Ok(done)
}

/// Joins regions for as long as they become fewer.
pub(crate) fn joined(
    alloc: Global,
    regions: Vec<DecidedRegion>,
) -> Result<Vec<DecidedRegion>, NoMemory>
    ensures { IfOk result (λ v. v.items ≡ joined regions.items) }
{
    let most = regions.len();
    let mut regions = regions;
    for _turn in 0..most {
        let fewer = all_among(alloc, &regions)?;
        if fewer.len() >= regions.len() {
            return Ok(regions);
        }
        regions = fewer;
    }
    Ok(regions)
}
