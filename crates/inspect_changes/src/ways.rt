//! The ways from one network to another.
ghost use Rattle.std.specs.Prelude.{◌≡◌, ◌↔◌, ◌++◌, flat_map, option_to_list, IfOk, OnOk};
ghost use Rattle.ov_types.specs.declared.packet.Tuple.{Tuple};
ghost use Rattle.policy_rules.specs.declared.matching.Decision.{Decision};
ghost use Rattle.policy_regions.specs.Parts.{IsTuple};
ghost use Rattle.inspect_changes.specs.Ways.{IsLetThrough, IsOnOneAtMost, IsOnOneOf, ways_between, ways_of};
ghost use Rattle.inspect_changes.specs.declared.way.Passage.{Passage as Passing};

use crate::services::services_through;
use crate::way::{Passage, Way};
use config_check::Valid;
use config_types::Network;
use ov_types::{Items, NoMemory};
use policy_regions::{DecidedRegion, Effect, LastFound, regions_between};
use std::alloc::Global;

/// The way of a region, where packets are let through there.
fn way_of(valid: &Valid, region: &DecidedRegion) -> Option<Way>
    ensures { option_to_list result ≡ ways_of valid.now.config region.now }
{
    let decision = region.decision?;
    let passage = match &region.effect {
        Effect::Passes => Passage::Straight,
        Effect::Drops => return None,
        Effect::Leads { chain } => Passage::Through {
            services: services_through(valid, chain, decision.mirrored),
        },
    };
    Some(Way {
        region: region.region,
        decision,
        passage,
    })
}

fn push_way(ways: &mut Vec<Way>, valid: &Valid, region: &DecidedRegion) -> Result<(), NoMemory>
    ensures { OnOk result (ways.new.items ≡ ways.old.items ++ ways_of valid.now.config region.now) }
{
    if let Some(way) = way_of(valid, region) {
        ways.push(way)?;
    }
    Ok(())
}

fn ways_of_each(
    alloc: Global,
    valid: &Valid,
    regions: &[DecidedRegion],
) -> Result<Vec<Way>, NoMemory>
    ensures { IfOk result (λ v. v.items ≡ flat_map (ways_of valid.now.config) regions.now) }
{
    let mut ways = Vec::new(alloc);
    for region in regions {
        push_way(&mut ways, valid, region)?;
    }
    Ok(ways)
}

/// What the rules of a valid configuration let through from one network to another: no tuple is on two ways, and one is
/// on a way exactly where the rule that decides on it lets it through, with that rule and that passage.
#[tactic(auto, using(reach_plain::proofs::Kept::few_rules))]
pub fn ways_between(
    alloc: Global,
    valid: &Valid,
    from: &Network,
    to: &Network,
) -> Result<Items<Way>, NoMemory>
    ensures ways { IfOk result (λ list. list ≡ ways_between valid.now.config from.now to.now) }
    ensures apart { IfOk result (λ list. (t : Tuple) → IsTuple t → IsOnOneAtMost list t) }
    ensures exact { IfOk result (λ list. (t : Tuple) (d : Decision) (passage : Passing) → IsTuple t
        → IsOnOneOf list t d passage ↔ IsLetThrough valid.now.config from.now to.now t d passage) }
{
    let regions = regions_between(alloc, valid.config(), from, to)?;
    let ways = ways_of_each(alloc, valid, regions.as_slice())?;
    Ok(Items::from_vec(ways))
}

/// The ways from one network to another, by regions that may be those that were found last.
#[tactic(auto, using(reach_plain::proofs::Kept::few_rules))]
pub fn ways_found(
    alloc: Global,
    valid: &Valid,
    last: &mut LastFound,
    from: &Network,
    to: &Network,
) -> Result<Items<Way>, NoMemory>
    ensures { IfOk result (λ list. list ≡ ways_between valid.now.config from.now to.now) }
{
    last.find(alloc, valid.config(), from, to)?;
    let ways = ways_of_each(alloc, valid, last.regions())?;
    Ok(Items::from_vec(ways))
}
