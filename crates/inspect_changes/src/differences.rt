//! What becomes otherwise of packets between two networks in one configuration than in another.
ghost use Rattle.std.specs.Prelude.{◌≡◌, ◌↔◌, Some, ◌==◌, ◌++◌, flat_map, option_map, option_to_list, IfOk, OnOk};
ghost use Rattle.std.specs.List.{list_all, zip};
ghost use Rattle.ov_types.specs.declared.packet.Tuple.{Tuple};
ghost use Rattle.policy_regions.specs.Parts.{IsTuple};
ghost use Rattle.inspect_changes.specs.Unchanged.{differences_by, differences_by_claims, differences_towards, differences_unless, lead_alike, stay, stays_by};
ghost use Rattle.inspect_changes.specs.Fates.{differences_between, differences_of, fate_by, passage, same_passage, same_services};
ghost use Rattle.inspect_changes.specs.Fates.{all_differences};
ghost use Rattle.inspect_changes.specs.Fates.{FaresOtherwise, IsOnDifference, IsOnOneDifferenceAtMost};
ghost use Rattle.inspect_changes.specs.declared.fate.Fate.{Fate as Fared};

use crate::fate::{Difference, Fate};
use crate::services::services_through;
use crate::standing::{Standing, lead_alike, standing_networks};
use config_check::Valid;
use config_types::Network;
use ov_types::{Items, NoMemory, ServiceNo};
use policy_regions::{
    Claim, Compared, Effect, LastLaid, Origin, are_same, overlay, regions_between,
};
use policy_rules::Decision;
use std::alloc::Global;

/// What becomes of packets by what is decided and done with them.
fn fate_by(valid: &Valid, decision: &Option<Decision>, effect: &Effect) -> Fate
    ensures { result ≡ fate_by valid.now.config decision.now effect.now }
{
    let Some(decision) = decision else {
        return Fate::Unmatched;
    };
    let rule = decision.rule;
    match effect {
        Effect::Passes => Fate::Passed { rule },
        Effect::Drops => Fate::Denied { rule },
        Effect::Leads { chain } => Fate::Through {
            rule,
            services: services_through(valid, chain, decision.mirrored),
        },
    }
}

/// The services that packets of this fate are let through by, if they are.
fn passage(fate: &Fate) -> Option<&[ServiceNo]>
    ensures { option_map (λ s. s.now) result ≡ passage fate.now }
{
    match fate {
        Fate::Passed { .. } => Some(&[]),
        Fate::Through { services, .. } => Some(services.as_slice()),
        Fate::Denied { .. } | Fate::Unmatched => None,
    }
}

fn are_alike(services: &[ServiceNo], others: &[ServiceNo]) -> bool
    ensures { result ≡ list_all (λ p. p.0.0 == p.1.0) (zip services.now others.now) }
{
    services
        .iter()
        .zip(others)
        .all(|(service, other)| service.0 == other.0)
}

fn are_same_services(services: &[ServiceNo], others: &[ServiceNo]) -> bool
    ensures { result ≡ same_services services.now others.now }
{
    services.len() == others.len() && are_alike(services, others)
}

/// Whether packets of neither fate are let through, or those of both by the same services.
fn have_same_passage(was: &Fate, becomes: &Fate) -> bool
    ensures { result ≡ same_passage (passage was.now) (passage becomes.now) }
{
    match (passage(was), passage(becomes)) {
        (None, None) => true,
        (Some(services), Some(others)) => are_same_services(services, others),
        _ => false,
    }
}

/// The difference on a region, where there is one.
fn difference_of(
    from: &Network,
    to: &Network,
    before: &Valid,
    after: &Valid,
    compared: &Compared,
) -> Option<Difference>
    ensures { option_to_list result
        ≡ differences_of from.now.name to.now.name before.now.config after.now.config compared.now }
{
    let was = fate_by(before, &compared.before, &compared.was);
    let becomes = fate_by(after, &compared.after, &compared.becomes);
    if have_same_passage(&was, &becomes) {
        return None;
    }
    Some(Difference {
        from: from.name,
        to: to.name,
        region: compared.region,
        was,
        becomes,
    })
}

fn push_difference(
    differences: &mut Vec<Difference>,
    from: &Network,
    to: &Network,
    before: &Valid,
    after: &Valid,
    compared: &Compared,
) -> Result<(), NoMemory>
    ensures { OnOk result (differences.new.items ≡ differences.old.items
        ++ differences_of from.now.name to.now.name before.now.config after.now.config compared.now) }
{
    if let Some(difference) = difference_of(from, to, before, after, compared) {
        differences.push(difference)?;
    }
    Ok(())
}

/// Appends the differences on regions.
fn push_each(
    differences: &mut Vec<Difference>,
    from: &Network,
    to: &Network,
    before: &Valid,
    after: &Valid,
    regions: &[Compared],
) -> Result<(), NoMemory>
    ensures { OnOk result (differences.new.items ≡ differences.old.items
        ++ flat_map (differences_of from.now.name to.now.name before.now.config after.now.config) regions.now) }
{
    for compared in regions {
        push_difference(differences, from, to, before, after, compared)?;
    }
    Ok(())
}

/// What becomes otherwise of packets from one network to another in a valid configuration than in one before: no tuple
/// is on two differences, and one is on a difference exactly where it is let through in one of the two and not in the
/// other, or by other services. The difference has what becomes of it in both. The two networks are given as they stand
/// before and after.
#[tactic(auto, using(reach_plain::proofs::Kept::few_rules))]
pub fn differences_between(
    alloc: Global,
    before: &Valid,
    from: &Network,
    to: &Network,
    after: &Valid,
    from_after: &Network,
    to_after: &Network,
) -> Result<Items<Difference>, NoMemory>
    ensures differences { IfOk result (λ list. list
        ≡ differences_between before.now.config from.now to.now after.now.config from_after.now to_after.now) }
    ensures apart { IfOk result (λ list. (t : Tuple) → IsTuple t → IsOnOneDifferenceAtMost list t) }
    ensures exact { IfOk result (λ list. (t : Tuple) (was becomes : Fared) → IsTuple t
        → IsOnDifference list t was becomes
        ↔ FaresOtherwise before.now.config from.now to.now after.now.config from_after.now to_after.now t was becomes) }
{
    let regions = regions_between(alloc, before.config(), from, to)?;
    let regions_after = regions_between(alloc, after.config(), from_after, to_after)?;
    let compared = overlay(alloc, regions.as_slice(), regions_after.as_slice())?;
    let mut differences = Vec::new(alloc);
    push_each(
        &mut differences,
        from,
        to,
        before,
        after,
        compared.as_slice(),
    )?;
    Ok(Items::from_vec(differences))
}

/// Whether packets of a claim are let through by the same services in two configurations, or in neither.
fn fares_alike(before: &Valid, after: &Valid, claim: &Claim) -> bool
    ensures { result ≡ stays_by before.now.config after.now.config (Some claim.now.decision) claim.now.effect }
{
    let decision = Some(claim.decision);
    let was = fate_by(before, &decision, &claim.effect);
    let becomes = fate_by(after, &decision, &claim.effect);
    have_same_passage(&was, &becomes)
}

fn fare_alike(before: &Valid, after: &Valid, claims: &[Claim]) -> bool
    ensures { result ≡ list_all (λ k. stays_by before.now.config after.now.config (Some k.decision) k.effect) claims.now }
{
    claims.iter().all(|claim| fares_alike(before, after, claim))
}

/// Whether claims in two configurations are the same, and their packets fare alike.
fn stay(
    before: &Valid,
    after: &Valid,
    alike: bool,
    claims: &[Claim],
    claims_after: &[Claim],
) -> bool
    requires { alike ≡ lead_alike before.now.config after.now.config }
    ensures { result ≡ stay before.now.config after.now.config claims.now claims_after.now }
{
    are_same(claims, claims_after) && (alike || fare_alike(before, after, claims))
}

/// Appends the differences from one network to another by what the rules between them claim.
#[tactic(auto, using(crate::proofs::Unchanged::nothing_new))]
fn push_by_claims(
    alloc: Global,
    differences: &mut Vec<Difference>,
    last: &mut LastLaid,
    before: &Valid,
    from: &Network,
    to: &Network,
    after: &Valid,
    alike: bool,
    claims: Vec<Claim>,
    claims_after: Vec<Claim>,
) -> Result<(), NoMemory>
    requires { alike ≡ lead_alike before.now.config after.now.config }
    ensures { OnOk result (differences.new.items ≡ differences.old.items
        ++ differences_by before.now.config from.now to.now after.now.config claims.items claims_after.items) }
{
    if stay(before, after, alike, &claims, &claims_after) {
        return Ok(());
    }
    last.find(alloc, claims, claims_after)?;
    push_each(differences, from, to, before, after, last.compared())
}

/// A network that packets leave, as it stands in two configurations, and whether it is kept.
#[derive(Drop)]
struct Leaving<'a> {
    before: Origin<'a>,
    after: Origin<'a>,
    is_kept: bool,
}

/// Appends the differences from one network to another.
fn push_between(
    alloc: Global,
    differences: &mut Vec<Difference>,
    last: &mut LastLaid,
    before: &Valid,
    after: &Valid,
    alike: bool,
    from: &Leaving<'_>,
    to: &Standing<'_>,
) -> Result<(), NoMemory>
    requires { alike ≡ lead_alike before.now.config after.now.config }
    ensures { OnOk result (differences.new.items ≡ differences.old.items
        ++ differences_by_claims before.now.config after.now.config from.now.before from.now.after to.now) }
{
    let claims = from.before.claims_to(alloc, to.before())?;
    let claims_after = from.after.claims_to(alloc, to.after())?;
    push_by_claims(
        alloc,
        differences,
        last,
        before,
        from.before.network(),
        to.before(),
        after,
        alike,
        claims,
        claims_after,
    )
}

/// Appends the differences from one network to another, of which there are none where both are kept.
fn push_to(
    alloc: Global,
    differences: &mut Vec<Difference>,
    last: &mut LastLaid,
    before: &Valid,
    after: &Valid,
    alike: bool,
    from: &Leaving<'_>,
    to: &Standing<'_>,
) -> Result<(), NoMemory>
    requires { alike ≡ lead_alike before.now.config after.now.config }
    ensures { OnOk result (differences.new.items ≡ differences.old.items
        ++ differences_towards before.now.config after.now.config from.now.is_kept from.now.before from.now.after to.now) }
{
    if from.before.network().name == to.before().name {
        return Ok(());
    }
    if from.is_kept && to.is_kept() {
        return Ok(());
    }
    push_between(alloc, differences, last, before, after, alike, from, to)
}

/// Appends the differences from one network to each of others.
fn push_to_each(
    alloc: Global,
    differences: &mut Vec<Difference>,
    last: &mut LastLaid,
    before: &Valid,
    after: &Valid,
    alike: bool,
    from: &Leaving<'_>,
    others: &[Standing<'_>],
) -> Result<(), NoMemory>
    requires { alike ≡ lead_alike before.now.config after.now.config }
    ensures { OnOk result (differences.new.items ≡ differences.old.items
        ++ flat_map (differences_towards before.now.config after.now.config from.now.is_kept from.now.before from.now.after) others.now) }
{
    for to in others {
        push_to(alloc, differences, last, before, after, alike, from, to)?;
    }
    Ok(())
}

/// Appends the differences from one network, with its policies found once, to each of others.
#[tactic(auto, using(reach_plain::proofs::Kept::few_rules))]
fn push_from(
    alloc: Global,
    differences: &mut Vec<Difference>,
    last: &mut LastLaid,
    before: &Valid,
    after: &Valid,
    alike: bool,
    from: &Standing<'_>,
    others: &[Standing<'_>],
) -> Result<(), NoMemory>
    requires { alike ≡ lead_alike before.now.config after.now.config }
    ensures { OnOk result (differences.new.items ≡ differences.old.items
        ++ flat_map (differences_unless before.now.config after.now.config from.now) others.now) }
{
    let origin = Origin::new(alloc, before.config(), from.before())?;
    let origin_after = Origin::new(alloc, after.config(), from.after())?;
    let leaving = Leaving {
        before: origin,
        after: origin_after,
        is_kept: from.is_kept(),
    };
    push_to_each(
        alloc,
        differences,
        last,
        before,
        after,
        alike,
        &leaving,
        others,
    )
}

/// Appends the differences from each of networks to each.
fn push_all(
    alloc: Global,
    differences: &mut Vec<Difference>,
    before: &Valid,
    after: &Valid,
    alike: bool,
    networks: &[Standing<'_>],
) -> Result<(), NoMemory>
    requires { alike ≡ lead_alike before.now.config after.now.config }
    ensures { OnOk result (differences.new.items ≡ differences.old.items
        ++ flat_map (λ s. flat_map (differences_unless before.now.config after.now.config s) networks.now) networks.now) }
{
    let mut last = LastLaid::new(alloc)?;
    for from in networks {
        push_from(
            alloc,
            differences,
            &mut last,
            before,
            after,
            alike,
            from,
            networks,
        )?;
    }
    Ok(())
}

/// The differences between two configurations: those between each two networks that stand in both.
pub fn all_differences(
    alloc: Global,
    before: &Valid,
    after: &Valid,
) -> Result<Vec<Difference>, NoMemory>
    ensures { IfOk result (λ v. v.items ≡ all_differences before.now.config after.now.config) }
{
    let alike = lead_alike(before.config(), after.config());
    let networks = standing_networks(alloc, before, after, alike)?;
    let mut differences = Vec::new(alloc);
    push_all(alloc, &mut differences, before, after, alike, &networks)?;
    Ok(differences)
}
