//! The rules that decide on packets between networks.
ghost use Rattle.std.specs.Prelude.{◌≡◌, ◌||◌, ◌&&◌, ◌∷◌, [], OnOk, IfOk};
ghost use Rattle.std.specs.List.{list_any};
ghost use Rattle.ov_types.specs.declared.packet.RuleNo.{RuleNo as Number};
ghost use Rattle.policy_regions.specs.Carved.{left_after};
ghost use Rattle.inspect_rules.specs.Deciders.{claim_decides, claims_decide, decides_between, decides_from, decides_some};
ghost use Rattle.inspect_rules.specs.Deciders.{has_one_to, has_rule, holds_some};

use config_check::Valid;
use config_types::Network;
use ov_types::{NoMemory, Range16, RuleNo};
use policy_regions::{Claim, Origin, Region, left_after};
use std::alloc::Global;
use std::collections::BTreeSet;

fn has_protocol(range: Range16) -> bool
    ensures { result ≡ has_one_to range 255 }
{
    range.lo <= range.hi && range.lo <= 255
}

fn has_port(range: Range16) -> bool
    ensures { result ≡ has_one_to range 65535 }
{
    range.lo <= range.hi
}

/// Whether a region holds the tuple of a packet.
fn holds_some(region: &Region) -> bool
    ensures { result ≡ holds_some region.now }
{
    has_protocol(region.protocols)
        && has_port(region.source_ports)
        && has_port(region.destination_ports)
}

/// Whether claims leave the tuple of a packet of a region.
fn leave_some(alloc: Global, claims: &[Claim], region: &Region) -> Result<bool, NoMemory>
    ensures { IfOk result (λ b. b ≡ list_any holds_some (left_after claims.now (region.now ∷ []))) }
{
    let left = left_after(alloc, claims, region)?;
    Ok(left.iter().any(|region| holds_some(region)))
}

/// Puts the rule of a claim, where the claims before it leave it the tuple of a packet.
fn put_decider(
    alloc: Global,
    deciders: &mut BTreeSet<RuleNo>,
    before: &[Claim],
    claim: &Claim,
) -> Result<(), NoMemory>
    ensures { OnOk result ((n : Number) → has_rule deciders.new n
        ≡ (claim_decides n before.now claim.now || has_rule deciders.old n)) }
{
    let rule = claim.decision.rule;
    if deciders.contains(&rule) {
        return Ok(());
    }
    if !leave_some(alloc, before, &claim.region)? {
        return Ok(());
    }
    deciders.insert(rule)?;
    Ok(())
}

/// Puts the rules that decide on packets that claims are made to, one behind the other.
fn put_deciders(
    alloc: Global,
    deciders: &mut BTreeSet<RuleNo>,
    claims: &[Claim],
) -> Result<(), NoMemory>
    ensures { OnOk result ((n : Number) → has_rule deciders.new n
        ≡ (claims_decide n [] claims.now || has_rule deciders.old n)) }
{
    for (index, claim) in claims.iter().enumerate() {
        put_decider(alloc, deciders, &claims[..index], claim)?;
    }
    Ok(())
}

/// Puts the rules that decide on packets from one network to another.
fn put_deciders_between(
    alloc: Global,
    deciders: &mut BTreeSet<RuleNo>,
    from: &Origin<'_>,
    to: &Network,
) -> Result<(), NoMemory>
    ensures { OnOk result ((n : Number) → has_rule deciders.new n
        ≡ (decides_between from.now.0 n from.now.1 to.now || has_rule deciders.old n)) }
{
    if from.network().name == to.name {
        return Ok(());
    }
    let claims = from.claims_to(alloc, to)?;
    put_deciders(alloc, deciders, &claims)
}

/// Puts the rules that decide on packets from one network to others.
fn put_deciders_to(
    alloc: Global,
    deciders: &mut BTreeSet<RuleNo>,
    from: &Origin<'_>,
    others: &[Network],
) -> Result<(), NoMemory>
    ensures { OnOk result ((n : Number) → has_rule deciders.new n
        ≡ (list_any (decides_between from.now.0 n from.now.1) others.now || has_rule deciders.old n)) }
{
    for to in others {
        put_deciders_between(alloc, deciders, from, to)?;
    }
    Ok(())
}

/// Puts the rules that decide on packets from one network.
#[tactic(auto, using(reach_plain::proofs::Kept::few_rules))]
fn put_deciders_from(
    alloc: Global,
    deciders: &mut BTreeSet<RuleNo>,
    valid: &Valid,
    from: &Network,
) -> Result<(), NoMemory>
    ensures { OnOk result ((n : Number) → has_rule deciders.new n
        ≡ (decides_from valid.now.config n from.now || has_rule deciders.old n)) }
{
    let origin = Origin::new(alloc, valid.config(), from)?;
    put_deciders_to(alloc, deciders, &origin, valid.config().networks.as_slice())
}

/// The rules that decide on packets between two networks of a valid configuration.
pub(crate) fn deciders(alloc: Global, valid: &Valid) -> Result<BTreeSet<RuleNo>, NoMemory>
    ensures { IfOk result (λ deciders. (n : Number) → has_rule deciders n ≡ decides_some valid.now.config n) }
{
    let networks = valid.config().networks.as_slice();
    let mut deciders = BTreeSet::new(alloc);
    for from in networks {
        put_deciders_from(alloc, &mut deciders, valid, from)?;
    }
    Ok(deciders)
}
