//! The networks that stand in two configurations, and which of them are kept.
ghost use Rattle.std.specs.Prelude.{◌≡◌, ◌==◌, ◌&&◌, ◌++◌, map, IfOk, OnOk};
ghost use Rattle.std.specs.List.{list_all, zip};
ghost use Rattle.config_types.specs.contracts.config.PolicyPartialEq.TheImpl as policy_equality;
ghost use Rattle.config_check.specs.Finding.{network_named};
ghost use Rattle.inspect_changes.specs.Unchanged.{attaches_alike, is_kept, lead_alike, same_policies, standing, standing_as};

use config_check::{Valid, network_named};
use config_types::{Config, Network, Policy};
use ov_types::NoMemory;
use policy_regions::Origin;
use std::alloc::Global;
use std::marker::Model;

/// Whether chains and services are the same in two configurations, so that each chain leads through the same services.
pub(crate) fn lead_alike(before: &Config, after: &Config) -> bool
    ensures { result ≡ lead_alike before.now after.now }
{
    before.chains == after.chains && before.services == after.services
}

fn are_alike(policies: &[&Policy], others: &[&Policy]) -> bool
    ensures { result ≡ list_all (λ p. policy_equality.ghosts.eq p.0.now p.1.now) (zip policies.now others.now) }
{
    policies
        .iter()
        .zip(others)
        .all(|(policy, other)| **policy == **other)
}

fn are_same_policies(policies: &[&Policy], others: &[&Policy]) -> bool
    ensures { result ≡ same_policies (map (λ p. p.now) policies.now) (map (λ p. p.now) others.now) }
{
    policies.len() == others.len() && are_alike(policies, others)
}

/// Whether a network attaches the same policies in two configurations, by their names and by what these say.
fn attaches_alike(before: &Origin<'_>, after: &Origin<'_>) -> bool
    ensures { result ≡ attaches_alike before.now.0 before.now.1 after.now.0 after.now.1 }
{
    before.network().name == after.network().name
        && (before.network().policies == after.network().policies
            && are_same_policies(before.policies(), after.policies()))
}

/// Whether a network is kept: chains lead through the same services in both configurations, and it attaches the same
/// policies.
#[tactic(auto, using(reach_plain::proofs::Kept::few_rules))]
fn is_kept(
    alloc: Global,
    before: &Valid,
    after: &Valid,
    alike: bool,
    network: &Network,
    network_after: &Network,
) -> Result<bool, NoMemory>
    requires { alike ≡ lead_alike before.now.config after.now.config }
    ensures { IfOk result (λ b. b ≡ is_kept before.now.config network.now after.now.config network_after.now) }
{
    let origin = Origin::new(alloc, before.config(), network)?;
    let origin_after = Origin::new(alloc, after.config(), network_after)?;
    Ok(alike && attaches_alike(&origin, &origin_after))
}

/// A network that stands in two configurations, as it stands in each, and whether it is kept.
#[derive(Drop)]
pub(crate) struct Standing<'a> {
    before: &'a Network,
    after: &'a Network,
    is_kept: bool,
}

impl<'a> Model for Standing<'a> {
    ghost use Rattle.inspect_changes.specs.Unchanged.{Stands};

    ghost Value = { Stands };

    ghost view = { λ s. record { before = s.before.now; after = s.after.now; is_kept = s.is_kept } };
}

impl<'a> Standing<'a> {
    /// The network as it stands before.
    pub(crate) fn before(&self) -> &'a Network
        ensures { result.now ≡ self.now.before }
    {
        self.before
    }

    /// The network as it stands after.
    pub(crate) fn after(&self) -> &'a Network
        ensures { result.now ≡ self.now.after }
    {
        self.after
    }

    /// Whether it is kept.
    pub(crate) fn is_kept(&self) -> bool
        ensures { result ≡ self.now.is_kept }
    {
        self.is_kept
    }
}

/// Appends a network where it stands in the configuration after.
fn push_standing<'a>(
    alloc: Global,
    networks: &mut Vec<Standing<'a>>,
    before: &'a Valid,
    after: &'a Valid,
    alike: bool,
    network: &'a Network,
) -> Result<(), NoMemory>
    requires { alike ≡ lead_alike before.now.config after.now.config }
    ensures { OnOk result (networks.new.items ≡ networks.old.items
        ++ standing_as before.now.config after.now.config network.now (network_named after.now.config network.now.name)) }
{
    let Some(found) = network_named(after.config(), &network.name) else {
        return Ok(());
    };
    let is_kept = is_kept(alloc, before, after, alike, network, found)?;
    networks.push(Standing {
        before: network,
        after: found,
        is_kept,
    })?;
    Ok(())
}

/// The networks that stand in both configurations, in the order of the one before.
pub(crate) fn standing_networks<'a>(
    alloc: Global,
    before: &'a Valid,
    after: &'a Valid,
    alike: bool,
) -> Result<Vec<Standing<'a>>, NoMemory>
    requires { alike ≡ lead_alike before.now.config after.now.config }
    ensures { IfOk result (λ v. v.items ≡ standing before.now.config after.now.config) }
{
    let mut networks = Vec::new(alloc);
    for network in before.config().networks.as_slice() {
        push_standing(alloc, &mut networks, before, after, alike, network)?;
    }
    Ok(networks)
}
