//! Regions that are found once for networks between which rules claim the same.
ghost use Rattle.std.specs.Prelude.{◌≡◌, ◌∷◌, [], nat_le, length, IfOk, IsTrue, OnErr, OnOk};
ghost use Rattle.std.specs.List.{list_all, zip};
ghost use Rattle.policy_regions.specs.Carved.{carve};
ghost use Rattle.policy_regions.specs.Joined.{regions_between};
ghost use Rattle.policy_regions.specs.Joining.{joined};
ghost use Rattle.policy_regions.specs.Regions.{everything};
ghost use Rattle.policy_regions.specs.Sameness.{same_claim, same_claims, same_region};

use crate::between::claims_between;
use crate::carving::carve;
use crate::joining::{is_same_decision, is_same_effect, is_same_range, joined};
use crate::region::{Claim, DecidedRegion, Region};
use config_types::{Config, Network};
use ov_types::NoMemory;
use std::alloc::Global;
use std::marker::Model;

fn is_same_region(region: &Region, other: &Region) -> bool
    ensures { result ≡ same_region region.now other.now }
{
    is_same_range(&region.protocols, &other.protocols)
        && (is_same_range(&region.source_ports, &other.source_ports)
            && is_same_range(&region.destination_ports, &other.destination_ports))
}

fn is_same_claim(claim: &Claim, other: &Claim) -> bool
    ensures { result ≡ same_claim claim.now other.now }
{
    is_same_region(&claim.region, &other.region)
        && (is_same_decision(&Some(claim.decision), &Some(other.decision))
            && is_same_effect(&claim.effect, &other.effect))
}

fn are_alike(claims: &[Claim], others: &[Claim]) -> bool
    ensures { result ≡ list_all (λ p. same_claim p.0 p.1) (zip claims.now others.now) }
{
    claims
        .iter()
        .zip(others)
        .all(|(claim, other)| is_same_claim(claim, other))
}

/// Whether claims are the same, one by one.
pub fn are_same(claims: &[Claim], others: &[Claim]) -> bool
    ensures { result ≡ same_claims claims.now others.now }
{
    claims.len() == others.len() && are_alike(claims, others)
}

/// The regions that were found last, and the claims that they were made of.
#[derive(Drop)]
pub struct LastFound {
    claims: Vec<Claim>,
    regions: Vec<DecidedRegion>,
}

impl Model for LastFound {
    ghost use Rattle.std.specs.Prelude.{◌≡◌, ◌∷◌, [], List};
    ghost use Rattle.policy_regions.specs.Carved.{carve};
    ghost use Rattle.policy_regions.specs.Joining.{joined};
    ghost use Rattle.policy_regions.specs.Regions.{everything};
    ghost use Rattle.policy_regions.specs.declared.region.DecidedRegion.{DecidedRegion as Decided};

    ghost Value = { List Decided };

    ghost view = { λ last. last.regions.items };

    ghost invariant = { λ last. last.regions.items ≡ joined (carve last.claims.items (everything ∷ [])) };
}

/// The regions that claims make.
fn found(alloc: Global, claims: Vec<Claim>) -> Result<LastFound, NoMemory>
    ensures { IfOk result (λ last. last ≡ joined (carve claims.items (everything ∷ []))) }
{
    let carved = carve(alloc, &claims)?;
    let regions = joined(alloc, carved)?;
    Ok(LastFound { claims, regions })
}

impl LastFound {
    /// One region of all tuples, on which no rule decides.
    pub fn new(alloc: Global) -> Result<LastFound, NoMemory> {
        found(alloc, Vec::new(alloc))
    }

    /// Finds the regions between two networks, as `regions_between` does. Where the rules between them claim the same
    /// as between the two networks of the last call, the regions are there already.
    pub fn find(
        &mut self,
        alloc: Global,
        config: &Config,
        from: &Network,
        to: &Network,
    ) -> Result<(), NoMemory>
        requires { IsTrue (list_all (λ p. nat_le (length p.rules) 16) config.now.policies) }
        ensures regions { OnOk result (self.new ≡ regions_between config.now from.now to.now) }
        ensures kept { OnErr result (self.new ≡ self.old) }
    {
        let claims = claims_between(alloc, config, from, to)?;
        self.find_by(alloc, claims)
    }

    /// Finds the regions that claims make. Where the claims are the same as at the last call, the regions are there
    /// already.
    pub fn find_by(&mut self, alloc: Global, claims: Vec<Claim>) -> Result<(), NoMemory>
        ensures regions { OnOk result (self.new ≡ joined (carve claims.items (everything ∷ []))) }
        ensures kept { OnErr result (self.new ≡ self.old) }
    {
        if !are_same(&self.claims, &claims) {
            *self = found(alloc, claims)?;
        }
        Ok(())
    }

    /// The regions.
    pub fn regions(&self) -> &[DecidedRegion]
        ensures { result.now ≡ self.now }
    {
        &self.regions
    }
}
