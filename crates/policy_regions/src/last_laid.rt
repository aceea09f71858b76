//! Regions of two configurations laid over one another, which is done once for networks between which rules claim the same.
ghost use Rattle.std.specs.Prelude.{◌≡◌, [], IfOk, OnErr, OnOk};
ghost use Rattle.policy_regions.specs.Joined.{made_by};
ghost use Rattle.policy_regions.specs.Overlay.{laid_by};

use crate::carving::carve;
use crate::joining::joined;
use crate::last_found::are_same;
use crate::overlays::{Compared, overlaid};
use crate::region::{Claim, DecidedRegion};
use ov_types::NoMemory;
use std::alloc::Global;
use std::marker::Model;

/// What was laid over one another last, and the claims that it was made of.
#[derive(Drop)]
pub struct LastLaid {
    before: Vec<Claim>,
    after: Vec<Claim>,
    compared: Vec<Compared>,
}

impl Model for LastLaid {
    ghost use Rattle.std.specs.Prelude.{◌≡◌, List};
    ghost use Rattle.policy_regions.specs.Overlay.{laid_by};
    ghost use Rattle.policy_regions.specs.declared.overlays.Compared.{Compared as Both};

    ghost Value = { List Both };

    ghost view = { λ last. last.compared.items };

    ghost invariant = { λ last. last.compared.items ≡ laid_by last.before.items last.after.items };
}

/// The regions that claims make.
fn made(alloc: Global, claims: &[Claim]) -> Result<Vec<DecidedRegion>, NoMemory>
    ensures { IfOk result (λ v. v.items ≡ made_by claims.now) }
{
    let carved = carve(alloc, claims)?;
    joined(alloc, carved)
}

/// What the regions have in common that claims before and after make.
fn laid(alloc: Global, before: &[Claim], after: &[Claim]) -> Result<Vec<Compared>, NoMemory>
    ensures { IfOk result (λ v. v.items ≡ laid_by before.now after.now) }
{
    let regions = made(alloc, before)?;
    let regions_after = made(alloc, after)?;
    overlaid(alloc, &regions, &regions_after)
}

fn found(alloc: Global, before: Vec<Claim>, after: Vec<Claim>) -> Result<LastLaid, NoMemory>
    ensures { IfOk result (λ last. last ≡ laid_by before.items after.items) }
{
    let compared = laid(alloc, &before, &after)?;
    Ok(LastLaid {
        before,
        after,
        compared,
    })
}

impl LastLaid {
    /// The region of all tuples, on which no rule decides before or after.
    pub fn new(alloc: Global) -> Result<LastLaid, NoMemory>
        ensures { IfOk result (λ last. last ≡ laid_by [] []) }
    {
        found(alloc, Vec::new(alloc), Vec::new(alloc))
    }

    /// Finds what the regions that claims before and after a change make have in common. Where both lists of claims are
    /// the same as at the last call, the answer is there already.
    pub fn find(
        &mut self,
        alloc: Global,
        before: Vec<Claim>,
        after: Vec<Claim>,
    ) -> Result<(), NoMemory>
        ensures compared { OnOk result (self.new ≡ laid_by before.items after.items) }
        ensures kept { OnErr result (self.new ≡ self.old) }
    {
        if !are_same(&self.before, &before) {
            *self = found(alloc, before, after)?;
            return Ok(());
        }
        if !are_same(&self.after, &after) {
            *self = found(alloc, before, after)?;
        }
        Ok(())
    }

    /// What the regions have in common, each with each.
    pub fn compared(&self) -> &[Compared]
        ensures { result.now ≡ self.now }
    {
        &self.compared
    }
}
