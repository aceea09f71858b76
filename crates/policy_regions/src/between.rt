//! The regions between two networks.
ghost use Rattle.std.specs.Prelude.{◌≡◌, nat_le, length, IfOk, IsTrue};
ghost use Rattle.std.specs.List.{list_all};
ghost use Rattle.ov_types.specs.declared.packet.Tuple.{Tuple};
ghost use Rattle.policy_rules.specs.Matching.{deciding, decision};
ghost use Rattle.policy_regions.specs.Carved.{carved_between};
ghost use Rattle.policy_regions.specs.Claims.{claims_between, effect_by};
ghost use Rattle.policy_regions.specs.Joined.{regions_between};
ghost use Rattle.policy_regions.specs.Parts.{IsTuple, LiesInOne, AllSay, AllDo};
ghost use Rattle.policy_regions.specs.Touching.{IsJoined};

use crate::carving::carve;
use crate::joining::joined;
use crate::origin::Origin;
use crate::region::{Claim, DecidedRegion};
use config_types::{Config, Network};
use ov_types::{Items, NoMemory};
use std::alloc::Global;

/// The claims of the rules between two networks.
pub fn claims_between(
    alloc: Global,
    config: &Config,
    from: &Network,
    to: &Network,
) -> Result<Vec<Claim>, NoMemory>
    requires { IsTrue (list_all (λ p. nat_le (length p.rules) 16) config.now.policies) }
    ensures { IfOk result (λ v. v.items ≡ claims_between config.now from.now to.now) }
{
    let origin = Origin::new(alloc, config, from)?;
    origin.claims_to(alloc, to)
}

/// What the rules between two networks make of all tuples.
fn carved_between(
    alloc: Global,
    config: &Config,
    from: &Network,
    to: &Network,
) -> Result<Vec<DecidedRegion>, NoMemory>
    requires { IsTrue (list_all (λ p. nat_le (length p.rules) 16) config.now.policies) }
    ensures { IfOk result (λ v. v.items ≡ carved_between config.now from.now to.now) }
{
    let claims = claims_between(alloc, config, from, to)?;
    carve(alloc, &claims)
}

/// What is decided of packets from one network to another, as regions: each tuple lies in exactly one, and its
/// decision is the region's. No two that say the same make one box.
pub fn regions_between(
    alloc: Global,
    config: &Config,
    from: &Network,
    to: &Network,
) -> Result<Items<DecidedRegion>, NoMemory>
    requires { IsTrue (list_all (λ p. nat_le (length p.rules) 16) config.now.policies) }
    ensures regions { IfOk result (λ list. list ≡ regions_between config.now from.now to.now) }
    ensures partition { IfOk result (λ list. (t : Tuple) → IsTuple t → LiesInOne t list) }
    ensures decided { IfOk result (λ list. (t : Tuple) → IsTuple t
        → AllSay (decision config.now from.now to.now t) t list) }
    ensures effect { IfOk result (λ list. (t : Tuple) → IsTuple t
        → AllDo (effect_by (deciding config.now from.now to.now t)) t list) }
    ensures joined { IfOk result (λ list. IsJoined list) }
{
    let carved = carved_between(alloc, config, from, to)?;
    let regions = joined(alloc, carved)?;
    Ok(Items::from_vec(regions))
}
