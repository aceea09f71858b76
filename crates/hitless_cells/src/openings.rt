//! Which ways lie open between two networks.
ghost use Rattle.std.specs.Prelude.{◌≡◌, option_map, IfOk, Some};
ghost use Rattle.hitless_cells.specs.Openings.{opened, opened_between, opened_within, opening_by, opening_of, stops_of};

use crate::changes::{Change, stops_change, worse};
use crate::course::Course;
use crate::stops::{Stop, stops_of};
use crate::uses::used_chain;
use config_check::Valid;
use config_types::Network;
use ov_types::{Items, Name, NoMemory};
use policy_rules::passes_between;
use std::alloc::Global;

/// Whether two ways lie open in both configurations, and what is otherwise of the services on them.
#[derive(Clone, Copy)]
pub(crate) enum Opening {
    /// The way after does not lie open before.
    NotBefore,
    /// The way before does not lie open after.
    NotAfter,
    Both(Change),
}

fn stops_through(
    alloc: Global,
    valid: &Valid,
    chain: Option<Name>,
) -> Result<Option<Items<Stop>>, NoMemory>
    ensures { IfOk result (λ stops. stops ≡ option_map (stops_of valid.now) chain) }
{
    let Some(chain) = chain else {
        return Ok(None);
    };
    let stops = stops_of(alloc, valid, &chain)?;
    Ok(Some(stops))
}

fn opened_within(alloc: Global, course: &Course) -> Option<Items<Stop>>
    ensures { result ≡ opened_within course.now }
{
    match course {
        Course::Inside => Some(Items::new(alloc)),
        _ => None,
    }
}

/// The services on a way between two networks that differ, where it lies open.
fn opened_between(
    alloc: Global,
    valid: &Valid,
    own: &Network,
    target: &Network,
    course: &Course,
) -> Result<Option<Items<Stop>>, NoMemory>
    ensures { IfOk result (λ stops. stops ≡ opened_between valid.now own.now target.now course.now) }
{
    match course {
        Course::Inside => Ok(None),
        Course::Passing => {
            if passes_between(valid.config(), own, target) {
                return Ok(Some(Items::new(alloc)));
            }
            Ok(None)
        }
        Course::Through { use_no, mirrored } => stops_through(
            alloc,
            valid,
            used_chain(valid.config(), own, target, *use_no, *mirrored),
        ),
    }
}

/// The services on a way from one network into another, or inside one, where it lies open.
pub(crate) fn opened(
    alloc: Global,
    valid: &Valid,
    own: &Network,
    target: &Network,
    course: &Course,
) -> Result<Option<Items<Stop>>, NoMemory>
    ensures { IfOk result (λ stops. stops ≡ opened valid.now own.now target.now course.now) }
{
    if target.name == own.name {
        return Ok(opened_within(alloc, course));
    }
    opened_between(alloc, valid, own, target, course)
}

/// How the services on two ways change that lie open in both configurations.
fn both_change(
    was_before: &Option<Items<Stop>>,
    was_after: &Items<Stop>,
    becomes_before: &Items<Stop>,
    becomes_after: &Option<Items<Stop>>,
) -> Change
    ensures { Opening.Both result ≡ opening_by (Some becomes_before.now) (Some was_after.now) was_before.now becomes_after.now }
{
    match (was_before, becomes_after) {
        (Some(was_before), Some(becomes_after)) => worse(
            stops_change(was_before.as_slice(), was_after.as_slice()),
            stops_change(becomes_before.as_slice(), becomes_after.as_slice()),
        ),
        _ => Change::Place,
    }
}

fn opening_by(
    becomes_before: &Option<Items<Stop>>,
    was_after: &Option<Items<Stop>>,
    was_before: &Option<Items<Stop>>,
    becomes_after: &Option<Items<Stop>>,
) -> Opening
    ensures { result ≡ opening_by becomes_before.now was_after.now was_before.now becomes_after.now }
{
    let Some(before) = becomes_before else {
        return Opening::NotBefore;
    };
    let Some(after) = was_after else {
        return Opening::NotAfter;
    };
    Opening::Both(both_change(was_before, after, before, becomes_after))
}

/// A configuration with two of its networks, or with one twice.
#[derive(Clone, Copy)]
pub(crate) struct Between<'a> {
    pub(crate) valid: &'a Valid,
    pub(crate) own: &'a Network,
    pub(crate) target: &'a Network,
}

/// Whether the way that is taken before lies open after, and the way that is taken after lies open before.
pub(crate) fn opening_of(
    alloc: Global,
    before: &Between<'_>,
    after: &Between<'_>,
    was: &Course,
    becomes: &Course,
) -> Result<Opening, NoMemory>
    ensures { IfOk result (λ o. o ≡ opening_of before.now.valid.now before.now.own.now before.now.target.now
        after.now.valid.now after.now.own.now after.now.target.now was.now becomes.now) }
{
    let becomes_before = opened(alloc, before.valid, before.own, before.target, becomes)?;
    let was_after = opened(alloc, after.valid, after.own, after.target, was)?;
    let was_before = opened(alloc, before.valid, before.own, before.target, was)?;
    let becomes_after = opened(alloc, after.valid, after.own, after.target, becomes)?;
    Ok(opening_by(&becomes_before, &was_after, &was_before, &becomes_after))
}
