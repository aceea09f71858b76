//! Cells: tuples that both configurations let through, on each of which their rules decide alike.
ghost use Rattle.std.specs.Prelude.{◌≡◌, ◌++◌, flat_map, IfOk, OnOk};
ghost use Rattle.policy_rules.specs.Related.{are_related};
ghost use Rattle.policy_regions.specs.Overlay.{overlay};
ghost use Rattle.hitless_cells.specs.Cells.{are_near, cell_at, cells_of, cells_on, corner, is_near};

use crate::course::{Course, course_on};
use crate::openings::{Between, Opening, opening_of};
use config_types::{Config, Network};
use ov_types::{NoMemory, Tuple};
use policy_regions::{Compared, LastFound, Region, overlay};
use policy_rules::are_related;
use std::alloc::Global;

/// A tuple that both configurations let through, by which way before and by which after.
#[derive(Clone, Copy)]
pub(crate) struct Cell {
    pub(crate) tuple: Tuple,
    pub(crate) was: Course,
    pub(crate) becomes: Course,
    pub(crate) opening: Opening,
}

/// The least tuple of a region.
fn corner(region: &Region) -> Tuple
    ensures { result ≡ corner region.now }
{
    Tuple {
        proto: region.protocols.lo.min(255) as u8,
        sport: region.source_ports.lo,
        dport: region.destination_ports.lo,
    }
}

/// Appends the cell of a tuple that goes by two ways, if it goes by both.
fn push_cell(
    alloc: Global,
    cells: &mut Vec<Cell>,
    before: &Between<'_>,
    after: &Between<'_>,
    tuple: Tuple,
    was: Option<Course>,
    becomes: Option<Course>,
) -> Result<(), NoMemory>
    ensures { OnOk result (cells.new.items ≡ cells.old.items ++ cell_at before.now.valid.now before.now.own.now before.now.target.now
        after.now.valid.now after.now.own.now after.now.target.now tuple was becomes) }
{
    let Some(was) = was else {
        return Ok(());
    };
    let Some(becomes) = becomes else {
        return Ok(());
    };
    let opening = opening_of(alloc, before, after, &was, &becomes)?;
    cells.push(Cell {
        tuple,
        was,
        becomes,
        opening,
    })?;
    Ok(())
}

/// Appends the cell of a region.
#[tactic(auto, using(reach_plain::proofs::Kept::few_rules))]
fn push_on(
    alloc: Global,
    cells: &mut Vec<Cell>,
    before: &Between<'_>,
    after: &Between<'_>,
    compared: &Compared,
) -> Result<(), NoMemory>
    ensures { OnOk result (cells.new.items ≡ cells.old.items ++ cells_on before.now.valid.now before.now.own.now before.now.target.now
        after.now.valid.now after.now.own.now after.now.target.now compared.now) }
{
    let tuple = corner(&compared.region);
    let was = course_on(before.valid.config(), before.own, before.target, &tuple);
    let becomes = course_on(after.valid.config(), after.own, after.target, &tuple);
    push_cell(alloc, cells, before, after, tuple, was, becomes)
}

fn push_each(
    alloc: Global,
    cells: &mut Vec<Cell>,
    before: &Between<'_>,
    after: &Between<'_>,
    regions: &[Compared],
) -> Result<(), NoMemory>
    ensures { OnOk result (cells.new.items ≡ cells.old.items ++ flat_map (cells_on before.now.valid.now before.now.own.now before.now.target.now
        after.now.valid.now after.now.own.now after.now.target.now) regions.now) }
{
    for compared in regions {
        push_on(alloc, cells, before, after, compared)?;
    }
    Ok(())
}

/// The regions of two configurations that were found last.
#[derive(Drop)]
pub(crate) struct Known {
    before: LastFound,
    after: LastFound,
}

impl Known {
    pub(crate) fn new(alloc: Global) -> Result<Known, NoMemory> {
        let before = LastFound::new(alloc)?;
        let after = LastFound::new(alloc)?;
        Ok(Known { before, after })
    }
}

/// The cells of tuples from one network to another that go by a way before and by one after.
#[tactic(auto, using(reach_plain::proofs::Kept::few_rules))]
pub(crate) fn cells_of(
    alloc: Global,
    known: &mut Known,
    before: &Between<'_>,
    after: &Between<'_>,
) -> Result<Vec<Cell>, NoMemory>
    ensures { IfOk result (λ v. v.items ≡ cells_of before.now.valid.now before.now.own.now before.now.target.now
        after.now.valid.now after.now.own.now after.now.target.now) }
{
    known
        .before
        .find(alloc, before.valid.config(), before.own, before.target)?;
    known
        .after
        .find(alloc, after.valid.config(), after.own, after.target)?;
    let compared = overlay(alloc, known.before.regions(), known.after.regions())?;
    let mut cells = Vec::new(alloc);
    push_each(alloc, &mut cells, before, after, compared.as_slice())?;
    Ok(cells)
}

/// Whether packets from one network may be for another: for itself, or for a related one.
fn is_near(config: &Config, own: &Network, target: &Network) -> bool
    ensures { result ≡ is_near config.now own.now target.now }
{
    target.name == own.name || are_related(config, own, target)
}

/// Whether packets may go from one network into another in both configurations.
pub(crate) fn are_near(before: &Between<'_>, after: &Between<'_>) -> bool
    ensures { result ≡ are_near before.now.valid.now before.now.own.now before.now.target.now
        after.now.valid.now after.now.own.now after.now.target.now }
{
    is_near(before.valid.config(), before.own, before.target)
        && is_near(after.valid.config(), after.own, after.target)
}
