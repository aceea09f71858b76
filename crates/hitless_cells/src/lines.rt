//! Which packets between two ports a change interrupts.
ghost use Rattle.std.specs.Prelude.{◌≡◌, ◌++◌, option_copied, OnOk};
ghost use Rattle.hitless_cells.specs.Lines.{best_line, comes_first, difference_at, difference_of, first_difference, is_place};
ghost use Rattle.hitless_cells.specs.Lines.{leads, lesser, line_on, lines_at, lines_from, lines_of};
ghost use Rattle.hitless_cells.specs.Lines.{same_found, same_subnet, subnet_at, subnet_counts};

use crate::cells::Cell;
use crate::changes::{Change, worse};
use crate::course::Course;
use crate::ends::Ends;
use crate::joints::Joint;
use crate::openings::Opening;
use config_types::Network;
use ov_types::{Addr, NoMemory, PortNo, Prefix, Tuple};

/// What is otherwise of the ways of a packet, so that it is not kept.
#[derive(Clone, Copy)]
pub enum Difference {
    /// The way after is not offered before.
    NotOfferedBefore,
    /// The way before is not offered after.
    NotOfferedAfter,
    /// The source or the destination is of another network.
    Network,
    /// The source or the destination is at another compute node.
    Node,
    /// The services on a way are others, or at other compute nodes.
    Services,
    /// Another subnet leads packets on a way.
    Subnet,
    /// A compute node listens to other control nodes.
    ControlNodes,
    /// The packet is delivered to another port after.
    AnotherPort { after: PortNo },
}

/// The least packet from one port to another that is delivered before and after and not kept, by which way before, and by
/// which after.
#[derive(Clone, Copy)]
pub struct Interruption {
    pub from: PortNo,
    pub to: PortNo,
    pub tuple: Tuple,
    pub was: Course,
    pub becomes: Course,
    pub difference: Difference,
}

/// The subnet of a network that holds an address.
fn subnet_at<'a>(network: &'a Network, address: Addr) -> Option<&'a Prefix>
    ensures { option_copied result ≡ subnet_at network.now address.0 }
{
    network
        .subnets
        .as_slice()
        .iter()
        .find(|s| s.contains(address))
}

fn same_found(prefix: Option<&Prefix>, other: Option<&Prefix>) -> bool
    ensures { result ≡ same_found (option_copied prefix.entry) (option_copied other.entry) }
{
    match (prefix, other) {
        (Some(prefix), Some(other)) => {
            prefix.addr().0 == other.addr().0 && prefix.len() == other.len()
        }
        _ => false,
    }
}

/// Whether one subnet holds an address before and after.
fn same_subnet(to: &Ends, address: Addr) -> bool
    ensures { result ≡ same_subnet to.now address.0 }
{
    same_found(
        subnet_at(&to.before, address),
        subnet_at(&to.after, address),
    )
}

fn leads(course: &Course) -> bool
    ensures { result ≡ leads course.now }
{
    matches!(course, Course::Through { .. })
}

/// Whether a way of a cell leads through a chain, and another subnet holds the address.
fn subnet_counts(to: &Ends, address: Addr, cell: &Cell) -> bool
    ensures { result ≡ subnet_counts to.now address.0 cell.now }
{
    (leads(&cell.was) || leads(&cell.becomes)) && !same_subnet(to, address)
}

fn is_place(change: Change) -> bool
    ensures { result ≡ is_place change }
{
    matches!(change, Change::Place)
}

/// What differs first where both ways lie open in both configurations.
fn first_difference(
    same_numbers: bool,
    nodes: Change,
    services: Change,
    other_subnet: bool,
) -> Option<Difference>
    ensures { result ≡ first_difference same_numbers nodes services other_subnet }
{
    if !same_numbers {
        return Some(Difference::Network);
    }
    if is_place(nodes) {
        return Some(Difference::Node);
    }
    if is_place(services) {
        return Some(Difference::Services);
    }
    if other_subnet {
        return Some(Difference::Subnet);
    }
    match worse(nodes, services) {
        Change::Same => None,
        _ => Some(Difference::ControlNodes),
    }
}

/// What differs first of a cell's packet from one port to another.
fn difference_of(
    from: &Ends,
    to: &Ends,
    source: &Joint,
    arrival: &Joint,
    cell: &Cell,
) -> Option<Difference>
    ensures { result ≡ difference_of from.now to.now source.now arrival.now cell.now }
{
    match cell.opening {
        Opening::NotBefore => Some(Difference::NotOfferedBefore),
        Opening::NotAfter => Some(Difference::NotOfferedAfter),
        Opening::Both(services) => first_difference(
            from.before.id.0 == from.after.id.0 && to.before.id.0 == to.after.id.0,
            worse(source.change, arrival.change),
            services,
            subnet_counts(to, arrival.before.address, cell),
        ),
    }
}

fn difference_at(
    from: &Ends,
    to: &Ends,
    source: &Joint,
    arrival: &Joint,
    cell: &Cell,
) -> Option<Difference>
    ensures { result ≡ difference_at from.now to.now source.now arrival.now cell.now }
{
    if arrival.before.id.0 != arrival.after.id.0 {
        return Some(Difference::AnotherPort {
            after: arrival.after.id,
        });
    }
    difference_of(from, to, source, arrival, cell)
}

/// The line of a cell's packet from one port to another, if it is not kept.
fn line_on(
    from: &Ends,
    to: &Ends,
    source: &Joint,
    arrival: &Joint,
    cell: &Cell,
) -> Option<Interruption>
    ensures { result ≡ line_on from.now to.now source.now arrival.now cell.now }
{
    let Some(difference) = difference_at(from, to, source, arrival, cell) else {
        return None;
    };
    Some(Interruption {
        from: source.before.id,
        to: arrival.before.id,
        tuple: cell.tuple,
        was: cell.was,
        becomes: cell.becomes,
        difference,
    })
}

/// Whether a tuple comes before another: by protocol, then by source port, then by destination port.
fn comes_first(tuple: &Tuple, other: &Tuple) -> bool
    ensures { result ≡ comes_first tuple.now other.now }
{
    if tuple.proto != other.proto {
        return tuple.proto < other.proto;
    }
    if tuple.sport != other.sport {
        return tuple.sport < other.sport;
    }
    tuple.dport < other.dport
}

/// The one of two lines that has the lesser tuple.
fn lesser(line: Option<Interruption>, other: Option<Interruption>) -> Option<Interruption>
    ensures { result ≡ lesser line other }
{
    match (line, other) {
        (None, _) => other,
        (_, None) => line,
        (Some(first), Some(second)) => {
            if comes_first(&second.tuple, &first.tuple) {
                other
            } else {
                line
            }
        }
    }
}

/// The line of the least packet from one port to another.
fn best_line(
    from: &Ends,
    to: &Ends,
    source: &Joint,
    arrival: &Joint,
    cells: &[Cell],
) -> Option<Interruption>
    ensures { result ≡ best_line from.now to.now source.now arrival.now None cells.now }
{
    let mut best = None;
    for cell in cells {
        best = lesser(best, line_on(from, to, source, arrival, cell));
    }
    best
}

fn push_best(
    lines: &mut Vec<Interruption>,
    from: &Ends,
    to: &Ends,
    source: &Joint,
    arrival: &Joint,
    cells: &[Cell],
) -> Result<(), NoMemory>
    ensures { OnOk result (lines.new.items ≡ lines.old.items ++ lines_at from.now to.now cells.now source.now arrival.now) }
{
    if let Some(line) = best_line(from, to, source, arrival, cells) {
        lines.push(line)?;
    }
    Ok(())
}

fn push_to_each(
    lines: &mut Vec<Interruption>,
    from: &Ends,
    to: &Ends,
    source: &Joint,
    cells: &[Cell],
) -> Result<(), NoMemory>
    ensures { OnOk result (lines.new.items ≡ lines.old.items ++ lines_from from.now to.now cells.now source.now) }
{
    for arrival in to.joints.as_slice() {
        push_best(lines, from, to, source, arrival, cells)?;
    }
    Ok(())
}

/// Appends the lines of the ports of two networks.
pub(crate) fn push_lines(
    lines: &mut Vec<Interruption>,
    from: &Ends,
    to: &Ends,
    cells: &[Cell],
) -> Result<(), NoMemory>
    ensures { OnOk result (lines.new.items ≡ lines.old.items ++ lines_of from.now to.now cells.now) }
{
    for source in from.joints.as_slice() {
        push_to_each(lines, from, to, source, cells)?;
    }
    Ok(())
}
