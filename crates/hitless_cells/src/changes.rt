//! What is otherwise of compute nodes and services.
ghost use Rattle.std.specs.Prelude.{◌≡◌, option_copied};
ghost use Rattle.hitless_cells.specs.Openings.{change_found, change_of, stops_change, worse};

use crate::stops::Stop;
use config_types::Node;

/// What is otherwise of a compute node, or of several.
#[derive(Clone, Copy)]
pub(crate) enum Change {
    /// Nothing is otherwise.
    Same,
    /// The compute node listens to other control nodes.
    Listening,
    /// The compute node has another name or address.
    Place,
}

/// The greater of two changes.
pub(crate) fn worse(change: Change, other: Change) -> Change
    ensures { result ≡ worse change other }
{
    match (change, other) {
        (Change::Same, _) => other,
        (Change::Place, _) | (_, Change::Place) => Change::Place,
        _ => Change::Listening,
    }
}

fn change_of(node: &Node, other: &Node) -> Change
    ensures { result ≡ change_of node.now other.now }
{
    if node.name == other.name && node.address.0 == other.address.0 {
        if node.controllers == other.controllers {
            return Change::Same;
        }
        return Change::Listening;
    }
    Change::Place
}

/// What is otherwise of a compute node that is looked for in two topologies.
pub(crate) fn change_found(node: Option<&Node>, other: Option<&Node>) -> Change
    ensures { result ≡ change_found (option_copied node.entry) (option_copied other.entry) }
{
    match (node, other) {
        (Some(node), Some(other)) => change_of(node, other),
        _ => Change::Place,
    }
}

/// What is otherwise of services.
pub(crate) fn stops_change(stops: &[Stop], others: &[Stop]) -> Change
    ensures { result ≡ stops_change stops.now others.now }
{
    match stops {
        [] => match others {
            [] => Change::Same,
            [_, ..] => Change::Place,
        },
        [stop, rest @ ..] => match others {
            [] => Change::Place,
            [other, more @ ..] => {
                if stop.service.0 != other.service.0 {
                    return Change::Place;
                }
                worse(change_of(&stop.node, &other.node), stops_change(rest, more))
            }
        },
    }
}
