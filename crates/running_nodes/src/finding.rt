//! Nodes and sessions by names.
ghost use Rattle.std.specs.Prelude.{◌≡◌, ◌<◌, ◌≤◌, ◌^◌, length};
ghost use Rattle.ov_types.specs.First.{same_name};
ghost use Rattle.running_nodes.specs.Seats.{index_from, is_name};

use crate::edges::Edge;
use ov_types::Name;

/// Whether somebody is there who has this name.
fn is_name(name: &Name, there: &Option<Name>) -> bool
    ensures { result ≡ is_name name.now there.now }
{
    match there {
        None => false,
        Some(other) => *other == *name,
    }
}

/// The first place at which somebody has this name.
pub(crate) fn index_of(names: &[Option<Name>], name: &Name) -> Option<u16>
    requires { length names.now ≤ 2 ^ 16 }
    ensures { result ≡ index_from 0 (is_name name.now) names.now }
{
    for (index, there) in names.iter().enumerate() {
        if is_name(name, there) {
            return Some(index as u16);
        }
    }
    None
}

/// The place of the first edge of this name.
pub(crate) fn edge_named(edges: &[Edge], name: &Name) -> Option<u16>
    requires { length edges.now ≤ 2 ^ 16 }
    ensures { result ≡ index_from 0 (λ e. same_name e.name name.now) edges.now }
{
    for (index, edge) in edges.iter().enumerate() {
        if *edge.name() == *name {
            return Some(index as u16);
        }
    }
    None
}
