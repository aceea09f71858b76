//! Which node has a number.
ghost use Rattle.std.specs.Prelude.{◌≡◌};
ghost use Rattle.running_nodes.specs.Cores.{IsWithin, number_of};

/// A node by its kind, and its place among the nodes of that kind.
#[derive(Clone, Copy)]
pub(crate) enum NodeRole {
    Configuration,
    Control(usize),
    Agent(usize),
}

/// The node of this number, where there are so many control nodes.
pub(crate) fn kind_of(controls: usize, node: u16) -> NodeRole
    ensures number { number_of controls result ≡ node }
    ensures within { IsWithin controls result }
{
    let number = usize::from(node);
    if number == 0 {
        return NodeRole::Configuration;
    }
    let place = number - 1;
    if place < controls {
        NodeRole::Control(place)
    } else {
        NodeRole::Agent(place - controls)
    }
}
