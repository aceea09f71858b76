//! Writing what control nodes ask of their peers, and what they send to each other then.
ghost use Rattle.std.specs.Prelude.{◌≡◌, ◌++◌, [], false, true, OnOk, OnErr};
ghost use Rattle.std.specs.List.{flat_map};
ghost use Rattle.std.specs.Io.KnownBytes.{Appends};
ghost use Rattle.net_machine.specs.Runs.{tied_moment};
ghost use Rattle.net_machine.specs.Looking.{is_control_node};
ghost use Rattle.ov_io.specs.Inputs.{TookFront};
ghost use Rattle.ov_io.specs.Pieces.{HasWriteCause, IsOnItsWay};
ghost use Rattle.rt_constrain.specs.Covering.{AreAsked};
ghost use Rattle.vpn_tables.specs.Views.{peer_of};
ghost use Rattle.top_call.specs.Constraint.{AreControlNodes, AreInForm, constraint_text};
ghost use Rattle.top_call.specs.Constraint.{line_of, sent_by, sent_to, text_of};
ghost use Rattle.top_call.specs.ConstraintNetworks.{NoneNeedsMore};

use crate::asking::{Asking, askings_in};
use net_machine::Net;
use ov_io::{Sink, TextOut, WriteRefusal, write_gathered, write_piece};
use ov_types::{Name, NodeId, VpnKey, VpnRoute};
use report::{asked_lines, sent_lines};
use rt_constrain::share_of;
use std::alloc::Global;
use std::collections::BTreeMap;

/// Hands on the line of what a control node asks.
#[tactic(auto, using(ov_io::proofs::PieceLemmas::took_nothing))]
fn write_asking<K: Sink>(
    alloc: Global,
    asking: &Asking,
    sink: &mut K,
    gathered: &mut TextOut,
) -> Result<(), WriteRefusal>
    ensures ok { OnOk result (IsOnItsWay (K.taken sink.old) (K.taken sink.new) gathered.new []
        (gathered.old ++ line_of asking.now)) }
    ensures front { OnErr result (TookFront (K.taken sink.old) (K.taken sink.new) (gathered.old ++ line_of asking.now)) }
    ensures cause { HasWriteCause (K.faults sink.old) (K.faults sink.new) result }
{
    asked_lines(alloc, &asking.node, asking.asked.as_slice(), gathered)?;
    write_piece(sink, gathered)
}

/// Hands on the lines of what each control node asks, in order.
fn write_askings<K: Sink>(
    alloc: Global,
    askings: &[Asking],
    sink: &mut K,
    gathered: &mut TextOut,
) -> Result<(), WriteRefusal>
    ensures ok { OnOk result (IsOnItsWay (K.taken sink.old) (K.taken sink.new) gathered.new []
        (gathered.old ++ flat_map line_of askings.now)) }
    ensures front { OnErr result (TookFront (K.taken sink.old) (K.taken sink.new)
        (gathered.old ++ flat_map line_of askings.now)) }
    ensures cause { HasWriteCause (K.faults sink.old) (K.faults sink.new) result }
{
    for asking in askings {
        write_asking(alloc, asking, sink, gathered)?;
    }
    Ok(())
}

/// Hands on the line of how much of some routes a control node sends to another one, by what that one asks. A control
/// node sends nothing to itself, and so has no such line.
#[tactic(auto, using(ov_io::proofs::PieceLemmas::took_nothing))]
fn write_sent_to<K: Sink>(
    alloc: Global,
    from: &Name,
    routes: &BTreeMap<VpnKey, VpnRoute>,
    to: &Asking,
    sink: &mut K,
    gathered: &mut TextOut,
) -> Result<(), WriteRefusal>
    requires { AreAsked to.now.asked }
    ensures ok { OnOk result (IsOnItsWay (K.taken sink.old) (K.taken sink.new) gathered.new []
        (gathered.old ++ sent_to from.now (peer_of routes.now.entries) to.now)) }
    ensures front { OnErr result (TookFront (K.taken sink.old) (K.taken sink.new)
        (gathered.old ++ sent_to from.now (peer_of routes.now.entries) to.now)) }
    ensures cause { HasWriteCause (K.faults sink.old) (K.faults sink.new) result }
{
    if *from == to.node {
        return Ok(());
    }
    let share = share_of(routes, to.asked.as_slice());
    sent_lines(alloc, from, &to.node, share.sent, share.all, gathered)?;
    write_piece(sink, gathered)
}

/// Hands on the lines of how much of these routes a control node sends to each other one that asks so, in order.
fn write_sent_to_each<K: Sink>(
    alloc: Global,
    from: &Name,
    routes: &BTreeMap<VpnKey, VpnRoute>,
    askings: &[Asking],
    sink: &mut K,
    gathered: &mut TextOut,
) -> Result<(), WriteRefusal>
    requires { AreInForm askings.now }
    ensures ok { OnOk result (IsOnItsWay (K.taken sink.old) (K.taken sink.new) gathered.new []
        (gathered.old ++ flat_map (sent_to from.now (peer_of routes.now.entries)) askings.now)) }
    ensures front { OnErr result (TookFront (K.taken sink.old) (K.taken sink.new)
        (gathered.old ++ flat_map (sent_to from.now (peer_of routes.now.entries)) askings.now)) }
    ensures cause { HasWriteCause (K.faults sink.old) (K.faults sink.new) result }
{
    for asking in askings {
        write_sent_to(alloc, from, routes, asking, sink, gathered)?;
    }
    Ok(())
}

/// Hands on the lines of how much a control node sends to each other one.
#[tactic(auto, using(ov_io::proofs::PieceLemmas::took_nothing))]
fn write_sent_by<K: Sink>(
    alloc: Global,
    net: &Net,
    node: &NodeId,
    askings: &[Asking],
    sink: &mut K,
    gathered: &mut TextOut,
) -> Result<(), WriteRefusal>
    requires works { net.now.failed ≡ false }
    requires there { is_control_node (tied_moment net.now.opening net.now.events).network.setup.topology node.now.name ≡ true }
    requires form { AreInForm askings.now }
    ensures ok { OnOk result (IsOnItsWay (K.taken sink.old) (K.taken sink.new) gathered.new []
        (gathered.old ++ sent_by (tied_moment net.now.opening net.now.events).network askings.now node.now)) }
    ensures front { OnErr result (TookFront (K.taken sink.old) (K.taken sink.new)
        (gathered.old ++ sent_by (tied_moment net.now.opening net.now.events).network askings.now node.now)) }
    ensures cause { HasWriteCause (K.faults sink.old) (K.faults sink.new) result }
{
    let Some(control) = net.control(&node.name) else {
        unreachable!()
    };
    let routes = control.wanted(alloc)?;
    write_sent_to_each(alloc, &node.name, &routes, askings, sink, gathered)
}

/// Hands on the lines of how much each of these control nodes sends to each other one, in their order.
fn write_sent<K: Sink>(
    alloc: Global,
    net: &Net,
    controllers: &[NodeId],
    askings: &[Asking],
    sink: &mut K,
    gathered: &mut TextOut,
) -> Result<(), WriteRefusal>
    requires works { net.now.failed ≡ false }
    requires there { AreControlNodes (tied_moment net.now.opening net.now.events).network.setup.topology controllers.now }
    requires form { AreInForm askings.now }
    ensures ok { OnOk result (IsOnItsWay (K.taken sink.old) (K.taken sink.new) gathered.new []
        (gathered.old ++ flat_map (sent_by (tied_moment net.now.opening net.now.events).network askings.now) controllers.now)) }
    ensures front { OnErr result (TookFront (K.taken sink.old) (K.taken sink.new)
        (gathered.old ++ flat_map (sent_by (tied_moment net.now.opening net.now.events).network askings.now) controllers.now)) }
    ensures cause { HasWriteCause (K.faults sink.old) (K.faults sink.new) result }
{
    for controller in controllers {
        write_sent_by(alloc, net, controller, askings, sink, gathered)?;
    }
    Ok(())
}

/// Writes what these control nodes ask, and then how much each sends to each other one.
fn write_lines<K: Sink>(
    alloc: Global,
    net: &Net,
    controllers: &[NodeId],
    askings: &[Asking],
    sink: &mut K,
) -> Result<(), WriteRefusal>
    requires works { net.now.failed ≡ false }
    requires there { AreControlNodes (tied_moment net.now.opening net.now.events).network.setup.topology controllers.now }
    requires form { AreInForm askings.now }
    ensures ok { OnOk result (Appends (K.taken sink.old) (K.taken sink.new)
        (text_of (tied_moment net.now.opening net.now.events).network controllers.now askings.now)) }
    ensures front { OnErr result (TookFront (K.taken sink.old) (K.taken sink.new)
        (text_of (tied_moment net.now.opening net.now.events).network controllers.now askings.now)) }
    ensures cause { HasWriteCause (K.faults sink.old) (K.faults sink.new) result }
{
    let mut gathered = TextOut::new(alloc);
    write_askings(alloc, askings, sink, &mut gathered)?;
    write_sent(alloc, net, controllers, askings, sink, &mut gathered)?;
    write_gathered(sink, &mut gathered)
}

/// Writes what the control nodes of a network ask of their peers, and how much they send to each other then.
#[tactic(auto, using(crate::proofs::Askings::askings_are_in_form))]
pub(crate) fn write_constraint<K: Sink>(
    alloc: Global,
    net: &Net,
    sink: &mut K,
) -> Result<(), WriteRefusal>
    requires { net.now.failed ≡ false }
    ensures ok { OnOk result (Appends (K.taken sink.old) (K.taken sink.new)
        (constraint_text (tied_moment net.now.opening net.now.events).network)) }
    ensures front { OnErr result (TookFront (K.taken sink.old) (K.taken sink.new)
        (constraint_text (tied_moment net.now.opening net.now.events).network)) }
    ensures cause { HasWriteCause (K.faults sink.old) (K.faults sink.new) result }
    ensures enough { OnOk result (NoneNeedsMore (tied_moment net.now.opening net.now.events).network) }
{
    let askings = askings_in(alloc, net)?;
    let topology = net.config().topology();
    let controllers = topology.controllers.as_slice();
    write_lines(alloc, net, controllers, askings.as_slice(), sink)
}
