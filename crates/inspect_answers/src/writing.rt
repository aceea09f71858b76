//! Writing the ways: each line is made, and handed on where enough is gathered.
ghost use Rattle.std.specs.Prelude.{◌≡◌, ◌++◌, [], flat_map, OnOk, OnErr};
ghost use Rattle.std.specs.Io.KnownBytes.{Appends};
ghost use Rattle.ov_io.specs.Inputs.{TookFront};
ghost use Rattle.ov_io.specs.Pieces.{HasWriteCause, IsOnItsWay};
ghost use Rattle.inspect_changes.specs.Lines.{is_asked};
ghost use Rattle.inspect_json.specs.WayLines.{between_in, pair_in, ways_in};

use compile_answers::write_one;
use config_check::Valid;
use config_types::Network;
use inspect_changes::{LinesOf, Pairs, ways_found};
use inspect_json::{Form, WaysIn};
use ov_io::{Sink, TextOut, WriteRefusal, write_gathered};
use policy_regions::LastFound;
use std::alloc::Global;

/// Hands on the lines of each thing, in order.
pub(crate) fn write_each<K: Sink, T, W: LinesOf<T>>(
    alloc: Global,
    lines: &W,
    items: &[T],
    sink: &mut K,
    gathered: &mut TextOut,
) -> Result<(), WriteRefusal>
    ensures ok { OnOk result (IsOnItsWay (K.taken sink.old) (K.taken sink.new) gathered.new []
        (gathered.old ++ flat_map (W.lines lines.now) items.now)) }
    ensures front { OnErr result (TookFront (K.taken sink.old) (K.taken sink.new)
        (gathered.old ++ flat_map (W.lines lines.now) items.now)) }
    ensures cause { HasWriteCause (K.faults sink.old) (K.faults sink.new) result }
{
    for item in items {
        write_one(alloc, lines, item, sink, gathered)?;
    }
    Ok(())
}

/// Hands on the lines of the ways from one network to another.
#[tactic(auto, using(ov_io::proofs::PieceLemmas::took_nothing))]
fn write_between<K: Sink>(
    alloc: Global,
    form: Form,
    valid: &Valid,
    last: &mut LastFound,
    from: &Network,
    to: &Network,
    sink: &mut K,
    gathered: &mut TextOut,
) -> Result<(), WriteRefusal>
    ensures ok { OnOk result (IsOnItsWay (K.taken sink.old) (K.taken sink.new) gathered.new []
        (gathered.old ++ between_in form valid.now.config from.now to.now)) }
    ensures front { OnErr result (TookFront (K.taken sink.old) (K.taken sink.new)
        (gathered.old ++ between_in form valid.now.config from.now to.now)) }
    ensures cause { HasWriteCause (K.faults sink.old) (K.faults sink.new) result }
{
    let ways = ways_found(alloc, valid, last, from, to)?;
    let lines = WaysIn {
        form,
        config: valid.config(),
        from: from.name,
        to: to.name,
    };
    write_each(alloc, &lines, ways.as_slice(), sink, gathered)
}

fn is_asked(pairs: &Pairs, from: &Network, to: &Network) -> bool
    ensures { result ≡ is_asked pairs.now from.now to.now }
{
    match pairs {
        Pairs::All => from.name != to.name,
        Pairs::Between {
            from: source,
            to: destination,
        } => from.name == *source && to.name == *destination,
    }
}

/// Hands on the lines of the ways from one network to another, where these are asked for.
#[tactic(auto, using(ov_io::proofs::PieceLemmas::way_stays))]
fn write_pair<K: Sink>(
    alloc: Global,
    form: Form,
    pairs: &Pairs,
    valid: &Valid,
    last: &mut LastFound,
    from: &Network,
    to: &Network,
    sink: &mut K,
    gathered: &mut TextOut,
) -> Result<(), WriteRefusal>
    ensures ok { OnOk result (IsOnItsWay (K.taken sink.old) (K.taken sink.new) gathered.new []
        (gathered.old ++ pair_in form pairs.now valid.now.config from.now to.now)) }
    ensures front { OnErr result (TookFront (K.taken sink.old) (K.taken sink.new)
        (gathered.old ++ pair_in form pairs.now valid.now.config from.now to.now)) }
    ensures cause { HasWriteCause (K.faults sink.old) (K.faults sink.new) result }
{
    if is_asked(pairs, from, to) {
        return write_between(alloc, form, valid, last, from, to, sink, gathered);
    }
    Ok(())
}

/// Hands on the lines of the ways from one network to each of others, in order.
fn write_network<K: Sink>(
    alloc: Global,
    form: Form,
    pairs: &Pairs,
    valid: &Valid,
    last: &mut LastFound,
    from: &Network,
    others: &[Network],
    sink: &mut K,
    gathered: &mut TextOut,
) -> Result<(), WriteRefusal>
    ensures ok { OnOk result (IsOnItsWay (K.taken sink.old) (K.taken sink.new) gathered.new []
        (gathered.old ++ flat_map (pair_in form pairs.now valid.now.config from.now) others.now)) }
    ensures front { OnErr result (TookFront (K.taken sink.old) (K.taken sink.new)
        (gathered.old ++ flat_map (pair_in form pairs.now valid.now.config from.now) others.now)) }
    ensures cause { HasWriteCause (K.faults sink.old) (K.faults sink.new) result }
{
    for to in others {
        write_pair(alloc, form, pairs, valid, last, from, to, sink, gathered)?;
    }
    Ok(())
}

/// Writes the ways that are asked for of a valid configuration.
#[tactic(auto, unfolding(inspect_json::specs::WayLines::ways_in))]
pub(crate) fn write_all_ways<K: Sink>(
    alloc: Global,
    form: Form,
    pairs: &Pairs,
    valid: &Valid,
    sink: &mut K,
) -> Result<(), WriteRefusal>
    ensures ok { OnOk result (Appends (K.taken sink.old) (K.taken sink.new) (ways_in form pairs.now valid.now.config)) }
    ensures front { OnErr result (TookFront (K.taken sink.old) (K.taken sink.new) (ways_in form pairs.now valid.now.config)) }
    ensures cause { HasWriteCause (K.faults sink.old) (K.faults sink.new) result }
{
    let networks = valid.config().networks.as_slice();
    let mut last = LastFound::new(alloc)?;
    let mut gathered = TextOut::new(alloc);
    for from in networks {
        write_network(
            alloc,
            form,
            pairs,
            valid,
            &mut last,
            from,
            networks,
            sink,
            &mut gathered,
        )?;
    }
    write_gathered(sink, &mut gathered)
}
