//! The lines of answers, of messages and of scenarios that no document here has.
ghost use Rattle.config_types.specs.declared.event.Event.TheVariants.{Show};
ghost use Rattle.report.specs.Answers.{IsAnswerTo};

use crate::decisions::push_limits;
use crate::documents::name_of;
use crate::fault::{CaseFault, told};
use crate::words;
use config_check::{EditFault, Refusal};
use config_types::{Edit, ObjectKind};
use ov_io::TextOut;
use ov_types::{
    Addr, InstanceId, Items, Label, Name, NoMemory, NodeRows, Outcome, PortNo, Prefix, Rd, RuleNo,
    ServiceNo, Services, TableRow, Target, Targets, VpnKey, VpnRoute, Why,
};
use report::{
    answer_lines, drop_lines, fault_lines, incomplete_lines, notification_lines, open_lines,
    put_lines, summary_lines, tied_answer_lines,
};
use schedule_script::{Answer, Event, Tie, TiedAnswer};
use std::alloc::Global;

pub(crate) fn tell(
    alloc: Global,
    kind: &str,
    given: &str,
    out: &mut TextOut,
) -> Result<(), CaseFault> {
    match kind {
        "answer" => tell_answer(alloc, name_of("vm9")?, given, out),
        "tied" => tell_tied(alloc, given, out),
        _ => told(push_lines(alloc, given, out)),
    }
}

/// The lines of an answer to event 3.
fn tell_answer(alloc: Global, name: Name, word: &str, out: &mut TextOut) -> Result<(), CaseFault> {
    let rule = Refusal::AddressOutside { port: name };
    match word {
        "did" => answer(alloc, name, &Answer::Did, out),
        "idle" => answer(alloc, name, &Answer::Idle, out),
        "missing" => refuse(alloc, name, EditFault::Missing { name }, out),
        "outside" => refuse(alloc, name, EditFault::Rule(rule), out),
        "settled" => settle(alloc, name, 6, true, out),
        "unsettled" => settle(alloc, name, 8, false, out),
        "delivered" => deliver(alloc, name, out),
        "shown" => show(alloc, name, out),
        _ => drop_for(alloc, name, word, out),
    }
}

/// The lines of an answer to a `show` of a node.
fn answer(alloc: Global, node: Name, answer: &Answer, out: &mut TextOut) -> Result<(), CaseFault>
    requires { IsAnswerTo (Show node) answer.now }
{
    told(answer_lines(alloc, 3, &Event::Show { node }, answer, out))
}

fn refuse(alloc: Global, node: Name, fault: EditFault, out: &mut TextOut) -> Result<(), CaseFault> {
    answer(alloc, node, &Answer::EditRefused(fault), out)
}

fn settle(
    alloc: Global,
    node: Name,
    rounds: u32,
    settled: bool,
    out: &mut TextOut,
) -> Result<(), CaseFault> {
    answer(alloc, node, &Answer::Rounds { rounds, settled }, out)
}

/// A packet that came to port 2 by the services 1 and 2.
fn deliver(alloc: Global, node: Name, out: &mut TextOut) -> Result<(), CaseFault> {
    let mut services = Services::new();
    services.push(ServiceNo(1));
    services.push(ServiceNo(2));
    let outcome = Outcome::Delivered {
        port: PortNo(2),
        services,
    };
    answer(alloc, node, &Answer::Traced(outcome), out)
}

const RULE: RuleNo = RuleNo {
    sequence: 10,
    position: 1,
};

/// Why a packet is dropped, by a word.
fn why(word: &str) -> Option<Why> {
    match word {
        "no-source-port" => Some(Why::NoSourcePort),
        "no-destination" => Some(Why::NoDestination),
        "no-route" => Some(Why::NoRoute),
        "denied-by-a-rule" => Some(Why::Denied { rule: Some(RULE) }),
        "denied" => Some(Why::Denied { rule: None }),
        "no-label" => Some(Why::NoLabel),
        "ttl-expired" => Some(Why::TtlExpired),
        _ => None,
    }
}

fn drop_for(alloc: Global, node: Name, word: &str, out: &mut TextOut) -> Result<(), CaseFault> {
    match why(word) {
        Some(why) => answer(alloc, node, &Answer::Traced(Outcome::Dropped { why }), out),
        None => Err(CaseFault::Unreadable),
    }
}

/// One row of a control node.
fn row(alloc: Global) -> Result<NodeRows, NoMemory> {
    let leads = TableRow {
        rd: Rd(0x0001_c000_020b_0001),
        next_hop: Addr(0xc000_020b),
        label: Label(23),
    };
    let key = (InstanceId(1), Prefix::host(Addr(0x0a01_0005)));
    Ok(NodeRows::Control(Items::from_vec(vec![in alloc; (key, leads)]?)))
}

fn show(alloc: Global, node: Name, out: &mut TextOut) -> Result<(), CaseFault> {
    let rows = row(alloc)?;
    answer(alloc, node, &Answer::Shown(rows), out)
}

/// The line of an edit of event 3 that would break a tie.
fn tell_tied(alloc: Global, word: &str, out: &mut TextOut) -> Result<(), CaseFault> {
    match word {
        "port" => break_tie(alloc, Tie::Port(PortNo(2)), out),
        "use" => break_tie(alloc, Tie::ChainUse(7), out),
        "node" => break_tie(alloc, Tie::Node(Addr(0xc000_020d)), out),
        _ => Err(CaseFault::Unreadable),
    }
}

fn break_tie(alloc: Global, tie: Tie, out: &mut TextOut) -> Result<(), CaseFault> {
    let event = Event::Edit(Edit::Delete(ObjectKind::Port, name_of("vm9")?));
    let answer = TiedAnswer::EditTied(tie);
    told(tied_answer_lines(alloc, 3, &event, &answer, out))
}

/// The lines of messages, of a scenario or of words.
fn push_lines(alloc: Global, word: &str, out: &mut TextOut) -> Result<(), NoMemory> {
    match word {
        "messages" => push_messages(alloc, out),
        "puts" => push_puts(alloc, out),
        "summary" => summary_lines(alloc, 3, 12, 192, 3, (6, 5), 8, 40, out),
        "refused-limits" => words::push_limits(alloc, out),
        "refused-numbers" => words::push_numbers(alloc, out),
        "reasons" => words::push_reasons(alloc, out),
        "spread-reasons" => words::push_spread_reasons(alloc, out),
        _ => push_limits(out),
    }
}

fn push_messages(alloc: Global, out: &mut TextOut) -> Result<(), NoMemory> {
    open_lines(alloc, 64512, 180, Addr(0xc000_0202), out)?;
    drop_lines(alloc, &key(), out)?;
    notification_lines(alloc, 6, 0, out)?;
    fault_lines(alloc, 3, 11, out)?;
    incomplete_lines(alloc, 18, out)
}

fn key() -> VpnKey {
    VpnKey {
        rd: Rd(0x0001_c000_020b_0001),
        prefix: Prefix::host(Addr(0x0a01_0005)),
    }
}

/// Two targets, the greater one first.
fn add_targets(targets: &mut Targets) -> Result<(), NoMemory> {
    targets.insert(Target(0x0102_c000_0201_0007))?;
    targets.insert(Target(0x0002_fc00_007a_1201))
}

/// A route without targets, and then with two.
fn push_puts(alloc: Global, out: &mut TextOut) -> Result<(), NoMemory> {
    let mut route = VpnRoute {
        next_hop: Addr(0xc000_020b),
        label: Label(23),
        targets: Targets::new(alloc),
    };
    put_lines(alloc, &key(), &route, out)?;
    add_targets(&mut route.targets)?;
    put_lines(alloc, &key(), &route, out)
}
