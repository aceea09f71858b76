//! The events of a scenario, and the packets that are traced after them.
ghost use Rattle.std.specs.Prelude.{◌≡◌, ◌<◌, IfOk};
ghost use Rattle.scenario_gen.specs.Schedule.{events, asked_port, packet};

use crate::listing::Numbered;
use crate::naming::{address, node_at, numbered};
use crate::ports::ports_count;
use config_types::{Edit, Event, ObjectKind};
use ov_types::{Items, NoMemory, Packet, PortNo, Tuple};
use std::alloc::Global;

/// The IP protocol TCP.
const TCP: u8 = 6;

/// The first of the port numbers that packets come from.
const FIRST_SOURCE_PORT: u16 = 50_000;

/// The events of the scenario.
#[tactic(auto, unfolding(crate::specs::Schedule::events))]
pub(crate) fn events(alloc: Global, scenario: u16) -> Result<Items<Event>, NoMemory>
    ensures { IfOk result (λ es. es ≡ events scenario) }
{
    let a = numbered(alloc, "c", 1)?;
    let b = numbered(alloc, "c", 2)?;
    let node = node_at(alloc, scenario)?;
    let port = numbered(alloc, "v", 5)?;
    let delete = Edit::Delete(ObjectKind::Port, port);
    let events = vec![in alloc;
        Event::Settle,
        Event::Lose { a, b },
        Event::Restart { node },
        Event::Edit(delete),
        Event::Settle,
    ]?;
    Ok(Items::from_vec(events))
}

/// The port number that a count reaches which goes round the four that rules speak of.
fn asked_port(count: u16) -> u16
    ensures { result ≡ asked_port count }
{
    match count % 4 {
        0 => 80,
        1 => 22,
        2 => 5432,
        _ => 23,
    }
}

impl Numbered for Packet {
    ghost by_number = { packet };

    #[tactic(auto, unfolding(crate::specs::Schedule::packet))]
    fn numbered(_alloc: Global, scenario: u16, number: u16) -> Result<Self, NoMemory> {
        let source = (17 * number + scenario) % ports_count(scenario);
        let place = (number % 4) as u8;
        Ok(Packet {
            source: PortNo(u32::from(source)),
            destination: address(10, place, 0, 1 + number % 16),
            tuple: Tuple {
                proto: TCP,
                sport: FIRST_SOURCE_PORT + number,
                dport: asked_port(number / 4),
            },
        })
    }
}
