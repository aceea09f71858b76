//! What is run of a scenario.
ghost use Rattle.std.specs.Prelude.{◌≡◌, ◌++◌, map, IfOk, IsTrue};
ghost use Rattle.std.specs.List.{list_all};
ghost use Rattle.config_types.specs.Form.{has_event_form};
ghost use Rattle.config_types.specs.Form.{has_packet_form};
ghost use Rattle.config_types.specs.declared.event.Event.TheVariants.{Trace};

use config_types::Event;
use ov_types::{NoMemory, Packet};

/// Events, and then one trace for each packet.
pub fn with_traces(events: Vec<Event>, packets: Vec<Packet>) -> Result<Vec<Event>, NoMemory>
    requires events { IsTrue (list_all has_event_form events.items) }
    requires packets { IsTrue (list_all has_packet_form packets.items) }
    ensures all { IfOk result (λ all. all.items ≡ events.items ++ map Trace packets.items) }
    ensures form { IfOk result (λ all. IsTrue (list_all has_event_form all.items)) }
{
    let mut all = events;
    for packet in packets {
        all.push(Event::Trace(packet))?;
    }
    Ok(all)
}
