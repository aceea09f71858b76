//! What becomes of a packet, with the members that it visits.
ghost use Rattle.std.specs.Prelude.{◌≡◌, ◌≢◌, ◌<◌, ◌≤◌, ◌^◌, length, map, option_copied, IsTrue};
ghost use Rattle.std.specs.List.{All, AllPairs, list_all};
ghost use Rattle.reach_plain.specs.Reachability.{reachability};
ghost use Rattle.scale_out.specs.Choice.{IsChosen, chosen};
ghost use Rattle.scale_out.specs.Form.{has_group_form};
ghost use Rattle.scale_out.specs.Groups.{group_named, service_numbered, group_for, members_of};
ghost use Rattle.scale_out.specs.Spread.{key, visit_by, spread, services_of, visits_of};

use crate::choice::choose;
use crate::groups::{Group, Groups};
use crate::visits::{Spread, Visit, Visits};
use config_check::{Valid, port_numbered};
use config_types::{Config, Service};
use ov_types::{Name, Outcome, Packet, ServiceNo};
use reach_plain::reach;

/// The member of a service that has no group.
const LONE_MEMBER: u16 = 0;

/// The first service of a number.
fn service_numbered<'a>(config: &'a Config, number: ServiceNo) -> Option<&'a Service>
    ensures { option_copied result ≡ service_numbered config.now number }
{
    config
        .services
        .as_slice()
        .iter()
        .find(|s| s.id.0 == number.0)
}

/// The group of a service.
fn group_named<'g>(groups: &'g [Group], name: &Name) -> Option<&'g Group>
    ensures { option_copied result ≡ group_named groups.now name.now }
{
    groups.iter().find(|g| g.service == *name)
}

/// The group of the service of a number.
fn group_for<'g>(config: &Config, groups: &'g [Group], number: ServiceNo) -> Option<&'g Group>
    ensures { option_copied result ≡ group_for config.now groups.now number }
{
    match service_numbered(config, number) {
        Some(service) => group_named(groups, &service.name),
        None => None,
    }
}

/// The member of a service that a packet with this key visits.
#[tactic(auto, using(crate::proofs::Kept::kept_members))]
fn member_of(config: &Config, groups: &[Group], number: ServiceNo, key: u64) -> u16
    requires form { IsTrue (list_all has_group_form groups.now) }
    requires key { key < 2 ^ 34 }
    ensures { result ≡ chosen (members_of config.now groups.now number) key }
{
    match group_for(config, groups, number) {
        Some(group) => choose(group.members.as_slice(), key),
        None => LONE_MEMBER,
    }
}

/// A packet's key: it is the same of a packet and of its reply.
fn key_of(config: &Config, packet: &Packet) -> u64
    ensures value { result ≡ key config.now packet.now }
    ensures bound { result < 2 ^ 34 }
{
    let source = match port_numbered(config, packet.source) {
        Some(port) => port.address.0 as u64,
        None => 0,
    };
    let tuple = packet.tuple;
    let addresses = source + packet.destination.0 as u64;
    addresses + tuple.sport as u64 + tuple.dport as u64 + tuple.proto as u64
}

/// Visits of some services, in order.
fn visits_of(config: &Config, groups: &[Group], services: &[ServiceNo], key: u64) -> Visits
    requires form { IsTrue (list_all has_group_form groups.now) }
    requires few { length services.now ≤ 15 }
    requires key { key < 2 ^ 34 }
    ensures { result ≡ map (visit_by config.now groups.now key) services.now }
{
    let mut visits = Visits::new();
    for service in services {
        let member = member_of(config, groups, *service, key);
        visits.push(Visit {
            service: *service,
            member,
        });
    }
    visits
}

/// What becomes of a packet, where each service that it passes is visited at one member of its group; a service
/// without a group has the one member 0. It takes no memory.
#[tactic(auto, using(crate::proofs::Visiting::spread_visits), unfolding(crate::specs::Spread::spread))]
pub fn scale_reach(valid: &Valid, groups: &Groups, packet: Packet) -> Spread
    ensures spread { result ≡ spread valid.now.config groups.now packet }
    ensures services { services_of result ≡ reachability valid.now.config packet }
    ensures once { AllPairs (λ v w. v.service.0 ≢ w.service.0) (visits_of result) }
    ensures members { All (λ v. IsChosen (members_of valid.now.config groups.now v.service)
        (key valid.now.config packet) v.member) (visits_of result) }
{
    let config = valid.config();
    let several = groups.as_slice();
    match reach(valid, packet) {
        Outcome::Delivered { port, services } => {
            let key = key_of(config, &packet);
            let visits = visits_of(config, several, services.as_slice(), key);
            Spread::Delivered { port, visits }
        }
        Outcome::Dropped { why } => Spread::Dropped { why },
    }
}
