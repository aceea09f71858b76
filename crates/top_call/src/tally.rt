//! Counting answers.
ghost use Rattle.std.specs.Prelude.{◌≡◌, ◌+◌, ◌<◌, ◌^◌};
ghost use Rattle.reach_plain.specs.Reachability.{reachability};
ghost use Rattle.top_call.specs.Tallies as tallies;
ghost use Rattle.top_call.specs.Tallies.{counted, nothing, one_if};

use config_check::Valid;
use config_types::Event;
use ov_types::{Outcome, Packet};
use reach_plain::reach;
use schedule_script::{Answer, TiedAnswer};

/// What the answers of a schedule were counted to be.
#[derive(Clone, Copy, PartialEq, Eq)]
pub struct Tally {
    /// The rounds of the last settle but one, and of the last.
    pub rounds: (u32, u32),
    /// How many packets were delivered.
    pub delivered: u32,
    /// How many packets had the outcome that policies give.
    pub agreed: u32,
}

/// Whether two outcomes are one.
fn same_outcome(one: &Outcome, other: &Outcome) -> bool
    ensures { result ≡ tallies.same_outcome one.now other.now }
{
    match (one, other) {
        (
            Outcome::Delivered { port, services },
            Outcome::Delivered {
                port: other_port,
                services: other_services,
            },
        ) => *port == *other_port && services.as_slice() == other_services.as_slice(),
        (Outcome::Dropped { why }, Outcome::Dropped { why: other_why }) => *why == *other_why,
        _ => false,
    }
}

fn is_delivered(outcome: &Outcome) -> bool
    ensures { result ≡ tallies.is_delivered outcome.now }
{
    matches!(outcome, Outcome::Delivered { .. })
}

impl Tally {
    /// Nothing was counted.
    pub(crate) fn nothing() -> Tally
        ensures { result ≡ nothing }
    {
        Tally {
            rounds: (0, 0),
            delivered: 0,
            agreed: 0,
        }
    }

    /// A trace more.
    fn traced(self, valid: &Valid, packet: Packet, outcome: &Outcome) -> Tally
        requires delivered { self.delivered < 2 ^ 31 }
        requires agreed { self.agreed < 2 ^ 31 }
        ensures { result ≡ record {
          rounds = self.rounds;
          delivered = self.delivered + one_if (tallies.is_delivered outcome.now);
          agreed = self.agreed + one_if (tallies.same_outcome outcome.now (reachability valid.now.config packet));
        } }
    {
        Tally {
            rounds: self.rounds,
            delivered: self.delivered + u32::from(is_delivered(outcome)),
            agreed: self.agreed + u32::from(same_outcome(outcome, &reach(valid, packet))),
        }
    }

    /// An event more, which left this configuration, and its answer.
    pub(crate) fn counted(self, valid: &Valid, event: &Event, answer: &TiedAnswer) -> Tally
        requires delivered { self.delivered < 2 ^ 31 }
        requires agreed { self.agreed < 2 ^ 31 }
        ensures { result ≡ counted valid.now event.now answer.now self }
    {
        match (event, answer) {
            (Event::Settle, TiedAnswer::Answered(Answer::Rounds { rounds, .. })) => Tally {
                rounds: (self.rounds.1, *rounds),
                ..self
            },
            (Event::Trace(packet), TiedAnswer::Answered(Answer::Traced(outcome))) => {
                self.traced(valid, *packet, outcome)
            }
            _ => self,
        }
    }
}
