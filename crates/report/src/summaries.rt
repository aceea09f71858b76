//! The lines of scenarios.
ghost use Rattle.std.specs.Prelude.{◌≡◌, ◌++◌, Some, OnOk, OnErr};
ghost use Rattle.report.specs.Summaries.{rounds_line, scenario_line, summary_lines, traces_line};

use ov_io::TextOut;
use ov_types::NoMemory;
use std::alloc::Global;
use std::fmt;

/// A scenario, and how many things it has, as they are printed.
#[derive(Clone, Copy)]
struct ScenarioText {
    number: u16,
    networks: usize,
    ports: usize,
    uses: usize,
}

impl fmt::Display for ScenarioText {
    ghost output = { λ s. Some (scenario_line s.number s.networks s.ports s.uses) };

    fn fmt<W: fmt::Write>(&self, f: &mut fmt::Formatter<W>) -> fmt::Result {
        let ScenarioText {
            number,
            networks,
            ports,
            uses,
        } = *self;
        write!(
            f,
            "gen {number} controllers 3 nodes 20 networks {networks} ports {ports} uses {uses}\n"
        )
    }
}

/// The rounds of two settles, as they are printed.
#[derive(Clone, Copy)]
struct RoundsText((u32, u32));

impl fmt::Display for RoundsText {
    ghost output = { λ r. Some (rounds_line r.0) };

    fn fmt<W: fmt::Write>(&self, f: &mut fmt::Formatter<W>) -> fmt::Result {
        let (first, second) = self.0;
        write!(f, "rounds {first} {second}\n")
    }
}

/// What became of packets, as it is printed.
#[derive(Clone, Copy)]
struct TracesText {
    delivered: u32,
    agreed: u32,
}

impl fmt::Display for TracesText {
    ghost output = { λ t. Some (traces_line t.delivered t.agreed) };

    fn fmt<W: fmt::Write>(&self, f: &mut fmt::Formatter<W>) -> fmt::Result {
        let delivered = self.delivered;
        let agreed = self.agreed;
        write!(f, "traces 40 delivered {delivered} agreed {agreed}\n")
    }
}

/// Appends the three lines of the scenario with number `n`, which was run: what it has, the rounds of its two settles,
/// and how many of its forty packets were delivered and had the outcome that policies give.
#[tactic(auto, unfolding(crate::specs::Summaries::summary_lines))]
pub fn summary_lines(
    _alloc: Global,
    n: u16,
    networks: usize,
    ports: usize,
    uses: usize,
    rounds: (u32, u32),
    delivered: u32,
    agreed: u32,
    out: &mut TextOut,
) -> Result<(), NoMemory>
    ensures ok { OnOk result (out.new ≡ out.old ++ summary_lines n networks ports uses rounds delivered agreed) }
    ensures err { OnErr result (out.new ≡ out.old) }
{
    let scenario = ScenarioText {
        number: n,
        networks,
        ports,
        uses,
    };
    let rounds = RoundsText(rounds);
    let traces = TracesText { delivered, agreed };
    write!(out, "{scenario}{rounds}{traces}")
}
