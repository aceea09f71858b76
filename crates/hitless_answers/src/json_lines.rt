//! The lines of JSON of what is said of an edit.
ghost use Rattle.std.specs.Prelude.{◌≡◌, ◌++◌, OnErr, OnOk};
ghost use Rattle.hitless_answers.specs.FormLines.{count_json, packet_json, refused_json};

use crate::edit_values::{count_value, packet_value, refused_value};
use config_types::Config;
use hitless_cells::Interruption;
use inspect_json::append_line;
use ov_io::TextOut;
use ov_types::NoMemory;
use report::LinesOf;
use schedule_script::TiedFault;
use std::alloc::Global;

/// The lines of JSON of packets that the edit of this number interrupts, by the configuration after it.
#[derive(Clone, Copy)]
pub(crate) struct PacketJson<'a> {
    pub(crate) config: &'a Config,
    pub(crate) number: usize,
}

impl LinesOf<Interruption> for PacketJson<'_> {
    ghost lines = { λ p l. packet_json p.config.now p.number l };

    #[tactic(auto, using(crate::proofs::NoFloats::packet))]
    fn append(
        &self,
        alloc: Global,
        line: &Interruption,
        out: &mut TextOut,
    ) -> Result<(), NoMemory> {
        let value = packet_value(alloc, self.config, self.number, line)?;
        append_line(alloc, &value, out)
    }
}

/// The line of JSON of a refusal of the edit of this number.
#[derive(Clone, Copy)]
pub(crate) struct RefusedJson {
    pub(crate) number: usize,
}

impl LinesOf<TiedFault> for RefusedJson {
    ghost lines = { λ r fault. refused_json r.number fault };

    #[tactic(auto, using(crate::proofs::NoFloats::refused))]
    fn append(&self, alloc: Global, fault: &TiedFault, out: &mut TextOut) -> Result<(), NoMemory> {
        let value = refused_value(alloc, self.number, fault)?;
        append_line(alloc, &value, out)
    }
}

/// The line of JSON of how many pairs of ports the edit of this number interrupts.
#[tactic(auto, using(crate::proofs::NoFloats::count))]
pub(crate) fn push_count_json(
    alloc: Global,
    number: usize,
    count: usize,
    out: &mut TextOut,
) -> Result<(), NoMemory>
    ensures ok { OnOk result (out.new ≡ out.old ++ count_json number count) }
    ensures err { OnErr result (out.new ≡ out.old) }
{
    let value = count_value(alloc, number, count)?;
    append_line(alloc, &value, out)
}
