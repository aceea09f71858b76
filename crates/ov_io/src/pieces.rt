//! Writing a text in pieces, as it is made.
ghost use Rattle.std.specs.Prelude.{◌≡◌, ◌++◌, [], OnOk, OnErr};
ghost use Rattle.std.specs.Io.KnownBytes.{Appends};
ghost use Rattle.ov_io.specs.Inputs.{TookFront};
ghost use Rattle.ov_io.specs.Pieces.{HasWriteCause, IsOnItsWay};
ghost use Rattle.ov_io.specs.declared.pieces.WriteRefusal.TheVariants as refusals;

use crate::sink::{Sink, SinkFault, write_all};
use crate::text::TextOut;
use ov_types::NoMemory;
use std::alloc::AllocError;
use thiserror::Error;

/// How many octets are gathered before they are written.
const PIECE_OCTETS: usize = 65_536;

/// Why a text was not written whole.
#[derive(Clone, Copy, Debug, PartialEq, Eq, Error)]
pub enum WriteRefusal {
    #[error("a write failed")]
    Fault,
    #[error("no memory")]
    NoMemory,
}

impl From<SinkFault> for WriteRefusal {
    ghost from_gives = { λ _ e. e ≡ refusals.Fault };

    fn from(_e: SinkFault) -> WriteRefusal {
        WriteRefusal::Fault
    }
}

impl From<NoMemory> for WriteRefusal {
    ghost from_gives = { λ _ e. e ≡ refusals.NoMemory };

    fn from(_e: NoMemory) -> WriteRefusal {
        WriteRefusal::NoMemory
    }
}

impl From<AllocError> for WriteRefusal {
    ghost from_gives = { λ _ e. e ≡ refusals.NoMemory };

    fn from(_e: AllocError) -> WriteRefusal {
        WriteRefusal::NoMemory
    }
}

/// Gathers a text, and writes what is gathered where that is enough for a piece.
#[tactic(auto, using(crate::proofs::PieceLemmas::took_nothing))]
pub fn gather<K: Sink>(
    sink: &mut K,
    gathered: &mut TextOut,
    text: &[u8],
) -> Result<(), WriteRefusal>
    ensures ok { OnOk result (IsOnItsWay (K.taken sink.old) (K.taken sink.new) gathered.new []
        (gathered.old ++ text.now)) }
    ensures front { OnErr result (TookFront (K.taken sink.old) (K.taken sink.new) (gathered.old ++ text.now)) }
    ensures cause { HasWriteCause (K.faults sink.old) (K.faults sink.new) result }
{
    gathered.push(text)?;
    write_piece(sink, gathered)
}

/// Writes what is gathered, where that is enough for a piece.
#[tactic(auto, using(crate::proofs::PieceLemmas::way_stays, crate::proofs::PieceLemmas::way_taken))]
pub fn write_piece<K: Sink>(sink: &mut K, gathered: &mut TextOut) -> Result<(), WriteRefusal>
    ensures ok { OnOk result (IsOnItsWay (K.taken sink.old) (K.taken sink.new) gathered.new [] gathered.old) }
    ensures front { OnErr result (TookFront (K.taken sink.old) (K.taken sink.new) gathered.old) }
    ensures cause { HasWriteCause (K.faults sink.old) (K.faults sink.new) result }
{
    if gathered.octets().len() < PIECE_OCTETS {
        return Ok(());
    }
    write_gathered(sink, gathered)
}

/// Writes all that is gathered, so that nothing is.
pub fn write_gathered<K: Sink>(sink: &mut K, gathered: &mut TextOut) -> Result<(), WriteRefusal>
    ensures ok { OnOk result (Appends (K.taken sink.old) (K.taken sink.new) gathered.old) }
    ensures cleared { OnOk result (gathered.new ≡ []) }
    ensures front { OnErr result (TookFront (K.taken sink.old) (K.taken sink.new) gathered.old) }
    ensures cause { HasWriteCause (K.faults sink.old) (K.faults sink.new) result }
{
    write_all(sink, gathered.octets())?;
    gathered.clear();
    Ok(())
}
