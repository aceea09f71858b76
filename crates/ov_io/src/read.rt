//! Reading a source to its end.
ghost use Rattle.std.specs.Prelude.{◌≡◌, ◌≢◌, ◌<◌, ◌≤◌, ◌^◌, length, IfOk, IfSome, vec_len};
ghost use Rattle.ov_io.specs.Causes.{Rose};
ghost use Rattle.ov_io.specs.Inputs.{WasReadWhole};
ghost use Rattle.ov_io.specs.declared.read.InputRefusal.TheVariants.{NoMemory};

use crate::source::Source;
use std::alloc::{AllocError, Global};
use thiserror::Error;

/// Why a source was not read to its end.
#[derive(Clone, Copy, Debug, PartialEq, Eq, Error)]
pub enum InputRefusal {
    #[error("a read failed")]
    Fault,
    #[error("the input is too long")]
    TooLong,
    #[error("no memory")]
    NoMemory,
}

impl From<AllocError> for InputRefusal {
    ghost from_gives = { λ _ e. e ≡ NoMemory };

    fn from(_e: AllocError) -> InputRefusal {
        InputRefusal::NoMemory
    }
}

/// Reads a source to its end, where at most `most` octets come.
pub fn read_all<S: Source>(
    alloc: Global,
    source: &mut S,
    most: usize,
) -> Result<Vec<u8>, InputRefusal>
    requires { most < 2 ^ 32 }
    ensures whole { IfOk result (λ v. WasReadWhole (S.left source.old) (S.left source.new) v.items) }
    ensures short { IfOk result (λ v. vec_len v ≤ most) }
    ensures long { result ≡ Err InputRefusal.TooLong → IfSome (S.left source.old) (λ octets. most < length octets) }
    ensures fault { result ≡ Err InputRefusal.Fault → Rose (S.faults source.old) (S.faults source.new) }
    ensures kept { result ≢ Err InputRefusal.Fault → S.faults source.new ≡ S.faults source.old }
{
    let mut octets = Vec::new(alloc);
    let mut buffer = [0u8; 65_536];
    for _turn in 0..most + 1 {
        let count = match source.read(&mut buffer) {
            Ok(count) => count,
            Err(_) => return Err(InputRefusal::Fault),
        };
        if count == 0 {
            return Ok(octets);
        }
        if octets.len() + count > most {
            return Err(InputRefusal::TooLong);
        }
        octets.extend_from_slice(&buffer[..count])?;
    }
    unreachable!()
}
