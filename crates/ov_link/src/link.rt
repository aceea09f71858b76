//! What a node sends on.
ghost use Rattle.std.specs.Prelude.{◌≡◌, ◌≢◌, ◌++◌, ◌∷◌, [], List, ℕ, OnOk, OnErr, is_err};
ghost use Rattle.std.specs.declared.option.Option.{Option};
ghost use Rattle.std.specs.Option.{option_map};
ghost use Rattle.ov_link.specs.Delivery.{Delivers};
ghost use Rattle.ov_link.specs.Sends.{HasCause, MeetsBreaks};

use ov_types::{Items, NoMemory};
use std::alloc::{AllocError, AllocFailed};
use thiserror::Error;

/// Why a message was not sent.
#[derive(Clone, Copy, Debug, PartialEq, Eq, Error)]
pub enum LinkFault {
    #[error("a send failed")]
    Failed,
    #[error("out of memory")]
    NoMemory,
}

impl From<NoMemory> for LinkFault {
    ghost use Rattle.ov_link.specs.declared.link.LinkFault.TheVariants.{NoMemory as Memory};

    ghost from_gives = { λ _ e. e ≡ Memory };

    fn from(_: NoMemory) -> Self {
        LinkFault::NoMemory
    }
}

impl From<AllocError> for LinkFault {
    ghost use Rattle.ov_link.specs.declared.link.LinkFault.TheVariants.{NoMemory as Memory};

    ghost from_gives = { λ _ e. e ≡ Memory };

    fn from(_: AllocError) -> Self {
        LinkFault::NoMemory
    }
}

impl<T: Drop> From<AllocFailed<T>> for LinkFault {
    ghost use Rattle.ov_link.specs.declared.link.LinkFault.TheVariants.{NoMemory as Memory};

    ghost from_gives = { λ _ e. e ≡ Memory };

    fn from(_: AllocFailed<T>) -> Self {
        LinkFault::NoMemory
    }
}

/// One direction of a session, at its sending end.
pub trait Link {
    /// The messages that it accepted and that were not yet taken out, in order, where it tells them.
    ghost accepted: { Self → Option (List (List ℕ)) };

    /// Which sends from now on are to fail, where it tells: 1 is the next one.
    ghost breaks: { Self → Option (List ℕ) };

    /// How many sends failed, in a count that stops at the last value of a u64.
    ghost faults: { Self → ℕ };

    fn send(&mut self, message: &[u8]) -> Result<(), LinkFault>
        ensures ok { OnOk result (accepted self.new
            ≡ option_map (λ sent. sent ++ message.now ∷ []) (accepted self.old)) }
        ensures err { OnErr result (accepted self.new ≡ accepted self.old) }
        ensures cause { HasCause (faults self.old) (faults self.new) result }
        ensures met { MeetsBreaks (breaks self.old) (breaks self.new) result };
}

/// Sends the messages in order, until one fails.
pub fn send_all<L: Link>(link: &mut L, messages: &[Items<u8>]) -> Result<(), LinkFault>
    ensures { result ≢ Err LinkFault.NoMemory
        → Delivers L.accepted L.breaks L.faults messages.now (is_err result) link.old link.new }
{
    for message in messages {
        link.send(message.as_slice())?;
    }
    Ok(())
}
