//! Octets that are exactly one message.
ghost use Rattle.std.specs.Prelude.{◌≡◌, length, IfSome, IfNone};
ghost use Rattle.bgp_wire.specs.Content.{Content};
ghost use Rattle.bgp_wire.specs.Messages.{content_of, BeginsWith};
ghost use Rattle.decode_answers.specs.OneMessage.{is_open, is_update, is_one_open, is_one_update};

use bgp_wire::{Message, read_message};

/// The message that octets are, where they are one and nothing else.
fn one_message(octets: &[u8]) -> Option<Message<'_>>
    ensures message { IfSome result (λ m. BeginsWith octets.now (content_of m) (length octets.now)) }
    ensures none { IfNone result ((content : Content) → BeginsWith octets.now content (length octets.now) → ⊥) }
{
    match read_message(octets) {
        Ok(Some((message, count))) => {
            if count == octets.len() {
                Some(message)
            } else {
                None
            }
        }
        Ok(None) => None,
        Err(_) => None,
    }
}

fn is_open(message: &Message<'_>) -> bool
    ensures { result ≡ is_open (content_of message.now) }
{
    match message {
        Message::Hello(_) => true,
        _ => false,
    }
}

fn is_update(message: &Message<'_>) -> bool
    ensures { result ≡ is_update (content_of message.now) }
{
    match message {
        Message::Update(_) => true,
        _ => false,
    }
}

/// Whether octets are exactly one OPEN.
#[tactic(auto, using(crate::proofs::Deciding::open_decided, crate::proofs::Deciding::none_is_open))]
pub(crate) fn is_one_open(octets: &[u8]) -> bool
    ensures { result ≡ is_one_open octets.now }
{
    match one_message(octets) {
        Some(message) => is_open(&message),
        None => false,
    }
}

/// Whether octets are exactly one UPDATE.
#[tactic(auto, using(crate::proofs::Deciding::update_decided, crate::proofs::Deciding::none_is_update))]
pub(crate) fn is_one_update(octets: &[u8]) -> bool
    ensures { result ≡ is_one_update octets.now }
{
    match one_message(octets) {
        Some(message) => is_update(&message),
        None => false,
    }
}
