//! Messages, read from the octets that came.
ghost use Rattle.std.specs.Prelude.{◌≡◌, ◌≤◌, ◌+◌, ◌↔◌, ℕ, length, IfOk, IfErr, IfSome, IsOkAnd, IsSomeAnd};
ghost use Rattle.bgp_wire.specs.declared.fault.WireFault.{WireFault};
ghost use Rattle.bgp_wire.specs.Content.{Content};
ghost use Rattle.bgp_wire.specs.Frames.{least, greatest, IsProperPrefix};
ghost use Rattle.bgp_wire.specs.Messages.{content_of, IsBody, HasBodyFault, BeginsWith, HasFault};

use crate::fault::WireFault;
use crate::frame::read_head;
use crate::kind::MessageKind;
use crate::open::OpenPart;
use crate::update::{UpdatePart, read_update};

/// A message; what it holds lies in the octets that it was read from.
#[derive(Drop)]
pub enum Message<'a> {
    /// An OPEN.
    Hello(OpenPart<'a>),
    Update(UpdatePart<'a>),
    Notification { code: u8, subcode: u8 },
    Keepalive,
}

fn read_body(kind: MessageKind, body: &[u8]) -> Result<Message<'_>, WireFault>
    requires least_length { least kind ≤ 19 + length body.now }
    requires greatest_length { 19 + length body.now ≤ greatest kind }
    ensures message { IfOk result (λ m. IsBody kind body.now (content_of m)) }
    ensures fault { IfErr result (λ f. HasBodyFault kind body.now f) }
{
    match kind {
        MessageKind::Open => Ok(Message::Hello(OpenPart::read(body)?)),
        MessageKind::Update => Ok(Message::Update(read_update(body)?)),
        MessageKind::Notification => Ok(Message::Notification {
            code: body[0],
            subcode: body[1],
        }),
        MessageKind::Keepalive => Ok(Message::Keepalive),
    }
}

/// The message that the octets begin with, and how many of them it takes. `None` where more octets are needed.
pub fn read_message(bytes: &[u8]) -> Result<Option<(Message<'_>, usize)>, WireFault>
    ensures message { IfOk result (λ found. IfSome found (λ x. BeginsWith bytes.now (content_of x.0) x.1)) }
    ensures none { (result ≡ Ok None) ↔ IsProperPrefix bytes.now }
    ensures fault { IfErr result (λ f. HasFault bytes.now f) }

    // Each message and each fault is found.
    ensures every_message { (content : Content) (n : ℕ) → BeginsWith bytes.now content n
        → IsOkAnd result (λ found. IsSomeAnd found (λ x. (content_of x.0 ≡ content) × (x.1 ≡ n))) }
    ensures every_fault { (f : WireFault) → HasFault bytes.now f → result ≡ Err f }
{
    read(bytes)
}

fn read(bytes: &[u8]) -> Result<Option<(Message<'_>, usize)>, WireFault>
    ensures message { IfOk result (λ found. IfSome found (λ x. BeginsWith bytes.now (content_of x.0) x.1)) }
    ensures none { (result ≡ Ok None) ↔ IsProperPrefix bytes.now }
    ensures fault { IfErr result (λ f. HasFault bytes.now f) }
{
    let Some(head) = read_head(bytes)? else {
        return Ok(None);
    };
    if bytes.len() < head.len {
        return Ok(None);
    }
    let message = read_body(head.kind, &bytes[19..head.len])?;
    Ok(Some((message, head.len)))
}
