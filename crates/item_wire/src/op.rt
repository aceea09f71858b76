//! What a record does, by the name that its member `op` has.
ghost use Rattle.std.specs.Prelude.{◌≡◌};
ghost use Rattle.serde_json.specs.View.{view};
ghost use Rattle.item_wire.specs.Faults.{IsRead};
ghost use Rattle.item_wire.specs.Members.{in_member};
ghost use Rattle.item_wire.specs.Reading.{op_of, op_from};

use crate::fault::{Field, ItemFault};
use crate::member::{MemberKind, member_of};
use serde_json::Value;

/// The kinds of records.
#[derive(Clone, Copy)]
pub(crate) enum Op {
    Hello,
    Instance,
    Port,
    Circuit,
    Acl,
    Use,
    NoInstance,
    NoAttach,
    NoAcl,
    NoUse,
    Publish,
    Unpublish,
    Subscribe,
    Unsubscribe,
    Route,
    Unroute,
}

/// The op of this name.
fn op_of(text: &str) -> Option<Op>
    ensures { result ≡ op_of text.now }
{
    match text {
        "hello" => Some(Op::Hello),
        "instance" => Some(Op::Instance),
        "port" => Some(Op::Port),
        "circuit" => Some(Op::Circuit),
        "acl" => Some(Op::Acl),
        "use" => Some(Op::Use),
        "no-instance" => Some(Op::NoInstance),
        "no-attach" => Some(Op::NoAttach),
        "no-acl" => Some(Op::NoAcl),
        "no-use" => Some(Op::NoUse),
        "publish" => Some(Op::Publish),
        "unpublish" => Some(Op::Unpublish),
        "subscribe" => Some(Op::Subscribe),
        "unsubscribe" => Some(Op::Unsubscribe),
        "route" => Some(Op::Route),
        "unroute" => Some(Op::Unroute),
        _ => None,
    }
}

#[tactic(auto, unfolding(crate::specs::Reading::op_from))]
fn op_from(value: &Value) -> Option<Op>
    ensures { result ≡ op_from (view value.now) }
{
    op_of(value.as_str()?)
}

/// What the record says that it does.
#[tactic(auto, unfolding(crate::specs::Members::in_member))]
pub(crate) fn op_in(value: &Value) -> Result<Op, ItemFault>
    ensures { IsRead (λ op. op) result (in_member MemberKind.Text op_from Field.Op (view value.now)) }
{
    let found = member_of(MemberKind::Text, Field::Op, value)?;
    match op_from(found) {
        Some(op) => Ok(op),
        None => Err(ItemFault::Range { name: Field::Op }),
    }
}
