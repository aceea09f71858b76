//! Reading edits.
ghost use Rattle.std.specs.Prelude.{◌≡◌, [], IsTrue, Result, IfOk};
ghost use Rattle.serde_json.specs.View.{view};
ghost use Rattle.config_model.specs.Paths.{place_text};
ghost use Rattle.config_model.specs.Faults.{Gives};
ghost use Rattle.config_model.specs.Edit.{kind_named, kind_at, object_of_kind_at, put_at, delete_at, edit_at};
ghost use Rattle.config_types.specs.Form.{has_object_form, has_edit_form};

use crate::fault::{DocKind, DocumentPlace, ReadRefusal};
use crate::fields::FromDocument;
use crate::one_member::one_member_of;
use config_types::{Chain, Edit, Network, Node, Object, ObjectKind, Policy, Port, Service};
use ov_types::Name;
use serde_json::Value;
use std::alloc::Global;

fn kind_named(word: &str) -> Option<ObjectKind>
    ensures { result ≡ kind_named word.now }
{
    match word {
        "network" => Some(ObjectKind::Network),
        "port" => Some(ObjectKind::Port),
        "policy" => Some(ObjectKind::Policy),
        "service" => Some(ObjectKind::Service),
        "chain" => Some(ObjectKind::Chain),
        "node" => Some(ObjectKind::Node),
        _ => None,
    }
}

/// The kind that a member's name is.
fn kind_of(alloc: Global, place: &DocumentPlace<'_>, word: &str) -> Result<ObjectKind, ReadRefusal>
    ensures { Gives (λ x. x) result (kind_at (place_text place.now) word.now) }
{
    match kind_named(word) {
        Some(kind) => Ok(kind),
        None => Err(place.fault(alloc, DocKind::Unknown)),
    }
}

#[tactic(auto, unfolding(crate::specs::Edit::object_of_kind_at))]
fn object_of_kind(
    alloc: Global,
    place: &DocumentPlace<'_>,
    kind: ObjectKind,
    value: &Value,
) -> Result<Object, ReadRefusal>
    ensures reads { Gives (λ x. x) result (object_of_kind_at kind (place_text place.now) (view value.now)) }
    ensures form { IfOk result (λ x. IsTrue (has_object_form x)) }
{
    match kind {
        ObjectKind::Network => Ok(Object::Network(Network::read(alloc, place, value)?)),
        ObjectKind::Port => Ok(Object::Port(Port::read(alloc, place, value)?)),
        ObjectKind::Policy => Ok(Object::Policy(Policy::read(alloc, place, value)?)),
        ObjectKind::Service => Ok(Object::Service(Service::read(alloc, place, value)?)),
        ObjectKind::Chain => Ok(Object::Chain(Chain::read(alloc, place, value)?)),
        ObjectKind::Node => Ok(Object::Node(Node::read(alloc, place, value)?)),
    }
}

#[tactic(auto, unfolding(crate::specs::Edit::put_at, config_types::specs::Form::has_edit_form))]
fn put_of(alloc: Global, place: &DocumentPlace<'_>, value: &Value) -> Result<Edit, ReadRefusal>
    ensures reads { Gives (λ x. x) result (put_at (place_text place.now) (view value.now)) }
    ensures form { IfOk result (λ x. IsTrue (has_edit_form x)) }
{
    let (word, described) = one_member_of(alloc, place, value)?;
    let member = DocumentPlace::Member(place, word);
    let kind = kind_of(alloc, &member, word)?;
    let object = object_of_kind(alloc, &member, kind, described)?;
    Ok(Edit::Put(object))
}

#[tactic(auto, unfolding(crate::specs::Edit::delete_at, config_types::specs::Form::has_edit_form))]
fn delete_of(alloc: Global, place: &DocumentPlace<'_>, value: &Value) -> Result<Edit, ReadRefusal>
    ensures reads { Gives (λ x. x) result (delete_at (place_text place.now) (view value.now)) }
    ensures form { IfOk result (λ x. IsTrue (has_edit_form x)) }
{
    let (word, named) = one_member_of(alloc, place, value)?;
    let member = DocumentPlace::Member(place, word);
    let kind = kind_of(alloc, &member, word)?;
    let name = Name::read(alloc, &member, named)?;
    Ok(Edit::Delete(kind, name))
}

impl FromDocument for Edit {
    ghost reads = { edit_at };

    ghost has_form = { has_edit_form };

    #[tactic(auto, unfolding(crate::specs::Edit::edit_at))]
    fn read(alloc: Global, place: &DocumentPlace<'_>, value: &Value) -> Result<Self, ReadRefusal> {
        let (word, changed) = one_member_of(alloc, place, value)?;
        let member = DocumentPlace::Member(place, word);
        match word {
            "put" => put_of(alloc, &member, changed),
            "delete" => delete_of(alloc, &member, changed),
            _ => Err(member.fault(alloc, DocKind::Unknown)),
        }
    }
}

/// The edit that a value writes. Paths begin at the value.
pub fn read_edit(alloc: Global, value: &Value) -> Result<Edit, ReadRefusal>
    ensures reads { Gives (λ x. x) result (edit_at [] (view value.now)) }
    ensures form { IfOk result (λ x. IsTrue (has_edit_form x)) }
{
    Edit::read(alloc, &DocumentPlace::Whole, value)
}
