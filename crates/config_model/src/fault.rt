//! What breaks a document's form, and where.
ghost use Rattle.std.specs.Prelude.{◌≡◌, IfOk, string_bytes};
ghost use Rattle.config_model.specs.declared.fault.ReadRefusal.TheVariants.{NoMemory};
ghost use Rattle.config_model.specs.Paths.{place_text, member_path, item_path};
ghost use Rattle.config_model.specs.Faults.{IsFault};

use ov_types::NoMemory;
use std::alloc::{AllocError, AllocFailed, Global};
use thiserror::Error;

/// How a document breaks its form.
#[derive(Clone, Copy, Debug, PartialEq, Eq, Error)]
pub enum DocKind {
    /// A required member is absent.
    #[error("Missing")]
    Missing,
    /// A value is of another JSON kind. A number with a fraction or an exponent is no whole number.
    #[error("Kind")]
    Kind,
    /// A value of the right kind is outside its form.
    #[error("Range")]
    Range,
    /// A member is none of its object's.
    #[error("Unknown")]
    Unknown,
}

/// The first fault of a document: the path of the value, such as `configuration.networks[0].id`, and the kind.
#[derive(Debug, Drop, Error)]
#[error("{kind} at `{path}`")]
pub struct DocFault {
    pub path: String,
    pub kind: DocKind,
}

/// Why a document was not read.
#[derive(Debug, Drop, Error)]
pub enum ReadRefusal {
    #[error(transparent)]
    Doc(DocFault),
    #[error("no memory")]
    NoMemory,
}

impl From<AllocError> for ReadRefusal {
    ghost from_gives = { λ _ e. e ≡ NoMemory };

    fn from(_e: AllocError) -> ReadRefusal {
        ReadRefusal::NoMemory
    }
}

impl From<NoMemory> for ReadRefusal {
    ghost from_gives = { λ _ e. e ≡ NoMemory };

    fn from(_e: NoMemory) -> ReadRefusal {
        ReadRefusal::NoMemory
    }
}

impl<T: Drop> From<AllocFailed<T>> for ReadRefusal {
    ghost from_gives = { λ _ e. e ≡ NoMemory };

    fn from(_e: AllocFailed<T>) -> ReadRefusal {
        ReadRefusal::NoMemory
    }
}

/// Where a value stands: the whole value, a member of the object at a place, or an item of the list at a place.
#[derive(Clone, Copy)]
pub enum DocumentPlace<'a> {
    Whole,
    Member(&'a DocumentPlace<'a>, &'a str),
    Item(&'a DocumentPlace<'a>, usize),
}

impl DocumentPlace<'_> {
    /// The path.
    fn text(&self, alloc: Global) -> Result<String, AllocError>
        ensures { IfOk result (λ s. string_bytes s ≡ place_text self.now) }
    {
        match self {
            DocumentPlace::Whole => Ok(String::new(alloc)),
            DocumentPlace::Member(outer, name) => {
                let path = outer.text(alloc)?;
                member_text(alloc, path.as_str(), name)
            }
            DocumentPlace::Item(outer, index) => {
                let path = outer.text(alloc)?;
                item_text(alloc, path.as_str(), *index)
            }
        }
    }

    /// The refusal of what stands here. Only now is the path made.
    pub fn fault(&self, alloc: Global, kind: DocKind) -> ReadRefusal
        ensures { IsFault result (record { path = place_text self.now; kind = kind }) }
    {
        match self.text(alloc) {
            Ok(path) => ReadRefusal::Doc(DocFault { path, kind }),
            Err(_) => ReadRefusal::NoMemory,
        }
    }
}

fn member_text(alloc: Global, path: &str, name: &str) -> Result<String, AllocError>
    ensures { IfOk result (λ s. string_bytes s ≡ member_path path.now name.now) }
{
    if path.is_empty() {
        String::from_str(alloc, name)
    } else {
        format!(in alloc; "{path}.{name}")
    }
}

fn item_text(alloc: Global, path: &str, index: usize) -> Result<String, AllocError>
    ensures { IfOk result (λ s. string_bytes s ≡ item_path path.now index) }
{
    format!(in alloc; "{path}[{index}]")
}
