//! What is wrong with octets that are no record.
ghost use Rattle.std.specs.Prelude.{◌≡◌};
ghost use Rattle.item_wire.specs.declared.fault.ItemRefusal.TheVariants.{Fault, NoMemory as WantOfMemory};

use ov_types::NoMemory;
use std::alloc::{AllocError, AllocFailed};
use thiserror::Error;

/// The members of records, by their names in JSON.
#[derive(Clone, Copy, Debug, PartialEq, Eq)]
pub enum Field {
    Op,
    Name,
    Imports,
    Instance,
    Address,
    Node,
    Port,
    Circuit,
    Service,
    From,
    Rules,
    Subnets,
    To,
    Hops,
    Left,
    LeftPrefixes,
    Right,
    RightPrefixes,
    Use,
    Label,
    Prefix,
    NextHop,
}

/// What is wrong with octets that are no record.
#[derive(Clone, Copy, Debug, PartialEq, Eq, Error)]
pub enum ItemFault {
    /// The octets are no JSON.
    #[error("no JSON")]
    NotJson,
    /// The member is missing, or of another kind.
    #[error("no member {name:?} of its kind")]
    Member { name: Field },
    /// The member is of its kind and outside its range.
    #[error("member {name:?} is out of range")]
    Range { name: Field },
}

/// Why octets were not read.
#[derive(Clone, Copy, Debug, PartialEq, Eq, Error)]
pub enum ItemRefusal {
    #[error(transparent)]
    Fault(ItemFault),
    #[error("no memory")]
    NoMemory,
}

impl From<ItemFault> for ItemRefusal {
    ghost from_gives = { λ f e. e ≡ Fault f };

    fn from(fault: ItemFault) -> ItemRefusal {
        ItemRefusal::Fault(fault)
    }
}

impl From<NoMemory> for ItemRefusal {
    ghost from_gives = { λ _ e. e ≡ WantOfMemory };

    fn from(_e: NoMemory) -> ItemRefusal {
        ItemRefusal::NoMemory
    }
}

impl From<AllocError> for ItemRefusal {
    ghost from_gives = { λ _ e. e ≡ WantOfMemory };

    fn from(_e: AllocError) -> ItemRefusal {
        ItemRefusal::NoMemory
    }
}

impl<T: Drop> From<AllocFailed<T>> for ItemRefusal {
    ghost from_gives = { λ _ e. e ≡ WantOfMemory };

    fn from(_e: AllocFailed<T>) -> ItemRefusal {
        ItemRefusal::NoMemory
    }
}
