//! Why a chain has no expansion.
use ov_types::Name;
use thiserror::Error;

/// Why a chain has no expansion that a use can have.
#[derive(Clone, Copy, Debug, PartialEq, Eq, Error)]
pub enum ChainFault {
    /// The first chain in order that the asked one leads to, or is, and that leads back to itself.
    #[error("the chain {chain} leads back to itself")]
    Loop { chain: Name },
    /// The asked chain has more than 15 services.
    #[error("the chain {chain} has more than 15 services")]
    TooLong { chain: Name },
    /// The asked chain has a service twice: the first one that stands again, by the name at its second place.
    #[error("the chain {chain} has the service {service} twice")]
    Twice { chain: Name, service: Name },
}
