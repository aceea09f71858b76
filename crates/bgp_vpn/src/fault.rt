//! What is wrong with UPDATEs.

use bgp_wire::WireFault;
use ov_types::NoMemory;
use thiserror::Error;

/// Why an UPDATE is not read.
#[derive(Clone, Copy, Debug, PartialEq, Eq, Error)]
pub enum UpdateFault {
    /// What is wrong with the message.
    #[error(transparent)]
    Wire(WireFault),
    #[error("out of memory")]
    NoMemory,
}

impl From<WireFault> for UpdateFault {
    ghost use Rattle.std.specs.Prelude.{◌≡◌};
    ghost use Rattle.bgp_vpn.specs.declared.fault.UpdateFault.TheVariants as faults;

    ghost from_gives = { λ f e. e ≡ faults.Wire f };

    fn from(fault: WireFault) -> UpdateFault {
        UpdateFault::Wire(fault)
    }
}

impl From<NoMemory> for UpdateFault {
    ghost use Rattle.std.specs.Prelude.{◌≡◌};
    ghost use Rattle.bgp_vpn.specs.declared.fault.UpdateFault.TheVariants as faults;

    ghost from_gives = { λ _ e. e ≡ faults.NoMemory };

    fn from(_e: NoMemory) -> UpdateFault {
        UpdateFault::NoMemory
    }
}

/// An attribute that is not known and not optional (RFC 4271, section 6.3).
pub(crate) const UNRECOGNIZED_WELL_KNOWN: WireFault = WireFault {
    code: 3,
    subcode: 2,
};

/// An attribute that has to be there and is not (section 6.3).
pub(crate) const MISSING_WELL_KNOWN: WireFault = WireFault {
    code: 3,
    subcode: 3,
};

/// Flags that an attribute of its type does not have (section 6.3).
pub(crate) const ATTRIBUTE_FLAGS: WireFault = WireFault {
    code: 3,
    subcode: 4,
};

/// An ORIGIN that is none (section 6.3).
pub(crate) const INVALID_ORIGIN: WireFault = WireFault {
    code: 3,
    subcode: 6,
};

/// A NEXT_HOP that is no address of a host (section 6.3).
pub(crate) const INVALID_NEXT_HOP: WireFault = WireFault {
    code: 3,
    subcode: 8,
};

/// A value of MP_REACH_NLRI or MP_UNREACH_NLRI that cannot be read (RFC 4760, section 7).
pub(crate) const OPTIONAL_ATTRIBUTE: WireFault = WireFault {
    code: 3,
    subcode: 9,
};

/// Plain routes that cannot be read (RFC 4271, section 6.3).
pub(crate) const INVALID_NETWORK: WireFault = WireFault {
    code: 3,
    subcode: 10,
};

/// An AS_PATH that cannot be read (section 6.3).
pub(crate) const MALFORMED_AS_PATH: WireFault = WireFault {
    code: 3,
    subcode: 11,
};
