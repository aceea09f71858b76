//! What breaks a rule of valid configurations.
use ov_types::{Name, NoMemory, Prefix, RuleNo};
use thiserror::Error;

/// What is counted against a limit, in the order of the tests.
#[derive(Clone, Copy, Debug, PartialEq, Eq)]
pub enum LimitKind {
    Controllers,
    Nodes,
    Networks,
    Ports,
    Policies,
    Services,
    Chains,
    Subnets,
    Attachments,
    Rules,
    Hops,
}

/// What a number names that has to be distinct, in the order of the tests.
#[derive(Clone, Copy, Debug, PartialEq, Eq)]
pub enum IdKind {
    Address,
    Network,
    Port,
    Sequence,
    Service,
    Use,
}

/// A broken rule, with the objects that its line names. The rules are tried in this order.
#[derive(Clone, Copy, Debug, PartialEq, Eq, Error)]
pub enum Refusal {
    Limit {
        what: LimitKind,
    },
    DuplicateName {
        name: Name,
    },
    DuplicateId {
        what: IdKind,
        id: u32,
    },
    BadReference {
        name: Name,
    },
    SubnetReserved {
        network: Name,
        prefix: Prefix,
    },
    SubnetNested {
        network: Name,
        first: Prefix,
        second: Prefix,
    },
    AddressOutside {
        port: Name,
    },
    AddressTaken {
        first: Name,
        second: Name,
    },
    ChainNeedsNetworks {
        rule: RuleNo,
    },
    ChainSameNetwork {
        rule: RuleNo,
    },
    ChainLoop {
        chain: Name,
    },
    ChainTooLong {
        chain: Name,
    },
    ServiceTwice {
        chain: Name,
        service: Name,
    },
    SubnetOverlap {
        first: Name,
        second: Name,
    },
}

/// Why a configuration was not found valid.
#[derive(Clone, Copy, Debug, PartialEq, Eq, Error)]
pub enum CheckRefusal {
    #[error(transparent)]
    Rule(Refusal),
    #[error("no memory")]
    NoMemory,
}

impl From<NoMemory> for CheckRefusal {
    ghost use Rattle.std.specs.Prelude.{◌≡◌};
    ghost use Rattle.config_check.specs.declared.refusal.CheckRefusal.TheVariants.{NoMemory as WantsMemory};

    ghost from_gives = { λ _ e. e ≡ WantsMemory };

    fn from(_e: NoMemory) -> CheckRefusal {
        CheckRefusal::NoMemory
    }
}
