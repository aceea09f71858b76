//! How refusals are printed.
ghost use Rattle.std.specs.Prelude.{◌≡◌};
ghost use Rattle.config_check.specs.Texts.{limit_word, id_word};

use crate::refusal::{IdKind, LimitKind, Refusal};
use ov_types::Addr;
use std::fmt;

fn limit_word(what: LimitKind) -> &'static str
    ensures { result.now ≡ limit_word what }
{
    match what {
        LimitKind::Controllers => "controllers",
        LimitKind::Nodes => "nodes",
        LimitKind::Networks => "networks",
        LimitKind::Ports => "ports",
        LimitKind::Policies => "policies",
        LimitKind::Services => "services",
        LimitKind::Chains => "chains",
        LimitKind::Subnets => "subnets",
        LimitKind::Attachments => "attachments",
        LimitKind::Rules => "rules",
        LimitKind::Hops => "hops",
    }
}

fn id_word(what: IdKind) -> &'static str
    ensures { result.now ≡ id_word what }
{
    match what {
        IdKind::Address => "address",
        IdKind::Network => "network",
        IdKind::Port => "port",
        IdKind::Sequence => "sequence",
        IdKind::Service => "service",
        IdKind::Use => "use",
    }
}

/// A number that is to name one thing only, with what it names.
#[derive(Clone, Copy)]
struct Id {
    what: IdKind,
    number: u32,
}

impl fmt::Display for Id {
    ghost use Rattle.std.specs.Prelude.{Some, ◌++◌, codes};
    ghost use Rattle.config_check.specs.Texts.{id_word, id_text};

    ghost output = { λ i. Some (id_word i.what ++ (codes " " ++ id_text i.what i.number)) };

    fn fmt<W: fmt::Write>(&self, f: &mut fmt::Formatter<W>) -> fmt::Result {
        let word = id_word(self.what);
        let number = self.number;
        let address = Addr(number);
        match self.what {
            IdKind::Address => write!(f, "{word} {address}"),
            _ => write!(f, "{word} {number}"),
        }
    }
}

impl fmt::Display for Refusal {
    ghost use Rattle.std.specs.Prelude.{Some};
    ghost use Rattle.config_check.specs.Texts.{refusal_text};

    ghost output = { λ r. Some (refusal_text r) };

    fn fmt<W: fmt::Write>(&self, f: &mut fmt::Formatter<W>) -> fmt::Result {
        match self {
            Refusal::Limit { what } => {
                let word = limit_word(*what);
                write!(f, "Limit {word}")
            }
            Refusal::DuplicateName { name } => write!(f, "DuplicateName {name}"),
            Refusal::DuplicateId { what, id } => {
                let id = Id {
                    what: *what,
                    number: *id,
                };
                write!(f, "DuplicateId {id}")
            }
            Refusal::BadReference { name } => write!(f, "BadReference {name}"),
            Refusal::SubnetReserved { network, prefix } => {
                write!(f, "SubnetReserved {network} {prefix}")
            }
            Refusal::SubnetNested {
                network,
                first,
                second,
            } => write!(f, "SubnetNested {network} {first} {second}"),
            Refusal::AddressOutside { port } => write!(f, "AddressOutside {port}"),
            Refusal::AddressTaken { first, second } => write!(f, "AddressTaken {first} {second}"),
            Refusal::ChainNeedsNetworks { rule } => write!(f, "ChainNeedsNetworks {rule}"),
            Refusal::ChainSameNetwork { rule } => write!(f, "ChainSameNetwork {rule}"),
            Refusal::ChainLoop { chain } => write!(f, "ChainLoop {chain}"),
            Refusal::ChainTooLong { chain } => write!(f, "ChainTooLong {chain}"),
            Refusal::ServiceTwice { chain, service } => {
                write!(f, "ServiceTwice {chain} {service}")
            }
            Refusal::SubnetOverlap { first, second } => {
                write!(f, "SubnetOverlap {first} {second}")
            }
        }
    }
}
