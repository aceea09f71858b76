//! The rules of a valid configuration, by the words that name them.
ghost use Rattle.std.specs.Prelude.{◌≡◌};
ghost use Rattle.explanations.specs.Sentences.{id_claim, limit_claim, rule_named};

/// Which rule is broken.
#[derive(Clone, Copy, Debug, PartialEq, Eq)]
pub enum RuleKind {
    Limit,
    DuplicateName,
    DuplicateId,
    BadReference,
    SubnetReserved,
    SubnetNested,
    AddressOutside,
    AddressTaken,
    ChainNeedsNetworks,
    ChainSameNetwork,
    ChainLoop,
    ChainTooLong,
    ServiceTwice,
    SubnetOverlap,
}

/// The rule of a word.
pub(crate) fn rule_named(word: &str) -> Option<RuleKind>
    ensures { result ≡ rule_named word.now }
{
    match word {
        "Limit" => Some(RuleKind::Limit),
        "DuplicateName" => Some(RuleKind::DuplicateName),
        "DuplicateId" => Some(RuleKind::DuplicateId),
        "BadReference" => Some(RuleKind::BadReference),
        "SubnetReserved" => Some(RuleKind::SubnetReserved),
        "SubnetNested" => Some(RuleKind::SubnetNested),
        "AddressOutside" => Some(RuleKind::AddressOutside),
        "AddressTaken" => Some(RuleKind::AddressTaken),
        "ChainNeedsNetworks" => Some(RuleKind::ChainNeedsNetworks),
        "ChainSameNetwork" => Some(RuleKind::ChainSameNetwork),
        "ChainLoop" => Some(RuleKind::ChainLoop),
        "ChainTooLong" => Some(RuleKind::ChainTooLong),
        "ServiceTwice" => Some(RuleKind::ServiceTwice),
        "SubnetOverlap" => Some(RuleKind::SubnetOverlap),
        _ => None,
    }
}

/// What is said of a limit, by the word for what is counted.
pub(crate) fn limit_claim(word: &str) -> &'static str
    ensures { result.now ≡ limit_claim word.now }
{
    match word {
        "controllers" => "a topology has at most 8 control nodes, and this one has more",
        "nodes" => "a topology has 1 to 64 compute nodes, and this one has none or more",
        "networks" => "a configuration has at most 128 networks, and this one has more",
        "ports" => "a configuration has at most 1,024 ports, and this one has more",
        "policies" => "a configuration has at most 128 policies, and this one has more",
        "services" => "a configuration has at most 128 services, and this one has more",
        "chains" => "a configuration has at most 128 chains, and this one has more",
        "subnets" => "a network has at most 4 subnets, and one of these has more",
        "attachments" => "a network attaches at most 4 policies, and one of these attaches more",
        "rules" => "a policy has at most 16 rules, and one of these has more",
        "hops" => "a chain has at most 64 hops, and one of these has more",
        _ => "there is more of one thing than there may be",
    }
}

/// What is said of numbers that are to be distinct, by the word for what they name; the number follows.
pub(crate) fn id_claim(word: &str) -> &'static str
    ensures { result.now ≡ id_claim word.now }
{
    match word {
        "address" => "each node has an address of its own, and two have",
        "network" => "each network has an id of its own, and two have",
        "port" => "each port has an id of its own, and two have",
        "sequence" => "each policy has a sequence of its own, and two have",
        "service" => "each service has an id of its own, and two have",
        "use" => "each rule through a chain has a use of its own, and two have",
        _ => "each thing of a kind has a number of its own, and two have",
    }
}
