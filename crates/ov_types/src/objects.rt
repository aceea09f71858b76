//! Low-level objects: what a configuration asks for, as a map from keys to values.
use crate::items::Items;
use crate::numbers::{InstanceId, PortNo, ServiceNo};
use crate::packet::{Range16, RuleNo};
use crate::prefix::{Addr, Prefix};

/// What names a low-level object: the number of an instance, the label of an attachment, two networks, or the number
/// of a chain's use. Keys go by kind in this order, and then by number.
#[derive(Clone, Copy, Debug, PartialEq, Eq, PartialOrd, Ord)]
pub enum LowKey {
    Instance(u16),
    Attach(u32),
    Acl { from: u16, to: u16 },
    ChainUse(u16),
}

/// A low-level object. Ports and circuits both stand under the key of an attachment.
#[derive(Clone, Debug, Drop, PartialEq, Eq)]
pub enum LowValue {
    /// The instances that it imports, ascending.
    Instance {
        imports: Items<InstanceId>,
    },
    /// The port and its address, in the instance of its network, at the address of its node.
    AttachPort {
        port: PortNo,
        instance: InstanceId,
        address: Addr,
        node: Addr,
    },
    /// A circuit of a service at the address of its node.
    AttachCircuit {
        circuit: u32,
        service: ServiceNo,
        node: Addr,
    },
    /// The subnets that packets go to, ascending, and what decides on them.
    Acl {
        subnets: Items<Prefix>,
        rules: Items<AclRule>,
    },
    /// The two networks of a chain's use with their subnets, ascending, and its services, each with the address of its
    /// node.
    ChainUse {
        left: InstanceId,
        right: InstanceId,
        left_prefixes: Items<Prefix>,
        right_prefixes: Items<Prefix>,
        hops: Items<(ServiceNo, Addr)>,
    },
}

/// One entry of an access list, for packets in one direction. No protocol stands for any.
#[derive(Clone, Copy, Debug, PartialEq, Eq)]
pub struct AclRule {
    pub protocol: Option<u8>,
    pub sports: Range16,
    pub dports: Range16,
    pub action: AclAction,
    pub rule: RuleNo,
}

/// What an entry does with a packet that it holds.
#[derive(Clone, Copy, Debug, PartialEq, Eq)]
pub enum AclAction {
    Pass,
    Deny,
    /// The packet goes on in this instance.
    Enter(InstanceId),
}

/// Low-level objects in the order of their keys.
pub type Low = Items<(LowKey, LowValue)>;
