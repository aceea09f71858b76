//! Items.

use ov_types::{AclRule, Addr, InstanceId, Items, Label, Name, PortNo, Prefix, ServiceNo};

/// One record: the end of a session says who it is, or tells one change of what it wants the other end to hold.
#[derive(Debug, Drop, PartialEq, Eq)]
pub enum Item {
    /// The name of the node at this end.
    Hello {
        name: Name,
    },
    /// The instance of a network, and the instances that it imports.
    Instance {
        imports: Items<InstanceId>,
        instance: InstanceId,
    },
    /// A port and its address, in the instance of its network, at the address of its node.
    Port {
        address: Addr,
        instance: InstanceId,
        node: Addr,
        port: PortNo,
    },
    /// A circuit of a service at the address of its node.
    Circuit {
        circuit: u32,
        node: Addr,
        service: ServiceNo,
    },
    /// What packets from one network to another meet, and the subnets of the other.
    Acl {
        from: u16,
        rules: Items<AclRule>,
        subnets: Items<Prefix>,
        to: u16,
    },
    /// A use of a chain between two networks: its services, each with the address of its node, and the networks'
    /// subnets.
    Use {
        hops: Items<(ServiceNo, Addr)>,
        left: InstanceId,
        left_prefixes: Items<Prefix>,
        right: InstanceId,
        right_prefixes: Items<Prefix>,
        use_no: u16,
    },
    NoInstance {
        instance: InstanceId,
    },
    /// The port or the circuit of this label is gone.
    NoAttach {
        label: Label,
    },
    NoAcl {
        from: u16,
        to: u16,
    },
    NoUse {
        use_no: u16,
    },
    /// A prefix in an instance is behind a label of this node.
    Publish {
        instance: InstanceId,
        label: Label,
        prefix: Prefix,
    },
    Unpublish {
        instance: InstanceId,
        prefix: Prefix,
    },
    /// The node that sends the record wants the routes of an instance.
    Subscribe {
        instance: InstanceId,
    },
    Unsubscribe {
        instance: InstanceId,
    },
    /// Where an instance's table leads for a prefix.
    Route {
        instance: InstanceId,
        label: Label,
        next_hop: Addr,
        prefix: Prefix,
    },
    Unroute {
        instance: InstanceId,
        prefix: Prefix,
    },
}
