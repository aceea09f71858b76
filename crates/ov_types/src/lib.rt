//! The plain types that every layer speaks in: names, addresses, prefixes, numbers, rows and outcomes.
#![tactic(auto)]

pub mod bounds;
mod items;
mod keys;
mod kinded;
pub mod laws;
mod name;
mod numbers;
mod objects;
mod packet;
mod prefix;
mod rows;
mod services;
mod targets;
mod verdict;
mod vpn;
pub mod written;

pub use items::{Items, NoMemory};
pub use keys::{DownKey, DownValue, UpKey};
pub use name::Name;
pub use numbers::{InstanceId, Label, PortNo, Rd, ServiceNo};
pub use objects::{AclAction, AclRule, Low, LowKey, LowValue};
pub use packet::{Outcome, Packet, Range16, RuleNo, Tuple, Why};
pub use prefix::{Addr, Prefix};
pub use rows::{AgentRows, Attached, ControlRows, Entry, NodeId, NodeRows, TableRow};
pub use services::Services;
pub use targets::{Target, Targets, is_target};
pub use verdict::Verdict;
pub use vpn::{VpnKey, VpnRoute};
