//! The tables of a control node: what it holds, and what follows of it for each instance and prefix, stored and made anew
//! where a change touches it. Laws say at which keys its tables, what it tells peers and what it tells agents may change as
//! it is told something.
#![tactic(auto)]

pub mod agent_laws;
mod agents;
mod asked;
mod changes;
mod counted;
mod dropping;
mod following;
pub mod laws;
mod listing;
mod objects;
mod stored;
mod tables;

pub use changes::{Followed, RowChange};
pub use path_select::Steps;
pub use tables::VpnTables;
pub use vpn_holdings::{Route, in_order};
