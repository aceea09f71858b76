//! What a control node wants its peers and its agents to have been told, and the rows that it shows. What may have changed
//! of it, changes of what the node holds that mark it, and what peers and agents are told: the whole difference, at the
//! cost of the marks.
#![tactic(auto)]

mod agents;
mod dirty;
mod entries;
mod item_sends;
mod keyed;
pub mod laws;
mod marked;
mod objects;
mod peers;
mod pushing;
mod route_sends;
mod told;
mod wants;
mod whom;

pub use agents::tell_agent;
pub use dirty::Dirty;
pub use keyed::{wanted_down, wanted_object, wanted_route, wanted_row};
pub use marked::{MarkedItem, items_marked};
pub use peers::{RoutesWanted, routes_wanted, tell_peer};
pub use wants::{rows, wanted_by_agent, wanted_by_peers};
pub use whom::Whom;
