//! What a control node holds, and what follows from it. Each route is held once, and found by its session and by its prefix.
#![tactic(auto)]

mod at;
mod chains;
mod forgetting;
mod gathered;
mod holdings;
mod imports;
mod kept;
mod keys;
mod kinds;
mod leading;
mod listing;
mod moved;
mod places;
mod ports;
mod prefixes;
mod publishing;
mod reaching;
mod received;
mod routes;
mod selecting;
mod sessions;
mod touching;
mod within;

pub use gathered::in_order;
pub use holdings::VpnHoldings;
pub use routes::Route;
