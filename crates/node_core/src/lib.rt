//! What every kind of node shares: what octets bring, how changes are spelled, and its step over the ends of its sessions,
//! over links that may fail.
#![tactic(auto)]

mod advancing;
mod answers;
mod change_item;
mod ends;
mod hearing;
mod keeping;
pub mod laws;
mod naming;
mod node;
mod spelling;
mod telling;

pub use answers::answer;
pub use ends::{EndState, Ends, Plan, Started};
pub use hearing::{HeardRecords, greet, hear};
pub use naming::config_name;
pub use node::NodeCore;
pub use spelling::{down_change, low_change, spell_down, spell_low, spell_up, up_change};
pub use telling::tell;
