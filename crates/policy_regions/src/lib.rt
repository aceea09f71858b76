//! Regions: what the policies decide between two networks, of all packets at once. A decision depends on the protocol
//! and the two ports alone, so that it is the same throughout each of a list of boxes of these.
#![tactic(auto)]

mod between;
mod carving;
mod claims;
mod joining;
mod last_found;
mod last_laid;
pub mod laws;
mod origin;
mod overlays;
mod policies;
mod region;

pub use between::{claims_between, regions_between};
pub use carving::left_after;
pub use last_found::{LastFound, are_same};
pub use last_laid::LastLaid;
pub use origin::Origin;
pub use overlays::{Compared, overlay};
pub use region::{Claim, DecidedRegion, Effect, Region};
