//! What control nodes and agents tell each other: keys, and the values under them.
use crate::numbers::InstanceId;
use crate::objects::{LowKey, LowValue};
use crate::prefix::Prefix;
use crate::rows::Entry;

/// What a control node tells an agent: the objects of its slice, and then the routes of instances.
#[derive(Clone, Copy, Debug, PartialEq, Eq, PartialOrd, Ord)]
pub enum DownKey {
    Slice(LowKey),
    Route(InstanceId, Prefix),
}

/// What a control node tells an agent under such a key.
#[derive(Clone, Debug, Drop, PartialEq, Eq)]
pub enum DownValue {
    /// An object of its slice.
    Object(LowValue),
    /// Where an instance's table leads for a prefix.
    Row(Entry),
}

/// What an agent tells a control node: the prefixes that it publishes, and then the instances that it subscribes.
#[derive(Clone, Copy, Debug, PartialEq, Eq, PartialOrd, Ord)]
pub enum UpKey {
    Publish(InstanceId, Prefix),
    Subscribe(InstanceId),
}
