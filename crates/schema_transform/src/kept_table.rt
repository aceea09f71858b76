//! A table that is kept.
use crate::rows::Row;
use ov_types::{InstanceId, Items};

/// The rows of an instance's table, in the order in which they are put.
#[derive(Drop)]
pub(crate) struct KeptTable {
    pub(crate) instance: InstanceId,
    pub(crate) rows: Items<Row>,
}
