use cf_types::{Adjunct, ConnId, Resource};

/// The record data of a connector's interest in a resource.
#[derive(Clone, Copy)]
pub struct Record {
    pub r: Resource,
    pub conn: ConnId,
    pub rec: Adjunct,
}
