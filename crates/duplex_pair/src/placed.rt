use cf_types::CfId;

/// An instance of a structure, and the facility where it stands.
#[derive(Drop)]
pub struct Placed<E> {
    pub engine: E,
    pub at: CfId,
}
