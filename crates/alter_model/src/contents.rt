use cf_types::Caps;

/// A content as contracts see it: the structure's own, the limits that stand in place of its
/// capacity, where there are some, and the capacity that an alteration goes towards.
#[derive(Drop)]
pub struct AlterContent<S> {
    pub inner: S,
    pub limits: Option<Caps>,
    pub target: Option<Caps>,
}
