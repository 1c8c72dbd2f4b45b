use cf_link::Links;

/// What is left of a pair that is ended.
#[derive(Drop)]
pub struct Ended<E, L> {
    /// The primary, where one stood.
    pub first: Option<E>,
    /// The secondary, where one stood.
    pub second: Option<E>,
    pub links: Links<L>,
}
