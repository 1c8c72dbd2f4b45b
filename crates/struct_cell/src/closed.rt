use engine_api::{Engine, History};
use struct_machine::links::Links;

/// What is left of a cell that is closed.
#[derive(Drop)]
pub struct Closed<E: Engine, L> {
    /// The structure's journal.
    pub history: History<E::Cmd, E::Reply>,

    /// The links, asked as often as the journal tells.
    pub links: Links<L>,

    /// The content of the primary, where one stands.
    pub first: Option<E>,

    /// That of the secondary.
    pub second: Option<E>,

    /// That of a rebuild's new instance.
    pub fresh: Option<E>,
}
