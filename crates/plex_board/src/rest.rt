//! What a board keeps for its end.
use crate::any_pass::AnyPasses;
use plex_script::AnyHistory;
use struct_cell::links::Link;
use struct_cell::turns::Keeps;

/// What a board keeps for its end, so that it ends without memory: for each structure the vector in
/// which its passes go home, room for the histories and for the links, and the links that no
/// structure has. It stays as it is till then.
#[derive(Drop)]
pub struct Rest<L: Link> {
    pub(crate) homes: Vec<AnyPasses>,
    pub(crate) histories: Vec<AnyHistory>,
    pub(crate) links: Vec<L>,
    pub(crate) spare: Vec<L>,
}

impl<L: Link> Keeps for Rest<L> {
    ghost use Rattle.std.specs.Prelude.{◌≡◌};

    type Value = Rest<L>;

    type Key = Rest<L>;

    ghost key_of = { λ rest. rest };

    ghost stands = { λ key rest. rest ≡ key };
}
