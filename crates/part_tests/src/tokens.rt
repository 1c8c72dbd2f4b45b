ghost use Rattle.std.specs.Prelude.{◌≡◌, ℕ, IfOk};

use engine_api::types::NoMemory;
use std::alloc::Global;
use std::marker::Model;
use std::sync::Arc;

/// What the engines of one structure hold in common. It has as many owners as there are engines
/// that took it, and what else keeps it.
pub type Share = Arc<u32, Global>;

/// A number that an engine is to keep, as a command or as an item of a copy, and the share that an
/// engine takes with its first one. Contracts see the number.
#[derive(Drop)]
pub struct Token {
    pub(crate) number: u32,
    pub(crate) share: Option<Share>,
}

impl Model for Token {
    ghost use Rattle.std.specs.Prelude.{ℕ};

    ghost Value = { ℕ };

    ghost view = { λ token. token.number };
}

impl Token {
    /// A number, with one owner more of a share.
    pub fn new(number: u32, share: &Option<Share>) -> Result<Token, NoMemory>
        ensures { IfOk result (λ token. token ≡ number) }
    {
        let share = shared(share)?;
        Ok(Token { number, share })
    }
}

/// One owner more of a share, where there is one.
pub(crate) fn shared(share: &Option<Share>) -> Result<Option<Share>, NoMemory> {
    match share {
        Some(share) => {
            let owner = Arc::try_clone(share)?;
            Ok(Some(owner))
        }
        None => Ok(None),
    }
}
