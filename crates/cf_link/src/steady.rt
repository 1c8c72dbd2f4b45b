ghost use Rattle.std.specs.Prelude.{[], Some, None};

use crate::link::{Down, Link};

/// A link that is never down. It doesn't tell its calls.
#[derive(Clone, Copy, Debug, PartialEq, Eq)]
pub struct Steady;

impl Link for Steady {
    ghost calls = { λ _. None };

    ghost downs = { λ _. Some [] };

    ghost faults = { λ _. 0 };

    fn ask(&mut self) -> Result<(), Down> {
        Ok(())
    }

    ghost tells_enough = { λ _. tt };
}
