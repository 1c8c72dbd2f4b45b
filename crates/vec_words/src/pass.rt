//! The pass of a caller.
ghost use Rattle.std.specs.Prelude.{◌≡◌, ◌≤◌};

use crate::view::View;
use atomic_table::Seat;
use cf_types::ConnId;
use std::marker::Model;

/// With a pass a caller tests its own vector, is told numbers by notes, and has its calls
/// committed. It takes no room in the table and may go to another thread. `D` is the data of one
/// answered call. It is never stored.
pub struct Pass<D> {
    pub(crate) owner: ConnId,
    pub(crate) known: u32,
    pub(crate) sure: u32,
    pub(crate) seat: Seat<u8, View<D>>,
}

impl<D> Model for Pass<D> {
    ghost use Rattle.vec_words.specs.Tokens.{PassSeen, pass_seen, IsPass};

    ghost Value = { PassSeen D };

    ghost view = { λ p. pass_seen p.seat.table_id p.seat.me.0 };

    ghost invariant = { λ p. IsPass p.owner.0 p.known p.sure p.seat.me };
}

impl<D> Drop for Pass<D> {
    fn drop(self) {
        let Pass {
            owner: _,
            known: _,
            sure: _,
            seat: _,
        } = self;
    }
}

impl<D> Pass<D> {
    /// The greatest number that the pass knows, whether its call was seen complete or not.
    pub fn known(&self) -> u32
        ensures { result ≡ self.now.known }
    {
        self.known
    }

    /// The greatest number of a call that the pass has seen complete. It is at most the known
    /// number.
    pub fn sure(&self) -> u32
        ensures sure { result ≡ self.now.sure }
        ensures ordered { result ≤ self.now.known }
    {
        self.sure
    }

    /// The caller: 0 is the operator.
    pub fn owner(&self) -> ConnId
        ensures { result.0 ≡ self.now.owner }
    {
        self.owner
    }
}
