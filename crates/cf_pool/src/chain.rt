ghost use Rattle.std.specs.Prelude.{◌≡◌};

/// The data of one owner in a pool. It isn't `Clone`: in its pool there is one of it, so that its
/// elements are given back once. Only a copy of the pool takes another, by `in_copy`.
#[derive(Drop)]
pub struct Chain {
    pub(crate) head: u32,
}

impl Chain {
    /// The same chain in a copy of its pool.
    pub fn in_copy(&self) -> Chain
        ensures { result ≡ self.now }
    {
        Chain { head: self.head }
    }
}
