// What a lock keeps.
use std::marker::PhantomData;

/// A fact that a lock keeps about its key and the value in it.
pub trait Keeps {
    /// What lies under the lock.
    type Value: Send + Drop;

    /// What the fact is told besides. No value of it is made: contracts alone see it.
    type Key;

    /// The key of a lock that begins with this value.
    ghost key_of: { Self.Value → Self.Key };

    /// The value stands to the key.
    ghost stands: { Self.Key → Self.Value → Type 0 };
}

/// The same fact of a value that lies in a box. A lock that keeps it moves a pointer at each turn.
pub struct Boxed<F> {
    of: PhantomData<F>,
}

impl<F: Keeps> Keeps for Boxed<F> {
    type Value = Box<F::Value>;

    type Key = F::Key;

    ghost key_of = { λ inside. F.key_of inside.value };

    ghost stands = { λ key inside. F.stands key inside.value };
}
