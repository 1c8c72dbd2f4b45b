ghost use Rattle.std.specs.Prelude.{◌≡◌, ◌↔◌, true};

/// A value that can be told from another of its type. The types of calls have no `==`, since those
/// that hold data take memory, and a derived one would be proved wherever they are.
pub trait Same: Sized {
    /// Whether the two are the same.
    fn is_same(&self, other: &Self) -> bool
        ensures { (result ≡ true) ↔ (self.now ≡ other.now) };
}

impl<T: Same> Same for Option<T> {
    fn is_same(&self, other: &Option<T>) -> bool {
        match (self, other) {
            (None, None) => true,
            (Some(one), Some(other)) => one.is_same(other),
            _ => false,
        }
    }
}
