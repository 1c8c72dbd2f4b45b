ghost use Rattle.std.specs.Prelude.{◌≡◌, ◌↔◌, true};

use crate::same::Same;
use cf_types::Listing;

// Whether two lists are the same, item by item.
fn are_same<T: Same>(one: &[T], other: &[T]) -> bool
    ensures { (result ≡ true) ↔ (one.now ≡ other.now) }
{
    if one.len() != other.len() {
        return false;
    }
    for k in 0..one.len() {
        if !one[k].is_same(&other[k]) {
            return false;
        }
    }
    true
}

impl<T: Same> Same for Listing<T> {
    fn is_same(&self, other: &Listing<T>) -> bool {
        are_same(self.items(), other.items())
    }
}
