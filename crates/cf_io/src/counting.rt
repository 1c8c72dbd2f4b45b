ghost use Rattle.std.specs.Prelude.{◌≡◌, ◌↔◌, IsTrue};
ghost use Rattle.cf_io.specs.Count.{IsListed, one_more};

// Whether the call after so many is listed. None is at the end of the count, since no number of a
// `u64` is past it.
pub(crate) fn is_listed(fails: &[u64], calls: u64) -> bool
    ensures { IsTrue result ↔ IsListed fails.now calls }
{
    match calls.checked_add(1) {
        Some(number) => fails.contains(&number),
        None => false,
    }
}

// The count after one more.
pub(crate) fn counted(count: u64) -> u64
    ensures { result ≡ one_more count }
{
    count.saturating_add(1)
}
