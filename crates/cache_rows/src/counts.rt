//! How many rows each storage class and each castout class has, kept as rows come and go, so that
//! no command counts them.
ghost use Rattle.std.specs.Prelude.{◌≡◌, ◌<◌, IfSome, slice_index_or};
ghost use Rattle.cache_rows.specs.Counted.{changed_key, AreBelow, AreZero, AreAbove, IsMore, IsMoreOf, CanAdd, CanLower};

/// The numbers from 0 to 16 are counted. All storage classes and castout classes are among them.
pub(crate) const COUNTED: usize = 17;

/// How many rows each storage class has, how many changed rows each storage class has, and how many
/// each castout class.
#[derive(Clone, Copy)]
pub(crate) struct Counts {
    pub storage: [u32; COUNTED],
    pub changed: [u32; COUNTED],
    pub castout: [u32; COUNTED],
}

// One more of a number, if there is one and it is counted.
fn raise(counts: &mut [u32; COUNTED], key: Option<u32>)
    requires { AreBelow counts.old }
    ensures { IsMore key counts.old counts.new }
{
    let Some(key) = key else {
        return;
    };
    if (key as usize) < COUNTED {
        counts[key as usize] += 1;
    }
}

// One less of a number, if there is one and it is counted.
fn lower(counts: &mut [u32; COUNTED], key: Option<u32>)
    requires { AreAbove key counts.old }
    ensures { IsMore key counts.new counts.old }
{
    let Some(key) = key else {
        return;
    };
    if (key as usize) < COUNTED {
        counts[key as usize] -= 1;
    }
}

// How many there are of a number, where it is counted.
fn count_of(counts: &[u32; COUNTED], k: u32) -> Option<u32>
    ensures within { IfSome result (λ n. k < 17) }
    ensures count { IfSome result (λ n. n ≡ slice_index_or counts.now k 0) }
{
    if (k as usize) < COUNTED {
        Some(counts[k as usize])
    } else {
        None
    }
}

// The storage class of a row that is changed.
fn changed_key(class: Option<u32>, stg: u32) -> Option<u32>
    ensures { result ≡ changed_key class stg }
{
    match class {
        Some(_) => Some(stg),
        None => None,
    }
}

impl Counts {
    /// Of no rows.
    pub(crate) fn new() -> Counts
        ensures { AreZero result }
    {
        Counts {
            storage: [0; COUNTED],
            changed: [0; COUNTED],
            castout: [0; COUNTED],
        }
    }

    /// A row of this castout class and this storage class comes.
    pub(crate) fn add(&mut self, class: Option<u32>, stg: u32)
        requires { CanAdd self.old }
        ensures { IsMoreOf class stg self.old self.new }
    {
        raise(&mut self.storage, Some(stg));
        raise(&mut self.changed, changed_key(class, stg));
        raise(&mut self.castout, class);
    }

    /// A row of this castout class and this storage class goes.
    pub(crate) fn subtract(&mut self, class: Option<u32>, stg: u32)
        requires { CanLower class stg self.old }
        ensures { IsMoreOf class stg self.new self.old }
    {
        lower(&mut self.storage, Some(stg));
        lower(&mut self.changed, changed_key(class, stg));
        lower(&mut self.castout, class);
    }

    /// How many rows a storage class has, where that is counted.
    pub(crate) fn of_storage(&self, stg: u32) -> Option<u32>
        ensures within { IfSome result (λ n. stg < 17) }
        ensures count { IfSome result (λ n. n ≡ slice_index_or self.now.storage stg 0) }
    {
        count_of(&self.storage, stg)
    }

    /// How many changed rows a storage class has, where that is counted.
    pub(crate) fn changed_of(&self, stg: u32) -> Option<u32>
        ensures within { IfSome result (λ n. stg < 17) }
        ensures count { IfSome result (λ n. n ≡ slice_index_or self.now.changed stg 0) }
    {
        count_of(&self.changed, stg)
    }

    /// How many rows a castout class has, where that is counted.
    pub(crate) fn of_class(&self, class: u32) -> Option<u32>
        ensures within { IfSome result (λ n. class < 17) }
        ensures count { IfSome result (λ n. n ≡ slice_index_or self.now.castout class 0) }
    {
        count_of(&self.castout, class)
    }
}
