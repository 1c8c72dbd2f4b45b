use cf_types::Adjunct;
use lock_queue::Waiter;
use lock_table::Held;

/// What a copy of a lock structure is made of: first each interest with its record data, then each
/// waiter.
#[derive(Clone, Copy)]
pub enum LockItem {
    /// A connector owns a resource.
    Owner { held: Held, rec: Option<Adjunct> },
    /// A connector waits for a resource.
    Waits { w: Waiter },
}
