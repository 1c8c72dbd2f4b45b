//! Counts by which threads wait for one another, but not for ever.
use crate::halts::Halt;
use std::hint::spin_loop;
use std::sync::atomic::AtomicU64;
use std::sync::atomic::Ordering::SeqCst;

/// How often a thread looks for what another is to do.
pub const PATIENCE: u64 = 500_000_000;

/// Adds one to a count.
pub fn raise(count: &AtomicU64) {
    count.fetch_add(1, SeqCst);
}

/// Waits till a count is at least this, and answers it.
///
/// # Errors
///
/// `Late` where that doesn't come.
pub fn wait_for(count: &AtomicU64, least: u64) -> Result<u64, Halt> {
    for _ in 0..PATIENCE {
        let now = count.load(SeqCst);
        if now >= least {
            return Ok(now);
        }
        spin_loop();
    }
    Err(Halt::Late)
}
