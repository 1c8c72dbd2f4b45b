//! The commands of a lock structure, a file each: why one is refused, and what it does and answers.
pub(crate) mod alter;
pub(crate) mod decide;
pub(crate) mod obtain;
pub(crate) mod release;
pub(crate) mod rt_delete;
pub(crate) mod rt_read;
