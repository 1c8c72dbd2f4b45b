use crate::forms::Caps;

/// A command of a structure whose capacity is altered while it is in use (IXLALTER): one of the
/// structure's own, or an alteration.
#[derive(Drop)]
pub enum AlterCmd<C> {
    /// A command on the content.
    Inner(C),
    /// Sets the capacity to go to, in place of one that was set.
    Start { caps: Caps },
    /// Brings the capacity nearer to the target, by at most `n` entries and `n` elements.
    Step { n: u32 },
    /// Gives the target up. The capacity stays where it is.
    Stop,
}

/// The answer to a command of such a structure that was not refused.
#[derive(Drop)]
pub enum AlterReply<R> {
    /// That of a command on the content.
    Inner(R),
    Ok,
    /// Step: the capacity now, and whether it is the target's.
    Altered { caps: Caps, done: bool },
}
