//! What the members ask of the lock structure, by words of a script.
ghost use Rattle.plex_seat.specs.Names.{IsPolicy};

use plex_seat::{Fault, LockCmd, Resource, Script, lock_command};

/// The commands of both members, and the page that both want.
#[derive(Drop)]
pub struct Orders {
    pub page: Resource,
    /// B has the page's lock at once.
    pub obtain: LockCmd,
    /// A waits for it, with a record of what it is about to do.
    pub wait: LockCmd,
    pub release: LockCmd,
    /// A's record data is read, and goes.
    pub read: LockCmd,
    pub delete: LockCmd,
    /// B shares the page's lock.
    pub share: LockCmd,
}

/// Reads the commands.
pub fn read_orders(script: &Script) -> Result<Orders, Fault>
    requires { IsPolicy script.now }
{
    let release = lock_command(script, b"RELEASE PAGE7@7")?;
    let LockCmd::Release { r: page } = release else {
        return Err(Fault::Command);
    };
    let obtain = lock_command(script, b"OBTAIN PAGE7@7 EXCL")?;
    let wait = lock_command(script, b"OBTAIN PAGE7@7 EXCL REC upd7")?;
    let share = lock_command(script, b"OBTAIN PAGE7@7 SHR")?;
    let read = lock_command(script, b"RTREAD A")?;
    let delete = lock_command(script, b"RTDELETE A PAGE7@7")?;
    Ok(Orders {
        page,
        obtain,
        wait,
        release,
        read,
        delete,
        share,
    })
}
