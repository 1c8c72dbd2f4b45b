//! What is done to an instance, where it stands, and to the secondary beside a primary.
ghost use Rattle.std.specs.Prelude.{◌≡◌, ◌≤◌, [], OnOk, IfSome, option_map};
ghost use Rattle.cf_types.specs.Forms.{IsCaller};
ghost use Rattle.engine_api.specs.Meaning.{answer, with_departure, with_back, with_forgotten};
ghost use Rattle.engine_api.specs.Meaning.Wish.{ForCmd, ForLeave, ForForget};
ghost use Rattle.duplex_pair.specs.Pairs.{AreNone, facility_of, held_in};

use crate::placed::Placed;
use cf_types::limits::CALLERS;
use cf_types::{Batch, ConnId, Effects, NoMemory};
use engine_api::Engine;
use std::alloc::Global;

/// For how many letters effects keep their room from one call to the next.
const KEPT_LETTERS: usize = 2 * CALLERS as usize;

/// Ends the letters. Where there is room for many it is given back, so that one departure with many
/// letters makes no later call take room for as many.
pub fn fresh_mail(alloc: Global, out: &mut Effects)
    ensures bits { out.new.bits ≡ out.old.bits }
    ensures mail { out.new.mail.items ≡ [] }
{
    if out.mail.room() > KEPT_LETTERS {
        out.mail = Batch::new(alloc);
    } else {
        out.mail.clear();
    }
}

// Effects for a secondary. Where none stands there is room for nothing.
pub(crate) fn fresh_spare<E: Engine>(
    alloc: Global,
    secondary: &Option<Placed<E>>,
    spare: &mut Effects,
)
    requires { AreNone spare.old }
    ensures { AreNone spare.new }
{
    match secondary {
        Some(_) => fresh_mail(alloc, spare),
        None => *spare = Effects::new(alloc),
    }
}

// Effects with as much room as others have.
pub(crate) fn make_room(out: &mut Effects, like: &Effects) -> Result<(), NoMemory>
    ensures bits { out.new.bits.items ≡ out.old.bits.items }
    ensures mail { out.new.mail.items ≡ out.old.mail.items }
    ensures more_bits { out.old.bits.room ≤ out.new.bits.room }
    ensures more_mail { out.old.mail.room ≤ out.new.mail.room }
    ensures as_bits { OnOk result (like.now.bits.room ≤ out.new.bits.room) }
    ensures as_mail { OnOk result (like.now.mail.room ≤ out.new.mail.room) }
{
    out.bits.reserve(like.bits.room())?;
    out.mail.reserve(like.mail.room())
}

// Makes an instance ready for a command, where it stands.
pub(crate) fn for_command<E: Engine>(
    instance: &mut Option<Placed<E>>,
    by: ConnId,
    cmd: &E::Cmd,
    out: &mut Effects,
) -> Result<(), NoMemory>
    requires caller { IsCaller by }
    ensures ready { OnOk result (IfSome instance.new
        (λ p. E.is_ready p.engine (ForCmd by cmd.now) out.new)) }
    ensures place { facility_of instance.new ≡ facility_of instance.old }
    ensures held { held_in E.held instance.new ≡ held_in E.held instance.old }
    ensures bits { out.new.bits.items ≡ out.old.bits.items }
    ensures mail { out.new.mail.items ≡ out.old.mail.items }
{
    match instance {
        Some(placed) => placed.engine.ready(by, cmd, out),
        None => Ok(()),
    }
}

// Makes it ready for a departure.
pub(crate) fn for_leave<E: Engine>(
    instance: &mut Option<Placed<E>>,
    conn: ConnId,
    out: &mut Effects,
) -> Result<(), NoMemory>
    requires caller { IsCaller conn }
    ensures ready { OnOk result (IfSome instance.new
        (λ p. E.is_ready p.engine (ForLeave conn) out.new)) }
    ensures place { facility_of instance.new ≡ facility_of instance.old }
    ensures held { held_in E.held instance.new ≡ held_in E.held instance.old }
    ensures bits { out.new.bits.items ≡ out.old.bits.items }
    ensures mail { out.new.mail.items ≡ out.old.mail.items }
{
    match instance {
        Some(placed) => placed.engine.leave_ready(conn, out),
        None => Ok(()),
    }
}

// Makes it ready for the end of registrations.
pub(crate) fn for_forget<E: Engine>(
    instance: &mut Option<Placed<E>>,
    out: &mut Effects,
) -> Result<(), NoMemory>
    ensures ready { OnOk result (IfSome instance.new
        (λ p. E.is_ready p.engine ForForget out.new)) }
    ensures place { facility_of instance.new ≡ facility_of instance.old }
    ensures held { held_in E.held instance.new ≡ held_in E.held instance.old }
    ensures bits { out.new.bits.items ≡ out.old.bits.items }
    ensures mail { out.new.mail.items ≡ out.old.mail.items }
{
    match instance {
        Some(placed) => placed.engine.forget_ready(out),
        None => Ok(()),
    }
}

// A command is done to the secondary too. What it brings has been told by the primary.
pub(crate) fn follow_command<E: Engine>(
    secondary: &mut Option<Placed<E>>,
    by: ConnId,
    cmd: &E::Cmd,
    spare: &mut Effects,
)
    requires caller { IsCaller by }
    requires ready { IfSome secondary.old (λ p. E.is_ready p.engine (ForCmd by cmd.now) spare.old) }
    requires none { AreNone spare.old }
    ensures none { AreNone spare.new }
    ensures place { facility_of secondary.new ≡ facility_of secondary.old }
    ensures held { held_in E.held secondary.new
        ≡ option_map (λ held. (answer E.meaning held by cmd.now).held)
        (held_in E.held secondary.old) }
{
    if let Some(placed) = secondary {
        let _ = placed.engine.apply(by, cmd, spare);
        spare.clear();
    }
}

// So is a departure.
pub(crate) fn follow_leave<E: Engine>(
    secondary: &mut Option<Placed<E>>,
    conn: ConnId,
    keep: bool,
    spare: &mut Effects,
)
    requires caller { IsCaller conn }
    requires ready { IfSome secondary.old (λ p. E.is_ready p.engine (ForLeave conn) spare.old) }
    requires none { AreNone spare.old }
    ensures none { AreNone spare.new }
    ensures place { facility_of secondary.new ≡ facility_of secondary.old }
    ensures held { held_in E.held secondary.new
        ≡ option_map (λ held. with_departure E.meaning held conn keep)
        (held_in E.held secondary.old) }
{
    if let Some(placed) = secondary {
        placed.engine.leave(conn, keep, spare);
        spare.clear();
    }
}

// And so is the end of registrations.
pub(crate) fn follow_forget<E: Engine>(secondary: &mut Option<Placed<E>>, spare: &mut Effects)
    requires ready { IfSome secondary.old (λ p. E.is_ready p.engine ForForget spare.old) }
    requires none { AreNone spare.old }
    ensures none { AreNone spare.new }
    ensures place { facility_of secondary.new ≡ facility_of secondary.old }
    ensures held { held_in E.held secondary.new
        ≡ option_map (with_forgotten E.meaning) (held_in E.held secondary.old) }
{
    if let Some(placed) = secondary {
        placed.engine.forget(spare);
        spare.clear();
    }
}

// A failed connection is taken up again in an instance, where it stands.
pub(crate) fn take_back<E: Engine>(instance: &mut Option<Placed<E>>, conn: ConnId)
    requires caller { IsCaller conn }
    ensures place { facility_of instance.new ≡ facility_of instance.old }
    ensures held { held_in E.held instance.new
        ≡ option_map (λ held. with_back E.meaning held conn) (held_in E.held instance.old) }
{
    if let Some(placed) = instance {
        placed.engine.back(conn);
    }
}
