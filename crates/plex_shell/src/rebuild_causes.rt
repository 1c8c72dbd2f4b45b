//! Why the commands of a rebuild are refused, and those that a rebuild holds up.
ghost use Rattle.std.specs.Prelude.{◌≡◌, ◌∷◌, ◌++◌, []};
ghost use Rattle.std.specs.Result.{result_err};
ghost use Rattle.cf_types.specs.Forms.{IsCaller, IsCapacity};
ghost use Rattle.engine_api.specs.Instances.{units_of};
ghost use Rattle.engine_api.specs.Meaning.{first_refusal};
ghost use Rattle.engine_api.specs.Rebuilds.{is_copy, is_held_up, is_quiesced};
ghost use Rattle.engine_api.specs.Shell.{is_connect, can_stop, is_empty, unless_active, unless_somebody, unless_operator, if_lost, if_failed, if_duplexed, if_rebuilding, unless_rebuilding, unless_owed, unless_in, wrong_stage, if_small, if_too_small, if_no_place, candidates, unless_copied_to, if_quiesced, if_left};
ghost use Rattle.plex_shell.specs.Verdicts.{copying_causes};

use crate::shell::Shell;
use crate::verdicts::Judged;
use cf_types::{ConnId, ConnSet, Kind, Refusal, Stage};
use engine_api::Room;
use engine_api::rebuilds::Rebuild;

impl Shell {
    /// Why REBUILD START is refused, if it is.
    pub(crate) fn judge_start(&self, by: ConnId) -> Judged
        requires { IsCaller by }
        ensures { result_err result ≡ first_refusal (unless_somebody self.now.shell by
            ∷ if_failed self.now.shell ∷ if_rebuilding self.now.shell.rebuild
            ∷ if_duplexed self.now.shell ∷ []) }
    {
        self.unless_somebody(by)?;
        self.if_failed()?;
        self.if_rebuilding()?;
        self.if_duplexed()
    }

    /// Why REBUILD STOP is refused, if it is.
    pub(crate) fn judge_stop(&self, by: ConnId) -> Judged
        requires { IsCaller by }
        ensures { result_err result ≡ first_refusal (unless_operator self.now.shell by
            ∷ if_failed self.now.shell ∷ unless_rebuilding self.now.shell.rebuild
            ∷ unless_in can_stop self.now.shell.rebuild ∷ []) }
    {
        self.unless_operator(by)?;
        self.if_failed()?;
        self.unless_rebuilding()?;
        self.unless_stoppable()
    }

    /// Why REBUILD CONNECT is refused, if it is.
    pub(crate) fn judge_rebuild_connect(&self, by: ConnId, room: &Room) -> Judged
        requires { IsCaller by }
        ensures { let shell = self.now.shell in
            result_err result ≡ first_refusal (unless_active shell by ∷ if_failed shell
            ∷ unless_rebuilding shell.rebuild ∷ unless_owed is_connect by shell.rebuild
            ∷ unless_copied_to self.now.form shell room.now by shell.rebuild) }
    {
        self.unless_active(by)?;
        self.if_failed()?;
        self.unless_rebuilding()?;
        self.unless_connecting(by)?;
        self.unless_copied_to(by, room)
    }

    /// Why COPY is refused, if it is.
    pub(crate) fn judge_copy(&self, by: ConnId) -> Judged
        requires { IsCaller by }
        ensures { result_err result ≡ first_refusal (unless_active self.now.shell by
            ∷ if_lost self.now.shell ∷ if_failed self.now.shell
            ∷ copying_causes self.now.shell by) }
    {
        self.unless_active(by)?;
        self.if_lost()?;
        self.if_failed()?;
        self.unless_copying(by)
    }

    fn unless_copying(&self, by: ConnId) -> Judged
        requires { IsCaller by }
        ensures { result_err result ≡ first_refusal (copying_causes self.now.shell by) }
    {
        self.unless_rebuilding()?;
        self.unless_in_copy()?;
        self.if_severed(by, self.primary)?;
        self.if_severed(by, self.fresh())
    }

    /// Why REBUILD COMPLETE is refused, if it is.
    pub(crate) fn judge_complete(&self, by: ConnId, room: &Room) -> Judged
        requires { IsCaller by }
        ensures { result_err result ≡ first_refusal (unless_active self.now.shell by
            ∷ if_failed self.now.shell ∷ unless_rebuilding self.now.shell.rebuild
            ∷ unless_owed is_copy by self.now.shell.rebuild ∷ if_left room.now.left ∷ []) }
    {
        self.unless_active(by)?;
        self.if_failed()?;
        self.unless_rebuilding()?;
        self.unless_completing(by)?;
        if_left(room.left)
    }

    // The operator asks where nobody is active, or a connector that isn't active itself.
    fn unless_somebody(&self, by: ConnId) -> Judged
        ensures { result_err result ≡ unless_somebody self.now.shell by }
    {
        if by.0 == 0 {
            if is_empty(self.conns.active()) {
                Err(Refusal::NotConnected)
            } else {
                Ok(())
            }
        } else {
            self.unless_active(by)
        }
    }

    // A connector that isn't active asks.
    fn unless_operator(&self, by: ConnId) -> Judged
        ensures { result_err result ≡ unless_operator self.now.shell by }
    {
        if by.0 == 0 {
            Ok(())
        } else {
            self.unless_active(by)
        }
    }

    /// A rebuild is under way.
    pub(crate) fn if_rebuilding(&self) -> Judged
        ensures { result_err result ≡ if_rebuilding self.now.shell.rebuild }
    {
        match &self.rebuild {
            Some(rebuild) => Err(Refusal::RebuildInProgress {
                number: rebuild.number,
            }),
            None => Ok(()),
        }
    }

    // No rebuild is under way.
    fn unless_rebuilding(&self) -> Judged
        ensures { result_err result ≡ unless_rebuilding self.now.shell.rebuild }
    {
        match &self.rebuild {
            Some(_) => Ok(()),
            None => Err(Refusal::NoRebuild),
        }
    }

    // The rebuild can't be stopped any more.
    fn unless_stoppable(&self) -> Judged
        ensures { result_err result ≡ unless_in can_stop self.now.shell.rebuild }
    {
        match &self.rebuild {
            Some(rebuild) => wrong_stage(!can_stop(rebuild.stage), rebuild),
            None => Ok(()),
        }
    }

    // The rebuild isn't in COPY.
    fn unless_in_copy(&self) -> Judged
        ensures { result_err result ≡ unless_in is_copy self.now.shell.rebuild }
    {
        match &self.rebuild {
            Some(rebuild) => wrong_stage(!is_copy(rebuild.stage), rebuild),
            None => Ok(()),
        }
    }

    // The caller doesn't owe its connection to the new instance.
    fn unless_connecting(&self, by: ConnId) -> Judged
        requires { IsCaller by }
        ensures { result_err result ≡ unless_owed is_connect by self.now.shell.rebuild }
    {
        match &self.rebuild {
            Some(rebuild) => {
                let owes = is_connect(rebuild.stage) && rebuild.owing.has(by);
                wrong_stage(!owes, rebuild)
            }
            None => Ok(()),
        }
    }

    // The caller doesn't owe its part of the copy.
    fn unless_completing(&self, by: ConnId) -> Judged
        requires { IsCaller by }
        ensures { result_err result ≡ unless_owed is_copy by self.now.shell.rebuild }
    {
        match &self.rebuild {
            Some(rebuild) => {
                let owes = is_copy(rebuild.stage) && rebuild.owing.has(by);
                wrong_stage(!owes, rebuild)
            }
            None => Ok(()),
        }
    }

    // The new instance can't be made, or the caller doesn't reach it.
    fn unless_copied_to(&self, by: ConnId, room: &Room) -> Judged
        requires { IsCaller by }
        ensures { result_err result ≡ first_refusal (unless_copied_to self.now.form self.now.shell
            room.now by self.now.shell.rebuild) }
    {
        match &self.rebuild {
            None => Ok(()),
            Some(rebuild) => {
                if rebuild.fresh.is_none() {
                    self.unless_made(by, room, rebuild)
                } else {
                    self.if_severed(by, rebuild.fresh)
                }
            }
        }
    }

    // The capacity is too small for what there is, or there is no place for it.
    fn unless_made(&self, by: ConnId, room: &Room, rebuild: &Rebuild) -> Judged
        requires caller { IsCaller by }
        requires caps { IsCapacity rebuild.now.caps }
        ensures { result_err result ≡ first_refusal (if_too_small self.now.form.kind room.now.need
            rebuild.now.caps ++ if_no_place (units_of rebuild.now.caps)
            (candidates self.now.form self.now.shell by) ∷ []) }
    {
        match self.form.kind {
            Kind::Cache | Kind::List { .. } => {
                if_small(room.need.entries, rebuild.caps.entries)?;
                if_small(room.need.elements, rebuild.caps.elements)?;
                self.if_no_place(by, rebuild.caps)
            }
            Kind::Lock { .. } => {
                if_small(room.need.elements, rebuild.caps.elements)?;
                self.if_no_place(by, rebuild.caps)
            }
        }
    }

    /// The caller is quiesced.
    pub(crate) fn if_quiesced(&self, by: ConnId) -> Judged
        requires { IsCaller by }
        ensures { result_err result ≡ if_quiesced by self.now.shell.rebuild }
    {
        match &self.rebuild {
            Some(rebuild) if is_quiesced(by, rebuild) => Err(Refusal::Quiesced {
                number: rebuild.number,
            }),
            _ => Ok(()),
        }
    }
}

// The set has no member.
fn is_empty(set: ConnSet) -> bool
    ensures { result ≡ is_empty set }
{
    set.len() == 0
}

// The rebuild is in another stage than the command's.
fn wrong_stage(wrong: bool, rebuild: &Rebuild) -> Judged
    ensures { result_err result ≡ wrong_stage wrong rebuild.now }
{
    if wrong {
        Err(Refusal::WrongStage {
            stage: rebuild.stage,
        })
    } else {
        Ok(())
    }
}

// The members connect to the new instance.
fn is_connect(stage: Stage) -> bool
    ensures { result ≡ is_connect stage }
{
    match stage {
        Stage::Connect => true,
        Stage::Quiesce | Stage::Copy | Stage::Cleanup | Stage::Stopping => false,
    }
}

/// The members copy.
pub(crate) fn is_copy(stage: Stage) -> bool
    ensures { result ≡ is_copy stage }
{
    match stage {
        Stage::Copy => true,
        Stage::Quiesce | Stage::Connect | Stage::Cleanup | Stage::Stopping => false,
    }
}

// A rebuild can be stopped.
fn can_stop(stage: Stage) -> bool
    ensures { result ≡ can_stop stage }
{
    match stage {
        Stage::Quiesce | Stage::Connect | Stage::Copy => true,
        Stage::Cleanup | Stage::Stopping => false,
    }
}

// A member's commands on the content wait in the stage.
fn is_held_up(stage: Stage, owes: bool) -> bool
    ensures { result ≡ is_held_up stage owes }
{
    match stage {
        Stage::Quiesce => !owes,
        Stage::Connect | Stage::Copy | Stage::Cleanup => true,
        Stage::Stopping => false,
    }
}

// A member's commands on the content wait for the rebuild.
fn is_quiesced(conn: ConnId, rebuild: &Rebuild) -> bool
    requires { IsCaller conn }
    ensures { result ≡ is_quiesced conn rebuild.now }
{
    rebuild.members.has(conn) && is_held_up(rebuild.stage, rebuild.owing.has(conn))
}

// A capacity is too small for what there is, in one number.
fn if_small(need: u32, have: u32) -> Judged
    ensures { result_err result ≡ if_small need have }
{
    if have < need {
        Err(Refusal::TooSmall { need, have })
    } else {
        Ok(())
    }
}

// Items are left to be copied.
fn if_left(left: u32) -> Judged
    ensures { result_err result ≡ if_left left }
{
    if left > 0 {
        Err(Refusal::ItemsLeft { left })
    } else {
        Ok(())
    }
}
