//! REBUILD START, STOP, CONNECT and COMPLETE, and the passing of their stages.
ghost use Rattle.std.specs.Prelude.{◌≡◌, ◌≤◌, ◌+◌, Some, None};
ghost use Rattle.cf_types.specs.Forms.{IsCapacity, IsCaller};
ghost use Rattle.cf_types.specs.declared.shell_commands.ShellReply.TheVariants as replies;
ghost use Rattle.engine_api.specs.Rebuilds.{event_past, beginning_of, end_of, is_switch, is_copy};
ghost use Rattle.engine_api.specs.Shell.{no_deeds, shell_onward, shell_without, emptied, responded, unless_owed, start_outcome, stopped_shell, stop_outcome, rebuild_connect_outcome, complete_outcome, is_connect};
ghost use Rattle.engine_api.specs.RebuildCore.Stages.{outcome_of, next_rebuild, without_owing, rebuild_without, with_place, is_response};
ghost use Rattle.plex_shell.specs.ShellView.{IsKeptRebuild};

use crate::commands::connect::facility_of;
use crate::rebuild_causes::is_copy;
use crate::shell::{Shell, no_deeds};
use cf_types::{Caps, CfId, ConnId, Event, ShellReply, Stage};
use engine_api::Deeds;
use engine_api::rebuilds::{Passed, Rebuild};

impl Shell {
    /// REBUILD START: the active connectors are its members, and are told.
    pub(crate) fn start_rebuild(&mut self, caps: Caps) -> (ShellReply, Deeds)
        requires caps { IsCapacity caps }
        requires room { 1 ≤ self.old.room }
        ensures form { self.new.form ≡ self.old.form }
        ensures acts { record { reply = result.0; shell = self.new.shell; deeds = result.1 }
            ≡ start_outcome self.old.shell caps }
        ensures room { self.old.room ≤ self.new.room + 1 }
    {
        let number = self.started + 1;
        let members = self.conns.active();
        self.rebuild = Some(Rebuild::start(number, members, caps));
        self.started = number;
        self.mail.tell(members, Event::Quiesce { number });
        (ShellReply::OkNumber { number }, no_deeds())
    }

    /// REBUILD STOP: the new instance is given up, and the members are told.
    pub(crate) fn stop_rebuild(&mut self) -> (ShellReply, Deeds)
        requires { 1 ≤ self.old.room }
        ensures form { self.new.form ≡ self.old.form }
        ensures acts { record { reply = result.0; shell = self.new.shell; deeds = result.1 }
            ≡ stop_outcome self.old.shell self.old.shell.rebuild }
        ensures room { self.old.room ≤ self.new.room + 1 }
    {
        match self.rebuild {
            None => (ShellReply::Ok, no_deeds()),
            Some(rebuild) => {
                self.give_up(rebuild);
                let drop_fresh = rebuild.fresh.is_some();
                (
                    ShellReply::Ok,
                    Deeds {
                        drop_fresh,
                        ..no_deeds()
                    },
                )
            }
        }
    }

    /// The rebuild stops without its new instance, and its members are told.
    pub(crate) fn give_up(&mut self, rebuild: Rebuild)
        requires kept { IsKeptRebuild rebuild }
        requires room { 1 ≤ self.old.room }
        ensures form { self.new.form ≡ self.old.form }
        ensures shell { self.new.shell ≡ stopped_shell rebuild self.old.shell }
        ensures room { self.old.room ≤ self.new.room + 1 }
    {
        let mut stopped = rebuild;
        stopped.stop();
        self.rebuild = Some(stopped);
        let stop = Event::Stop {
            number: rebuild.number,
        };
        self.mail.tell(rebuild.members, stop);
    }

    // A rebuild goes on, or its stage has passed: the members are told, and behind COPY the new
    // instance takes the old one's place. True where it does.
    fn go_on(&mut self, before: Rebuild, after: Rebuild, passed: Passed) -> bool
        requires kept { IsKeptRebuild before }
        requires passed { passed ≡ outcome_of before }
        requires after { after ≡ next_rebuild before }
        requires room { 1 ≤ self.old.room }
        ensures form { self.new.form ≡ self.old.form }
        ensures shell { self.new.shell ≡ shell_onward before self.old.shell }
        ensures switch { result ≡ is_switch (outcome_of before) }
        ensures conns { self.new.shell.conns ≡ self.old.shell.conns }
        ensures room { self.old.room ≤ self.new.room + 1 }
    {
        self.rebuild = match passed {
            Passed::No | Passed::Into(_) => Some(after),
            Passed::Ended => None,
        };
        if let Some(event) = event_past(passed, before.number, before.stage) {
            self.mail.tell(before.members, event);
        }
        let switch = is_switch(passed);
        if switch {
            self.primary = before.fresh;
            self.caps = before.caps;
        }
        switch
    }

    /// REBUILD CONNECT: the caller is connected to the new instance, which the first one makes.
    pub(crate) fn connect_rebuild(&mut self, by: ConnId) -> (ShellReply, Deeds)
        requires caller { IsCaller by }
        requires owed { unless_owed is_connect by self.old.shell.rebuild ≡ None }
        requires room { 1 ≤ self.old.room }
        ensures form { self.new.form ≡ self.old.form }
        ensures acts { record { reply = result.0; shell = self.new.shell; deeds = result.1 }
            ≡ rebuild_connect_outcome self.old.form self.old.shell by self.old.shell.rebuild }
        ensures room { self.old.room ≤ self.new.room + 1 }
    {
        match self.rebuild {
            None => (ShellReply::Ok, no_deeds()),
            Some(rebuild) => {
                let make = self.fresh_made(by, &rebuild);
                let cf = rebuild.fresh.unwrap_or(facility_of(make));
                let placed = with_place(rebuild, cf);
                let mut after = placed;
                let passed = after.connected(by);
                let switch = self.go_on(without_owing(placed, by), after, passed);
                (
                    ShellReply::OkAt { cf },
                    Deeds {
                        make,
                        switch,
                        ..no_deeds()
                    },
                )
            }
        }
    }

    /// REBUILD COMPLETE: the caller has done its part of the copy.
    pub(crate) fn complete_rebuild(&mut self, by: ConnId) -> (ShellReply, Deeds)
        requires caller { IsCaller by }
        requires owed { unless_owed is_copy by self.old.shell.rebuild ≡ None }
        requires room { 1 ≤ self.old.room }
        ensures form { self.new.form ≡ self.old.form }
        ensures acts { record { reply = result.0; shell = self.new.shell; deeds = result.1 }
            ≡ complete_outcome self.old.shell by self.old.shell.rebuild }
        ensures room { self.old.room ≤ self.new.room + 1 }
    {
        match self.rebuild {
            None => (ShellReply::Ok, no_deeds()),
            Some(rebuild) => {
                let mut after = rebuild;
                let passed = after.completed(by);
                let switch = self.go_on(without_owing(rebuild, by), after, passed);
                (
                    ShellReply::Ok,
                    Deeds {
                        switch,
                        ..no_deeds()
                    },
                )
            }
        }
    }

    /// A response to the event that the stage waits for is given; another changes no rebuild. True
    /// where the new instance takes the old one's place.
    pub(crate) fn answer_rebuild(&mut self, by: ConnId, event: &Event) -> bool
        requires caller { IsCaller by }
        requires room { 1 ≤ self.old.room }
        ensures form { self.new.form ≡ self.old.form }
        ensures acts { record {
          reply = replies.Responded event.now;
          shell = self.new.shell;
          deeds = record no_deeds { switch = result };
        } ≡ responded by event.now self.old.shell.rebuild self.old.shell }
        ensures room { self.old.room ≤ self.new.room + 1 }
    {
        match self.rebuild {
            Some(rebuild) if is_response(rebuild.stage, rebuild.number, event) => {
                let mut after = rebuild;
                let passed = after.answer(by, event);
                self.go_on(without_owing(rebuild, by), after, passed)
            }
            _ => false,
        }
    }

    /// A connector that departs is no member any more.
    pub(crate) fn leave_rebuild(&mut self, by: ConnId)
        requires caller { IsCaller by }
        requires room { 1 ≤ self.old.room }
        ensures form { self.new.form ≡ self.old.form }
        ensures shell { self.new.shell ≡ shell_without by self.old.shell.rebuild self.old.shell }
        ensures conns { self.new.shell.conns ≡ self.old.shell.conns }
        ensures room { self.old.room ≤ self.new.room + 1 }
    {
        if let Some(rebuild) = self.rebuild {
            let mut after = rebuild;
            let passed = after.depart(by);
            let _ = self.go_on(rebuild_without(rebuild, by), after, passed);
        }
    }

    /// A failed connection is forced away: in COPY all members owe again.
    pub(crate) fn empty_rebuild(&mut self)
        ensures form { self.new.form ≡ self.old.form }
        ensures shell { self.new.shell
            ≡ record self.old.shell { rebuild = emptied self.old.shell.rebuild } }
        ensures room { self.new.room ≡ self.old.room }
    {
        if let Some(rebuild) = self.rebuild {
            let mut again = rebuild;
            if is_copy(again.stage) {
                again.owe_again();
            }
            self.rebuild = Some(again);
        }
    }
}

// A member owes nothing more.
fn without_owing(rebuild: Rebuild, by: ConnId) -> Rebuild
    requires { IsCaller by }
    ensures { result ≡ without_owing by rebuild }
{
    Rebuild {
        owing: rebuild.owing.without(by),
        ..rebuild
    }
}

// A connector is no member any more.
fn rebuild_without(rebuild: Rebuild, by: ConnId) -> Rebuild
    requires { IsCaller by }
    ensures { result ≡ rebuild_without by rebuild }
{
    let members = rebuild.members.without(by);
    let owing = match rebuild.stage {
        Stage::Copy => members,
        Stage::Quiesce | Stage::Connect | Stage::Cleanup | Stage::Stopping => {
            rebuild.owing.without(by)
        }
    };
    Rebuild {
        members,
        owing,
        ..rebuild
    }
}

// The new instance stands where it was put first.
fn with_place(rebuild: Rebuild, cf: CfId) -> Rebuild
    ensures { result ≡ with_place cf rebuild }
{
    Rebuild {
        fresh: Some(rebuild.fresh.unwrap_or(cf)),
        ..rebuild
    }
}

// Whether the stage of the rebuild with this number waits for a response to the event.
fn is_response(stage: Stage, number: u32, event: &Event) -> bool
    ensures { result ≡ is_response stage number event.now }
{
    match (stage, event) {
        (Stage::Quiesce, Event::Quiesce { number: n }) => *n == number,
        (Stage::Cleanup, Event::Cleanup { number: n }) => *n == number,
        (Stage::Stopping, Event::Stop { number: n }) => *n == number,
        _ => false,
    }
}

// What the members are told where a stage passes.
fn event_past(passed: Passed, number: u32, stage: Stage) -> Option<Event>
    ensures { result ≡ event_past passed number stage }
{
    match passed {
        Passed::No => None,
        Passed::Into(next) => Some(beginning_of(number, next)),
        Passed::Ended => end_of(number, stage),
    }
}

// What they are told where a stage begins.
fn beginning_of(number: u32, stage: Stage) -> Event
    ensures { Some result ≡ beginning_of number stage }
{
    match stage {
        Stage::Quiesce => Event::Quiesce { number },
        Stage::Connect => Event::RebuildConnect { number },
        Stage::Copy => Event::ConnectsDone { number },
        Stage::Cleanup => Event::Cleanup { number },
        Stage::Stopping => Event::Stop { number },
    }
}

// What they are told where the rebuild ends behind a stage.
fn end_of(number: u32, stage: Stage) -> Option<Event>
    ensures { result ≡ end_of number stage }
{
    match stage {
        Stage::Quiesce | Stage::Connect | Stage::Copy => None,
        Stage::Cleanup => Some(Event::Complete { number }),
        Stage::Stopping => Some(Event::StopDone { number }),
    }
}

// Behind COPY the new instance takes the old one's place.
fn is_switch(passed: Passed) -> bool
    ensures { result ≡ is_switch passed }
{
    match passed {
        Passed::Into(Stage::Cleanup) => true,
        _ => false,
    }
}
