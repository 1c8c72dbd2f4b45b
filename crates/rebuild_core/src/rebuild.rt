//! The rebuild.
ghost use Rattle.std.specs.Prelude.{◌≡◌, ◌≢◌, Some};
ghost use Rattle.cf_types.specs.Forms.{IsCaller};
ghost use Rattle.cf_types.specs.declared.events.Stage.TheVariants as stages;
ghost use Rattle.rebuild_core.specs.declared.passed.Passed.TheVariants as outcomes;
ghost use Rattle.rebuild_core.specs.Stages.{awaited_event, new_rebuild, rebuild_in, without_owing, rebuild_without, with_all_owing, outcome_of, next_rebuild};

use crate::passed::Passed;
use cf_types::{Caps, CfId, ConnId, ConnSet, Event, Stage};

/// A rebuild under way (IXLREBLD).
#[derive(Clone, Copy)]
pub struct Rebuild {
    /// Its number: the structure's rebuilds are counted from 1.
    pub number: u32,
    pub stage: Stage,
    /// The connectors that were active at its start and haven't departed since.
    pub members: ConnSet,
    /// The members that haven't given yet what the stage waits for.
    pub owing: ConnSet,
    /// The capacity of the new instance.
    pub caps: Caps,
    /// The facility of the new instance, while there is one.
    pub fresh: Option<CfId>,
}

impl Rebuild {
    /// A rebuild begins (IXLREBLD START): the members owe a response to QUIESCE.
    pub fn start(number: u32, members: ConnSet, caps: Caps) -> Rebuild
        ensures { result ≡ new_rebuild number members caps }
    {
        Rebuild {
            number,
            stage: Stage::Quiesce,
            members,
            owing: members,
            caps,
            fresh: None,
        }
    }

    /// A connector answers an event (IXLEERSP). Where the stage doesn't wait for a response to that
    /// event, as with one of a stage that has ended, nothing changes.
    pub fn answer(&mut self, conn: ConnId, event: &Event) -> Passed
        requires { IsCaller conn }
        ensures passed { awaited_event self.old ≡ Some event.now
            → result ≡ outcome_of (without_owing conn self.old) }
        ensures state { awaited_event self.old ≡ Some event.now
            → self.new ≡ next_rebuild (without_owing conn self.old) }
        ensures late { awaited_event self.old ≢ Some event.now
            → (result ≡ outcomes.No) × (self.new ≡ self.old) }
    {
        match self.awaited_event() {
            Some(awaited) if awaited == *event => self.excuse(conn),
            _ => Passed::No,
        }
    }

    /// A member has connected to the new instance (IXLREBLD CONNECT). In another stage than CONNECT
    /// nothing changes.
    pub fn connected(&mut self, conn: ConnId) -> Passed
        requires { IsCaller conn }
        ensures passed { self.old.stage ≡ stages.Connect
            → result ≡ outcome_of (without_owing conn self.old) }
        ensures state { self.old.stage ≡ stages.Connect
            → self.new ≡ next_rebuild (without_owing conn self.old) }
        ensures elsewhere { self.old.stage ≢ stages.Connect
            → (result ≡ outcomes.No) × (self.new ≡ self.old) }
    {
        match self.stage {
            Stage::Connect => self.excuse(conn),
            _ => Passed::No,
        }
    }

    /// A member has completed its part (IXLREBLD COMPLETE). In another stage than COPY nothing
    /// changes.
    pub fn completed(&mut self, conn: ConnId) -> Passed
        requires { IsCaller conn }
        ensures passed { self.old.stage ≡ stages.Copy
            → result ≡ outcome_of (without_owing conn self.old) }
        ensures state { self.old.stage ≡ stages.Copy
            → self.new ≡ next_rebuild (without_owing conn self.old) }
        ensures elsewhere { self.old.stage ≢ stages.Copy
            → (result ≡ outcomes.No) × (self.new ≡ self.old) }
    {
        match self.stage {
            Stage::Copy => self.excuse(conn),
            _ => Passed::No,
        }
    }

    /// A connector departs (IXLDISC, or its failure): it is no member and owes nothing more. In
    /// stage COPY every member that is left owes its COMPLETE again. Where none is left the rebuild
    /// ends.
    pub fn depart(&mut self, conn: ConnId) -> Passed
        requires { IsCaller conn }
        ensures passed { result ≡ outcome_of (rebuild_without conn self.old) }
        ensures state { self.new ≡ next_rebuild (rebuild_without conn self.old) }
    {
        self.members = self.members.without(conn);
        self.owing = match self.stage {
            Stage::Copy => self.members,
            _ => self.owing.without(conn),
        };
        self.settle()
    }

    /// Every member owes what the stage waits for again, as after an IXLFORCE of a connection in
    /// stage COPY.
    pub fn owe_again(&mut self)
        ensures { self.new ≡ with_all_owing self.old }
    {
        self.owing = self.members;
    }

    /// The rebuild is stopped (IXLREBLD STOP): its new instance is given up, and the members owe a
    /// response to STOP.
    pub fn stop(&mut self)
        ensures { self.new ≡ rebuild_in stages.Stopping self.old }
    {
        self.enter(Stage::Stopping);
    }

    // The event to which the stage waits for responses.
    fn awaited_event(&self) -> Option<Event>
        ensures { result ≡ awaited_event self.now }
    {
        let number = self.number;
        match self.stage {
            Stage::Quiesce => Some(Event::Quiesce { number }),
            Stage::Connect | Stage::Copy => None,
            Stage::Cleanup => Some(Event::Cleanup { number }),
            Stage::Stopping => Some(Event::Stop { number }),
        }
    }

    // A connector owes nothing more.
    fn excuse(&mut self, conn: ConnId) -> Passed
        requires { IsCaller conn }
        ensures passed { result ≡ outcome_of (without_owing conn self.old) }
        ensures state { self.new ≡ next_rebuild (without_owing conn self.old) }
    {
        self.owing = self.owing.without(conn);
        self.settle()
    }

    // The stage passes where nobody owes anything, and the rebuild ends where no member is left.
    fn settle(&mut self) -> Passed
        ensures passed { result ≡ outcome_of self.old }
        ensures state { self.new ≡ next_rebuild self.old }
    {
        let now = self.passed();
        if let Passed::Into(stage) = now {
            self.enter(stage);
        }
        now
    }

    // Whether the stage has passed.
    fn passed(&self) -> Passed
        ensures { result ≡ outcome_of self.now }
    {
        if self.members.len() == 0 {
            return Passed::Ended;
        }
        if self.owing.len() > 0 {
            return Passed::No;
        }
        match self.stage {
            Stage::Quiesce => Passed::Into(Stage::Connect),
            Stage::Connect => Passed::Into(Stage::Copy),
            Stage::Copy => Passed::Into(Stage::Cleanup),
            Stage::Cleanup | Stage::Stopping => Passed::Ended,
        }
    }

    // A stage begins, in which each member owes.
    fn enter(&mut self, stage: Stage)
        ensures { self.new ≡ rebuild_in stage self.old }
    {
        self.stage = stage;
        self.owing = self.members;
        self.fresh = match stage {
            Stage::Connect | Stage::Copy => self.fresh,
            Stage::Quiesce | Stage::Cleanup | Stage::Stopping => None,
        };
    }
}
