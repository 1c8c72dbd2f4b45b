ghost use Rattle.std.specs.Prelude.{◌≡◌, option_map};
ghost use Rattle.lock_model.specs.Interests.{interest_of};
ghost use Rattle.lock_queue.specs.Waiters.{waiter_of};

use crate::departures::{awaited_of, depart};
use crate::letters::{most_left, most_letters};
use crate::locks::{ItemOrder, Locks};
use crate::plans::{Plan, act, make_plan};
use cf_types::{
    Caps, ConnId, Effects, Listing, LockCmd, LockReply, NoMemory, Refusal, Resource, StrForm,
};
use engine_api::{Engine, Shape};
use lock_model::LockItem;
use lock_model::tables::Held;
use lock_queue::Waiter;
use std::alloc::Global;
use std::marker::Model;

/// The content of a lock structure as contracts see it.
#[derive(Drop)]
pub struct LockContent {}

impl Model for LockContent {
    ghost use Rattle.lock_model.specs.Contents.{Content, no_content};

    ghost Value = { Content };

    ghost view = { λ _. no_content };
}

/// A lock structure (IXLLOCK, IXLRT): its interests with their record data, and its waiters.
pub struct LockEngine {
    alloc: Global,
    shape: Shape,
    caps: Caps,
    locks: Locks,
    plan: Option<Plan>,
    leaving: Option<Listing<Resource>>,
}

impl Model for LockEngine {
    ghost use Rattle.lock_core.specs.EngineView.{EngineView, view_of, IsKept};

    ghost Value = { EngineView };

    ghost view = { view_of };

    ghost invariant = { IsKept };
}

impl Drop for LockEngine {
    fn drop(self) {
        let LockEngine {
            alloc: _,
            shape: _,
            caps: _,
            locks: _,
            plan: _,
            leaving: _,
        } = self;
    }
}

impl LockEngine {
    /// A connector's interest in a resource, without its record data. None where the connector has
    /// no interest in it.
    pub fn held_of(&self, r: &Resource, conn: ConnId) -> Option<&Held>
        ensures { option_map (λ held. held.now) result ≡ option_map (λ interest. interest.held)
            (interest_of r.now conn self.now.held.state.interests) }
    {
        self.locks.interests.held_of(r, conn)
    }

    /// What a connector waits for at a resource.
    pub fn waiter_of(&self, r: &Resource, conn: ConnId) -> Option<&Waiter>
        ensures { option_map (λ waiter. waiter.now) result
            ≡ waiter_of r.now conn self.now.held.state.waiters }
    {
        self.locks.queue.find(r, conn)
    }
}

impl Engine for LockEngine {
    ghost use Rattle.std.specs.Prelude.{◌≡◌, refl};
    ghost use Rattle.lock_core.specs.Orders.{order_of};
    ghost use Rattle.cf_types.specs.Forms.{is_lock};
    ghost use Rattle.lock_core.specs.EngineView.{IsReady};
    ghost use Rattle.lock_model.specs.Contents.{IsContent};
    ghost use Rattle.lock_model.specs.Meaning.{lock_meaning};
    ghost use Rattle.lock_model.proofs.CommandLaws.{content-done};
    ghost use Rattle.lock_model.proofs.ItemLaws.{lock-fronts};
    ghost use Rattle.lock_model.proofs.EngineLaws.{content-nothing, leave-content, back-content, need-front, need-leave};
    ghost use Rattle.engine_api.proofs.ReadyLaws.{le-trans, room-cases};

    type Cmd = LockCmd;

    type Reply = LockReply;

    type Item = LockItem;

    type Order = ItemOrder;

    type State = LockContent;

    ghost meaning = { lock_meaning };

    ghost is_kind = { is_lock };

    ghost is_content = { λ shape caps content. IsContent caps content };

    ghost held = { λ e. e.held };

    ghost is_order = { λ order held. order ≡ order_of held.state };

    ghost is_ready = { IsReady };

    fn empty(alloc: Global, form: &StrForm, caps: Caps) -> Result<Self, NoMemory> {
        let locks = Locks::new(alloc, caps.entries, caps.elements)?;
        Ok(LockEngine {
            alloc,
            shape: Shape::of(form),
            caps,
            locks,
            plan: None,
            leaving: None,
        })
    }

    fn copy(&self, alloc: Global) -> Result<Self, NoMemory> {
        let locks = self.locks.copy(alloc)?;
        Ok(LockEngine {
            alloc,
            shape: self.shape,
            caps: self.caps,
            locks,
            plan: None,
            leaving: None,
        })
    }

    fn ready(&mut self, by: ConnId, cmd: &LockCmd, out: &mut Effects) -> Result<(), NoMemory> {
        let plan = make_plan(self.alloc, self.caps, &self.locks, by, cmd)?;
        let letters = most_letters(&self.locks, cmd);
        self.locks.reserve(letters, out)?;
        self.plan = Some(plan);
        Ok(())
    }

    #[tactic(auto, using(crate::proofs::EngineLaws::done_told))]
    fn apply(
        &mut self,
        by: ConnId,
        cmd: &LockCmd,
        out: &mut Effects,
    ) -> Result<LockReply, Refusal> {
        match self.plan.take() {
            Some(plan) => {
                let Plan { refusal, records } = plan;
                match refusal {
                    Some(refusal) => Err(refusal),
                    None => Ok(act(&mut self.locks, records, by, cmd, out)),
                }
            }
            None => unreachable!(),
        }
    }

    fn leave_ready(&mut self, conn: ConnId, out: &mut Effects) -> Result<(), NoMemory> {
        let resources = awaited_of(self.alloc, &self.locks, conn)?;
        let letters = most_left(&self.locks, &resources);
        self.locks.reserve(letters, out)?;
        self.leaving = Some(Listing::from_vec(resources));
        Ok(())
    }

    fn leave(&mut self, conn: ConnId, keep: bool, out: &mut Effects) {
        match self.leaving.take() {
            Some(resources) => depart(&mut self.locks, resources.items(), conn, keep, out),
            None => unreachable!(),
        }
    }

    fn back(&mut self, conn: ConnId) {
        self.locks.back(conn);
    }

    fn forget_ready(&mut self, _out: &mut Effects) -> Result<(), NoMemory> {
        Ok(())
    }

    fn forget(&mut self, _out: &mut Effects) {}

    fn count(&self) -> u32 {
        self.locks.count()
    }

    fn item(&self, _alloc: Global, k: u32) -> Result<LockItem, NoMemory> {
        match self.locks.item(k) {
            Some(item) => Ok(item),
            None => unreachable!(),
        }
    }

    fn order(&self, alloc: Global) -> Result<ItemOrder, NoMemory> {
        self.locks.order(alloc)
    }

    fn item_in(&self, _alloc: Global, order: &ItemOrder, k: u32) -> Result<LockItem, NoMemory> {
        match self.locks.item_in(order, k) {
            Some(item) => Ok(item),
            None => unreachable!(),
        }
    }

    fn place(&mut self, item: LockItem) -> Result<(), (LockItem, NoMemory)> {
        self.locks.place(item)
    }

    fn unplace(&mut self) {
        self.locks.unplace();
    }

    fn need(&self) -> Caps {
        self.locks.need()
    }

    fn capacity(&self) -> Caps {
        self.caps
    }

    fn stands(&self, _conn: ConnId, _index: u32) -> bool {
        false
    }

    ghost ready_more = { λ e. room-cases (IsReady e)
        (λ by cmd out other is bits mail. record {
          planned = is.planned;
          room = is.room;
          waiter = is.waiter;
          letters = le-trans is.letters mail;
          counted = is.counted;
        })
        (λ conn out other is bits mail. record {
          planned = is.planned;
          room = is.room;
          letters = λ keep. le-trans (is.letters keep) mail;
        })
        (λ out other is bits mail. is) };

    ghost content_empty = { λ shape caps. content-nothing caps };

    ghost clear_empty = { λ shape conn index. refl };

    ghost items_empty = { λ shape. refl };

    ghost content_done = { λ shape caps content by cmd kind is none. content-done caps content by
        cmd is none };

    ghost content_leave = { λ shape caps content conn keep. leave-content shape caps content conn
        keep };

    ghost content_back = { λ shape caps content conn. back-content caps content conn };

    ghost bits_back = { λ content conn. refl };

    ghost made_again = { lock-fronts.made_again };

    ghost items_front = { lock-fronts.items_front };

    ghost content_front = { lock-fronts.content_front };

    ghost unplace_front = { lock-fronts.unplace_front };

    ghost need_first = { need-front };

    ghost need_leave = { λ shape caps content conn keep kind is. need-leave shape caps content conn
        keep kind is };
}
