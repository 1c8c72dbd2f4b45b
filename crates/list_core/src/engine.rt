ghost use Rattle.std.specs.Prelude.{◌≡◌};
ghost use Rattle.std.specs.Result.{result_err};
ghost use Rattle.cf_types.specs.Forms.{IsCapacity};
ghost use Rattle.list_model.specs.Contents.{IsContent};
ghost use Rattle.list_model.specs.Refusals.{sublist_refusal};
ghost use Rattle.list_model.specs.Sublists.{sublist, turning};

use crate::items::{copy_item, count_items, place_item};
use crate::plans::{Plan, act, make_plan};
use crate::refusals::sublist_refusal;
use crate::turning::turning;
use cf_types::{
    Caps, ConnId, Effects, EntryId, Key16, ListCmd, ListReply, NoMemory, Refusal, StrForm,
};
use engine_api::{Engine, Shape};
use list_kept::{Kept, count, elements_of_others, sublist};
use list_model::{ListItem, Turning};
use std::alloc::Global;
use std::marker::Model;

/// The content of a list structure as contracts see it.
#[derive(Drop)]
pub struct ListContent {}

impl Model for ListContent {
    ghost use Rattle.list_core.specs.EngineView.{no_content};
    ghost use Rattle.list_model.specs.Contents.{Content};

    ghost Value = { Content };

    ghost view = { λ _. no_content };
}

/// A list structure (IXLLIST): its records, limits, list locks and monitors.
pub struct ListEngine {
    alloc: Global,
    shape: Shape,
    caps: Caps,
    kept: Kept,
    plan: Option<Plan>,
}

impl Model for ListEngine {
    ghost use Rattle.list_core.specs.EngineView.{EngineView, view_of, IsKept};

    ghost Value = { EngineView };

    ghost view = { view_of };

    ghost invariant = { IsKept };
}

impl Drop for ListEngine {
    fn drop(self) {
        let ListEngine {
            alloc: _,
            shape: _,
            caps: _,
            kept: _,
            plan: _,
        } = self;
    }
}

impl ListEngine {
    /// How many records of a header (from 0) have a key. It takes no memory.
    pub fn sublist(&self, header: u32, key: &Key16) -> u32
        ensures { result ≡ sublist self.now.held.state.lists header key.now }
    {
        sublist(&self.kept, header, key)
    }

    /// Why a command on a sublist is refused: the structure has no such header (from 0), or its
    /// records have no keys.
    pub fn sublist_refusal(&self, header: u32, key: Key16) -> Result<(), Refusal>
        ensures { result_err result ≡ sublist_refusal self.now.held.shape header key }
    {
        sublist_refusal(self.shape.kind, header, key)
    }

    /// The sublists that a command may turn, where it isn't refused: no others have records behind
    /// it that had none, nor the other way round.
    pub fn turning(&self, cmd: &ListCmd) -> Turning
        ensures { result ≡ turning self.now.held.state cmd.now }
    {
        turning(&self.kept, cmd)
    }

    /// What it holds is a content.
    pub fn content_is(&self)
        ensures content { IsContent self.now.held.shape self.now.held.caps self.now.held.state }
        ensures caps { IsCapacity self.now.held.caps }
    {
        let _shape = self.shape;
    }
}

impl Engine for ListEngine {
    ghost use Rattle.std.specs.Prelude.{refl};
    ghost use Rattle.cf_types.specs.Forms.{is_list};
    ghost use Rattle.list_core.specs.EngineView.{IsReady};
    ghost use Rattle.list_model.specs.Contents.{IsContent};
    ghost use Rattle.list_model.specs.Meaning.{list_meaning};
    ghost use Rattle.list_model.proofs.ContentLaws.{content-done};
    ghost use Rattle.list_model.proofs.EngineLaws.{content-nothing, items-nothing, leave-content, list-fronts, need-front, need-leave};
    ghost use Rattle.engine_api.proofs.ReadyLaws.{le-trans, room-cases};

    type Cmd = ListCmd;

    type Reply = ListReply;

    type Item = ListItem;

    type Order = ();

    type State = ListContent;

    ghost meaning = { list_meaning };

    ghost is_kind = { is_list };

    ghost is_content = { IsContent };

    ghost held = { λ e. e.held };

    ghost is_order = { λ order held. Unit {0} };

    ghost is_ready = { IsReady };

    fn empty(alloc: Global, form: &StrForm, caps: Caps) -> Result<Self, NoMemory> {
        let shape = Shape::of(form);
        let kept = Kept::new(alloc, shape, caps.elements)?;
        Ok(ListEngine {
            alloc,
            shape,
            caps,
            kept,
            plan: None,
        })
    }

    fn copy(&self, alloc: Global) -> Result<Self, NoMemory> {
        let kept = self.kept.copy(alloc)?;
        Ok(ListEngine {
            alloc,
            shape: self.shape,
            caps: self.caps,
            kept,
            plan: None,
        })
    }

    fn ready(&mut self, by: ConnId, cmd: &ListCmd, out: &mut Effects) -> Result<(), NoMemory> {
        let plan = make_plan(self.alloc, self.shape, self.caps, &self.kept, by, cmd)?;
        self.kept.reserve(out)?;
        self.plan = Some(plan);
        Ok(())
    }

    #[tactic(auto, using(crate::proofs::PlanLaws::possible, crate::proofs::PlanLaws::done_told))]
    fn apply(
        &mut self,
        by: ConnId,
        cmd: &ListCmd,
        out: &mut Effects,
    ) -> Result<ListReply, Refusal> {
        match self.plan.take() {
            Some(plan) => {
                let Plan { reply } = plan;
                match reply {
                    Ok(reply) => {
                        act(&mut self.kept, by, cmd, out);
                        Ok(reply)
                    }
                    Err(refusal) => Err(refusal),
                }
            }
            None => unreachable!(),
        }
    }

    fn leave_ready(&mut self, _conn: ConnId, out: &mut Effects) -> Result<(), NoMemory> {
        out.bits.reserve(self.kept.monitors())
    }

    fn leave(&mut self, conn: ConnId, keep: bool, out: &mut Effects) {
        self.kept.leave(conn, keep, out);
    }

    fn back(&mut self, _conn: ConnId) {}

    fn forget_ready(&mut self, _out: &mut Effects) -> Result<(), NoMemory> {
        Ok(())
    }

    fn forget(&mut self, _out: &mut Effects) {}

    fn count(&self) -> u32 {
        count_items(self.shape, &self.kept)
    }

    fn item(&self, alloc: Global, k: u32) -> Result<ListItem, NoMemory> {
        copy_item(alloc, self.shape, &self.kept, k)
    }

    fn order(&self, _alloc: Global) -> Result<(), NoMemory> {
        Ok(())
    }

    fn item_in(&self, alloc: Global, _order: &(), k: u32) -> Result<ListItem, NoMemory> {
        self.item(alloc, k)
    }

    fn place(&mut self, item: ListItem) -> Result<(), (ListItem, NoMemory)> {
        place_item(self.alloc, &mut self.kept, item)
    }

    fn unplace(&mut self) {
        self.kept.pop(self.shape);
    }

    fn need(&self) -> Caps {
        Caps {
            entries: count(&self.kept),
            elements: elements_of_others(&self.kept, EntryId(self.kept.next())),
        }
    }

    fn capacity(&self) -> Caps {
        self.caps
    }

    fn stands(&self, conn: ConnId, index: u32) -> bool {
        self.kept.stands(conn, index)
    }

    ghost ready_more = { λ e. room-cases (IsReady e)
        (λ by cmd out other is bits mail. record {
          planned = is.planned;
          room = record {
            records = is.room.records;
            names = is.room.names;
            monitors = is.room.monitors;
            bits = le-trans is.room.bits bits;
            ids = is.room.ids;
          };
        })
        (λ conn out other is bits mail. le-trans is bits)
        (λ out other is bits mail. is) };

    ghost content_empty = { λ shape caps. content-nothing shape caps };

    ghost clear_empty = { λ shape conn index. refl };

    ghost items_empty = { items-nothing };

    ghost content_done = { λ shape caps content by cmd kind is none. content-done shape caps content
        by cmd is none };

    ghost content_leave = { leave-content };

    ghost content_back = { λ shape caps content conn is. is };

    ghost bits_back = { λ content conn. refl };

    ghost made_again = { list-fronts.made_again };

    ghost items_front = { list-fronts.items_front };

    ghost content_front = { list-fronts.content_front };

    ghost unplace_front = { list-fronts.unplace_front };

    ghost need_first = { need-front };

    ghost need_leave = { λ shape caps content conn keep kind is. need-leave shape content conn
        keep };
}
