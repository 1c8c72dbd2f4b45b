ghost use Rattle.std.specs.Prelude.{◌≡◌, ◌<◌, Some, length, slice_get};

use crate::plans::{Plan, act, make_plan};
use cache_model::CacheItem;
use cache_model::registrations::Regs;
use cache_rows::Rows;
use cf_types::{CacheCmd, CacheReply, Caps, ConnId, Effects, Name16, NoMemory, Refusal, StrForm};
use engine_api::{Engine, SetCaps, Shape};
use std::alloc::Global;
use std::marker::Model;

/// The content of a cache structure as contracts see it.
#[derive(Drop)]
pub struct CacheContent {}

impl Model for CacheContent {
    ghost use Rattle.cache_model.specs.Contents.{Content, no_content};

    ghost Value = { Content };

    ghost view = { λ _. no_content };
}

/// The names of all rows in their order. By it a copy finds each row as fast as a look-up does.
#[derive(Drop)]
pub struct RowOrder {
    names: Vec<Name16>,
}

// The name at a place (from 0).
fn name_at(names: &[Name16], k: u32) -> Name16
    requires { k < length names.now }
    ensures { slice_get names.now k ≡ Some result }
{
    names[k as usize]
}

/// A cache structure (IXLCACHE): its rows, and its registrations.
pub struct CacheEngine {
    alloc: Global,
    shape: Shape,
    base: Caps,
    caps: Caps,
    rows: Rows,
    regs: Regs,
    plan: Option<Plan>,
}

impl Model for CacheEngine {
    ghost use Rattle.cache_core.specs.EngineView.{EngineView, view_of, IsKept};

    ghost Value = { EngineView };

    ghost view = { view_of };

    ghost invariant = { IsKept };
}

impl Drop for CacheEngine {
    fn drop(self) {
        let CacheEngine {
            alloc: _,
            shape: _,
            base: _,
            caps: _,
            rows: _,
            regs: _,
            plan: _,
        } = self;
    }
}

impl Engine for CacheEngine {
    ghost use Rattle.std.specs.Prelude.{◌≡◌, refl, map};
    ghost use Rattle.cf_types.specs.Forms.{is_cache};
    ghost use Rattle.cache_model.specs.declared.items.CacheItem.{CacheItem};
    ghost use Rattle.cache_core.specs.EngineView.{IsReady};
    ghost use Rattle.cache_model.specs.Contents.{IsContent};
    ghost use Rattle.cache_model.specs.Meaning.{cache_meaning};
    ghost use Rattle.cache_model.proofs.ContentLaws.{content-done};
    ghost use Rattle.cache_model.proofs.EngineLaws.{content-nothing, leave-content, cache-fronts, need-front, need-leave};
    ghost use Rattle.engine_api.proofs.ReadyLaws.{le-trans, room-cases};

    type Cmd = CacheCmd;

    type Reply = CacheReply;

    type Item = CacheItem;

    type Order = RowOrder;

    type State = CacheContent;

    ghost meaning = { cache_meaning };

    ghost is_kind = { is_cache };

    ghost is_content = { λ shape caps content. IsContent caps content };

    ghost held = { λ e. e.held };

    ghost is_order = { λ order held. order.names.items
        ≡ map (λ (row : CacheItem). row.name) held.state.rows };

    ghost is_ready = { IsReady };

    fn empty(alloc: Global, form: &StrForm, caps: Caps) -> Result<Self, NoMemory> {
        // Entries and elements may be exchanged for each other, so there is room for as many of
        // each as there are together; and for one row more, since room for a command's row is taken
        // before other rows go.
        let units = caps.entries + caps.elements;
        let rows = Rows::new(alloc, units + 1, units)?;
        let regs = Regs::new(alloc, form.conns, form.vector)?;
        Ok(CacheEngine {
            alloc,
            shape: Shape::of(form),
            base: caps,
            caps,
            rows,
            regs,
            plan: None,
        })
    }

    fn copy(&self, alloc: Global) -> Result<Self, NoMemory> {
        let rows = self.rows.copy(alloc)?;
        let regs = self.regs.copy(alloc)?;
        Ok(CacheEngine {
            alloc,
            shape: self.shape,
            base: self.base,
            caps: self.caps,
            rows,
            regs,
            plan: None,
        })
    }

    fn ready(&mut self, by: ConnId, cmd: &CacheCmd, out: &mut Effects) -> Result<(), NoMemory> {
        let plan = make_plan(
            self.alloc,
            self.shape.vector,
            self.caps,
            &self.rows,
            &self.regs,
            by,
            cmd,
        )?;
        self.rows.reserve()?;
        self.regs.room(out)?;
        self.plan = Some(plan);
        Ok(())
    }

    fn apply(
        &mut self,
        by: ConnId,
        cmd: &CacheCmd,
        out: &mut Effects,
    ) -> Result<CacheReply, Refusal> {
        match self.plan.take() {
            Some(plan) => {
                let Plan { reply, gone } = plan;
                match reply {
                    Ok(reply) => {
                        act(&mut self.rows, &mut self.regs, gone.items(), by, cmd, out);
                        Ok(reply)
                    }
                    Err(refusal) => Err(refusal),
                }
            }
            None => unreachable!(),
        }
    }

    fn leave_ready(&mut self, _conn: ConnId, out: &mut Effects) -> Result<(), NoMemory> {
        out.bits.reserve(self.regs.total())
    }

    fn leave(&mut self, conn: ConnId, _keep: bool, out: &mut Effects) {
        self.rows.release(conn);
        self.regs.drop_conn(conn, out);
    }

    fn back(&mut self, _conn: ConnId) {}

    fn forget_ready(&mut self, out: &mut Effects) -> Result<(), NoMemory> {
        out.bits.reserve(self.regs.total())
    }

    fn forget(&mut self, out: &mut Effects) {
        self.regs.drop_all(out);
    }

    fn count(&self) -> u32 {
        self.rows.len() as u32
    }

    fn item(&self, alloc: Global, k: u32) -> Result<CacheItem, NoMemory> {
        self.rows.item(alloc, k)
    }

    fn order(&self, alloc: Global) -> Result<RowOrder, NoMemory> {
        let names = self.rows.names(alloc)?;
        Ok(RowOrder { names })
    }

    fn item_in(&self, alloc: Global, order: &RowOrder, k: u32) -> Result<CacheItem, NoMemory> {
        let name = name_at(order.names.as_slice(), k);
        self.rows.copy_of(alloc, &name)
    }

    fn place(&mut self, item: CacheItem) -> Result<(), (CacheItem, NoMemory)> {
        self.rows.push(item)
    }

    fn unplace(&mut self) {
        self.rows.pop();
    }

    fn need(&self) -> Caps {
        Caps {
            entries: self.rows.len() as u32,
            elements: self.rows.elements(),
        }
    }

    fn capacity(&self) -> Caps {
        self.caps
    }

    fn stands(&self, conn: ConnId, index: u32) -> bool {
        self.regs.stands(conn, index)
    }

    ghost ready_more = { λ e. room-cases (IsReady e)
        (λ by cmd out other is bits mail. record {
          planned = is.planned;
          row = is.row;
          reg = is.reg;
          bits = le-trans is.bits bits;
        })
        (λ conn out other is bits mail. le-trans is bits)
        (λ out other is bits mail. le-trans is bits) };

    ghost content_empty = { λ shape caps. content-nothing caps };

    ghost clear_empty = { λ shape conn index. refl };

    ghost items_empty = { λ shape. refl };

    ghost content_done = { λ shape caps content by cmd kind is none. content-done shape.vector caps
        content by cmd is none };

    ghost content_leave = { λ shape caps content conn keep. leave-content caps content conn };

    ghost content_back = { λ shape caps content conn is. is };

    ghost bits_back = { λ content conn. refl };

    ghost made_again = { cache-fronts.made_again };

    ghost items_front = { cache-fronts.items_front };

    ghost content_front = { cache-fronts.content_front };

    ghost unplace_front = { cache-fronts.unplace_front };

    ghost need_first = { need-front };

    ghost need_leave = { λ shape caps content conn keep kind is. need-leave shape.kind content
        conn };
}

impl SetCaps for CacheEngine {
    ghost use Rattle.cache_model.proofs.EngineLaws.{content-at, content-fits};

    fn base(&self) -> Caps {
        self.base
    }

    fn set_caps(&mut self, caps: Caps) {
        self.caps = caps;
    }

    ghost content_fits = { content-fits };

    ghost content_at = { content-at };
}
