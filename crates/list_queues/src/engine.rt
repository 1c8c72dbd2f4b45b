use crate::commands::{act, dequeue, monitor, reserve, turn_for, unmonitor};
use crate::queues::Queues;
use cf_types::{Caps, ConnId, Effects, NoMemory, QueueCmd, QueueReply, Refusal, StrForm};
use engine_api::Engine;
use list_core::{ListContent, ListEngine, ListItem, Turning};
use queue_model::{Beside, FirstItem, Queued, Sub};
use std::alloc::Global;
use std::marker::Model;

/// A list structure with event queues for sublists: the list engine, and beside its records who
/// monitors which sublist (IXLLIST MONITOR_SUBLIST) and which events wait (DEQ_EVENTQ). A connector
/// that monitors a sublist gets an event, behind those of its queue, when the sublist has records
/// and had none; the event goes when the sublist has none again.
pub struct QueueEngine {
    inner: ListEngine,
    queues: Queues,
    plan: Option<Turning>,
}

impl Model for QueueEngine {
    ghost use Rattle.list_queues.specs.EngineView.{QueueView, view_of};

    ghost Value = { QueueView };

    ghost view = { view_of };
}

impl Drop for QueueEngine {
    fn drop(self) {
        let QueueEngine {
            inner: _,
            queues: _,
            plan: _,
        } = self;
    }
}

impl Engine for QueueEngine {
    ghost use Rattle.std.specs.Prelude.{refl};
    ghost use Rattle.cf_types.specs.Forms.{is_list};
    ghost use Rattle.engine_api.proofs.ReadyLaws.{le-trans, room-cases, IsRoomLaw};
    ghost use Rattle.engine_api.specs.Meaning.Wish.{ForCmd};
    ghost use Rattle.list_queues.specs.EngineView.{held_of, IsReady};
    ghost use Rattle.queue_model.specs.ListQueues.{queued_lists, IsQueuedContent};
    ghost use Rattle.queue_model.proofs.EngineLaws.{queued-nothing, queued-done, queued-leave, queued-back, queued-items-nothing, queued-need-first, queued-need-leave, queue-cases};
    ghost use Rattle.queue_model.proofs.ItemLaws.{queued-lists-fronts};

    type Cmd = QueueCmd;

    type Reply = QueueReply;

    type Item = FirstItem<Queued, ListItem>;

    type Order = ();

    type State = Beside<ListContent, Queued>;

    ghost meaning = { queued_lists };

    ghost is_kind = { is_list };

    ghost is_content = { IsQueuedContent };

    ghost held = { held_of };

    ghost is_order = { λ order held. Unit {0} };

    ghost is_ready = { IsReady };

    fn empty(alloc: Global, form: &StrForm, caps: Caps) -> Result<Self, NoMemory> {
        let inner = ListEngine::empty(alloc, form, caps)?;
        Ok(QueueEngine {
            inner,
            queues: Queues::new(alloc),
            plan: None,
        })
    }

    fn copy(&self, alloc: Global) -> Result<Self, NoMemory> {
        let inner = self.inner.copy(alloc)?;
        let queues = self.queues.copy(alloc)?;
        Ok(QueueEngine {
            inner,
            queues,
            plan: None,
        })
    }

    fn ready(&mut self, by: ConnId, cmd: &QueueCmd, out: &mut Effects) -> Result<(), NoMemory> {
        match cmd {
            QueueCmd::List(cmd) => {
                self.inner.ready(by, cmd, out)?;
                let turn = turn_for(&self.inner, &self.queues, cmd);
                reserve(&mut self.queues, &turn)?;
                self.plan = Some(turn);
                Ok(())
            }
            QueueCmd::MonSub { .. } => self.queues.reserve_one(),
            QueueCmd::UnmonSub { .. } => Ok(()),
            QueueCmd::Deq => Ok(()),
        }
    }

    fn apply(
        &mut self,
        by: ConnId,
        cmd: &QueueCmd,
        out: &mut Effects,
    ) -> Result<QueueReply, Refusal> {
        match cmd {
            QueueCmd::List(cmd) => match self.plan.take() {
                Some(turn) => act(&mut self.inner, &mut self.queues, turn, by, cmd, out),
                None => unreachable!(),
            },
            QueueCmd::MonSub { header, key } => {
                let sub = Sub {
                    conn: by,
                    header: *header,
                    key: *key,
                };
                monitor(&self.inner, &mut self.queues, sub)
            }
            QueueCmd::UnmonSub { header, key } => {
                let sub = Sub {
                    conn: by,
                    header: *header,
                    key: *key,
                };
                unmonitor(&self.inner, &mut self.queues, sub)
            }
            QueueCmd::Deq => dequeue(&self.inner, &mut self.queues, by),
        }
    }

    fn leave_ready(&mut self, conn: ConnId, out: &mut Effects) -> Result<(), NoMemory> {
        self.inner.leave_ready(conn, out)
    }

    fn leave(&mut self, conn: ConnId, keep: bool, out: &mut Effects) {
        self.inner.leave(conn, keep, out);
        self.queues.leave(conn);
    }

    fn back(&mut self, conn: ConnId) {
        self.inner.back(conn);
    }

    fn forget_ready(&mut self, out: &mut Effects) -> Result<(), NoMemory> {
        self.inner.forget_ready(out)
    }

    fn forget(&mut self, out: &mut Effects) {
        self.inner.forget(out);
    }

    fn count(&self) -> u32 {
        self.inner.content_is();
        let count = self.inner.count();
        if self.queues.is_unmonitored() {
            count
        } else {
            1 + count
        }
    }

    fn item(&self, alloc: Global, k: u32) -> Result<Self::Item, NoMemory> {
        if self.queues.is_unmonitored() {
            let item = self.inner.item(alloc, k)?;
            return Ok(FirstItem::Inner(item));
        }
        if k == 0 {
            let queued = self.queues.listed(alloc)?;
            return Ok(FirstItem::More(queued));
        }
        let item = self.inner.item(alloc, k - 1)?;
        Ok(FirstItem::Inner(item))
    }

    fn order(&self, _alloc: Global) -> Result<(), NoMemory> {
        Ok(())
    }

    fn item_in(&self, alloc: Global, _order: &(), k: u32) -> Result<Self::Item, NoMemory> {
        self.item(alloc, k)
    }

    fn place(&mut self, item: Self::Item) -> Result<(), (Self::Item, NoMemory)> {
        match item {
            FirstItem::More(queued) => {
                self.queues.restore(queued);
                Ok(())
            }
            FirstItem::Inner(item) => match self.inner.place(item) {
                Ok(()) => Ok(()),
                Err((item, refused)) => Err((FirstItem::Inner(item), refused)),
            },
        }
    }

    fn unplace(&mut self) {
        if self.inner.count() == 0 {
            self.queues.clear();
        } else {
            self.inner.unplace();
        }
    }

    fn need(&self) -> Caps {
        self.inner.need()
    }

    fn capacity(&self) -> Caps {
        self.inner.capacity()
    }

    fn stands(&self, conn: ConnId, index: u32) -> bool {
        self.inner.stands(conn, index)
    }

    ghost ready_more = { λ e. room-cases (IsReady e)
        (λ by. queue-cases (λ cmd. IsRoomLaw (IsReady e (ForCmd by cmd)))
        (λ cmd out other is bits mail. record {
          inner = record {
            planned = is.inner.planned;
            room = record {
              records = is.inner.room.records;
              names = is.inner.room.names;
              monitors = is.inner.room.monitors;
              bits = le-trans is.inner.room.bits bits;
              ids = is.inner.room.ids;
            };
          };
          planned = is.planned;
          room = is.room;
        })
        (λ header key out other is bits mail. is) (λ header key out other is bits mail. is)
        (λ out other is bits mail. is))
        (λ conn out other is bits mail. le-trans is bits) (λ out other is bits mail. is) };

    ghost content_empty = { queued-nothing };

    ghost clear_empty = { λ shape conn index. refl };

    ghost items_empty = { queued-items-nothing };

    ghost content_done = { λ shape caps content by cmd kind is none. queued-done shape caps content
        by cmd is none };

    ghost content_leave = { queued-leave };

    ghost content_back = { queued-back };

    ghost bits_back = { λ content conn. refl };

    ghost made_again = { queued-lists-fronts.made_again };

    ghost items_front = { queued-lists-fronts.items_front };

    ghost content_front = { queued-lists-fronts.content_front };

    ghost unplace_front = { queued-lists-fronts.unplace_front };

    ghost need_first = { queued-need-first };

    ghost need_leave = { λ shape caps content conn keep kind is. queued-need-leave shape content
        conn keep };
}
