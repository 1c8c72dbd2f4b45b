use crate::limits::{caps_nearer, same, start_refusal, target_at, too_small};
use alter_model::AlterContent;
use cf_types::{AlterCmd, AlterReply, Caps, ConnId, Effects, Kind, NoMemory, Refusal, StrForm};
use engine_api::{Engine, SetCaps};
use std::alloc::Global;
use std::marker::Model;

/// A structure whose capacity is altered while it is in use (IXLALTER): START sets a target, and
/// each STEP brings the limits nearer to it, as long as what there is fits.
pub struct Altered<E: SetCaps> {
    inner: E,
    kind: Kind,
    limits: Option<Caps>,
    target: Option<Caps>,
}

impl<E: SetCaps> Model for Altered<E> {
    ghost use Rattle.cf_alter.specs.AlteredView.{AlteredView, IsKept};

    ghost Value = { AlteredView E };

    ghost view = { λ a. record { inner = a.inner; limits = a.limits; target = a.target } };

    ghost invariant = { λ a. IsKept E.is_kind (E.held a.inner) a.kind a.limits a.target };
}

impl<E: SetCaps> Drop for Altered<E> {
    fn drop(self) {
        let Altered {
            inner: _,
            kind: _,
            limits: _,
            target: _,
        } = self;
    }
}

impl<E: SetCaps> Engine for Altered<E> {
    ghost use Rattle.cf_alter.specs.AlteredView.{held_of, inner_held, IsReady};
    ghost use Rattle.std.specs.Prelude.{◌++◌, ◌∷◌, []};
    ghost use Rattle.engine_api.proofs.ReadyLaws.{room-cases, IsRoomLaw};
    ghost use Rattle.engine_api.specs.Meaning.Wish.{ForCmd, ForLeave, ForForget};
    ghost use Rattle.alter_model.specs.Meaning.{alter_meaning, IsAltered, caps_or};
    ghost use Rattle.alter_model.proofs.AlterLaws.{inner-altered, altered-done, altered-front, altered-empty, made-again, items-unaltered, unplace-unaltered, alter-cases};

    type Cmd = AlterCmd<E::Cmd>;

    type Reply = AlterReply<E::Reply>;

    type Item = E::Item;

    type Order = E::Order;

    type State = AlterContent<E::State>;

    ghost meaning = { alter_meaning E.meaning };

    ghost is_kind = { E.is_kind };

    ghost is_content = { IsAltered E.is_content };

    ghost held = { λ e. held_of (E.held e.inner) e.limits e.target };

    ghost is_order = { λ order held. E.is_order order (inner_held held) };

    ghost is_ready = { IsReady E.is_ready };

    fn empty(alloc: Global, form: &StrForm, caps: Caps) -> Result<Self, NoMemory> {
        let inner = E::empty(alloc, form, caps)?;
        Ok(Altered {
            inner,
            kind: form.kind,
            limits: None,
            target: None,
        })
    }

    fn copy(&self, alloc: Global) -> Result<Self, NoMemory> {
        let inner = self.inner.copy(alloc)?;
        Ok(Altered {
            inner,
            kind: self.kind,
            limits: self.limits,
            target: self.target,
        })
    }

    fn ready(&mut self, by: ConnId, cmd: &Self::Cmd, out: &mut Effects) -> Result<(), NoMemory> {
        match cmd {
            AlterCmd::Inner(cmd) => self.inner.ready(by, cmd, out),
            AlterCmd::Start { .. } => Ok(()),
            AlterCmd::Step { .. } => Ok(()),
            AlterCmd::Stop => Ok(()),
        }
    }

    fn apply(
        &mut self,
        by: ConnId,
        cmd: &Self::Cmd,
        out: &mut Effects,
    ) -> Result<Self::Reply, Refusal> {
        match cmd {
            AlterCmd::Inner(cmd) => match self.inner.apply(by, cmd, out) {
                Ok(reply) => Ok(AlterReply::Inner(reply)),
                Err(refusal) => Err(refusal),
            },
            AlterCmd::Start { caps } => {
                let base = self.inner.base();
                let need = self.inner.need();
                match start_refusal(&self.kind, need, base, *caps) {
                    Some(refusal) => Err(refusal),
                    None => {
                        self.target = Some(*caps);
                        Ok(AlterReply::Ok)
                    }
                }
            }
            AlterCmd::Step { n } => match self.target {
                None => Err(Refusal::NoAlter),
                Some(target) => {
                    let limits = caps_nearer(*n, self.inner.capacity(), target);
                    let need = self.inner.need();
                    match too_small(&self.kind, need, limits) {
                        Some(refusal) => Err(refusal),
                        None => {
                            let done = same(limits, target);
                            self.target = target_at(limits, target);
                            self.limits = Some(limits);
                            self.inner.set_caps(limits);
                            Ok(AlterReply::Altered { caps: limits, done })
                        }
                    }
                }
            },
            AlterCmd::Stop => match self.target {
                None => Err(Refusal::NoAlter),
                Some(_target) => {
                    self.target = None;
                    Ok(AlterReply::Ok)
                }
            },
        }
    }

    fn leave_ready(&mut self, conn: ConnId, out: &mut Effects) -> Result<(), NoMemory> {
        self.inner.leave_ready(conn, out)
    }

    fn leave(&mut self, conn: ConnId, keep: bool, out: &mut Effects) {
        self.inner.leave(conn, keep, out);
    }

    fn back(&mut self, conn: ConnId) {
        self.inner.back(conn);
    }

    fn forget_ready(&mut self, out: &mut Effects) -> Result<(), NoMemory> {
        self.inner.forget_ready(out)
    }

    fn forget(&mut self, out: &mut Effects) {
        self.inner.forget(out);
        self.limits = None;
        self.target = None;
        let base = self.inner.base();
        self.inner.set_caps(base);
    }

    fn count(&self) -> u32 {
        self.inner.count()
    }

    fn item(&self, alloc: Global, k: u32) -> Result<Self::Item, NoMemory> {
        self.inner.item(alloc, k)
    }

    #[tactic(auto, using(crate::proofs::OrderLaws::inner_is))]
    fn order(&self, alloc: Global) -> Result<Self::Order, NoMemory> {
        self.inner.order(alloc)
    }

    #[tactic(auto, using(crate::proofs::OrderLaws::inner_is))]
    fn item_in(&self, alloc: Global, order: &Self::Order, k: u32) -> Result<Self::Item, NoMemory> {
        self.inner.item_in(alloc, order, k)
    }

    fn place(&mut self, item: Self::Item) -> Result<(), (Self::Item, NoMemory)> {
        self.inner.place(item)
    }

    fn unplace(&mut self) {
        self.inner.unplace();
    }

    fn need(&self) -> Caps {
        self.inner.need()
    }

    fn capacity(&self) -> Caps {
        self.inner.base()
    }

    fn stands(&self, conn: ConnId, index: u32) -> bool {
        self.inner.stands(conn, index)
    }

    ghost ready_more = { λ e. room-cases (IsReady E.is_ready e)
        (λ by. alter-cases (λ cmd. IsRoomLaw (IsReady E.is_ready e (ForCmd by cmd)))
        (λ cmd. E.ready_more e.inner (ForCmd by cmd)) (λ target out other is bits mail. is)
        (λ n out other is bits mail. is) (λ out other is bits mail. is))
        (λ conn. E.ready_more e.inner (ForLeave conn)) (E.ready_more e.inner ForForget) };

    ghost content_empty = { λ shape caps. altered-empty E.meaning E.is_kind E.is_content shape caps
        _ (E.content_empty shape caps) };

    ghost clear_empty = { E.clear_empty };

    ghost items_empty = { E.items_empty };

    ghost content_done = { altered-done E.meaning E.is_kind E.is_content E.content_done
        E.content_at };

    ghost content_leave = { λ shape caps content conn keep is. inner-altered E.meaning E.is_kind
        E.is_content shape caps content _ is (E.content_leave shape (caps_or content.limits caps)
        content.inner conn keep is.inner) };

    ghost content_back = { λ shape caps content conn is. inner-altered E.meaning E.is_kind
        E.is_content shape caps content _ is (E.content_back shape (caps_or content.limits caps)
        content.inner conn is.inner) };

    ghost bits_back = { λ content conn. E.bits_back content.inner conn };

    ghost made_again = { λ shape caps content is. made-again E.meaning E.is_kind E.is_content shape
        content (E.made_again shape (caps_or content.limits caps) content.inner is.inner) };

    ghost items_front = { λ shape caps content front others is split. items-unaltered E.meaning
        E.is_kind E.is_content shape front (E.items_front shape (caps_or content.limits caps)
        content.inner front others is.inner split) };

    ghost content_front = { λ shape caps other content front others kind is split fits.
        altered-front E.meaning E.is_kind E.is_content shape other front (E.content_front shape
        (caps_or content.limits caps) other content.inner front others kind is.inner split fits) };

    ghost unplace_front = { λ shape caps content front item others is split. unplace-unaltered
        E.meaning E.is_kind E.is_content shape front (front ++ item ∷ []) (E.unplace_front shape
        (caps_or content.limits caps) content.inner front item others is.inner split) };

    ghost need_first = { E.need_first };

    ghost need_leave = { λ shape caps content conn keep kind is. E.need_leave shape
        (caps_or content.limits caps) content.inner conn keep kind is.inner };
}
