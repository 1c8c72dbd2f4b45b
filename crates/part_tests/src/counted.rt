use crate::tokens::{Share, Token, shared};
use engine_api::types::{Caps, ConnId, Effects, NoMemory, Refusal, StrForm};
use engine_api::{Engine, Shape};
use std::alloc::Global;
use std::marker::Model;

/// The numbers of an engine as contracts see them.
#[derive(Drop)]
pub struct Numbers {}

impl Model for Numbers {
    ghost use Rattle.std.specs.Prelude.{ℕ, List, []};

    ghost Value = { List ℕ };

    ghost view = { λ _. [] };
}

/// A content of numbers. An engine takes the share of the first token that it is given, and its
/// copies take it too.
pub struct Counted {
    shape: Shape,
    caps: Caps,
    numbers: Vec<u32>,
    share: Option<Share>,
}

impl Model for Counted {
    ghost use Rattle.std.specs.Prelude.{◌<◌};
    ghost use Rattle.std.specs.Vec.{vec_len};
    ghost use Rattle.part_tests.specs.CountedView.{CountedView, counted_view};

    ghost Value = { CountedView };

    ghost view = { counted_view };

    ghost invariant = { λ e. vec_len e.numbers < 4294967296 };
}

impl Drop for Counted {
    fn drop(self) {
        let Counted {
            shape: _,
            caps: _,
            numbers: _,
            share: _,
        } = self;
    }
}

impl Counted {
    // Takes a share, unless it has one.
    fn take(&mut self, share: &Option<Share>) -> Result<(), NoMemory>
        ensures { self.new ≡ self.old }
    {
        if self.share.is_none() {
            self.share = shared(share)?;
        }
        Ok(())
    }

    // Takes room for one number more.
    fn room(&mut self) -> Result<(), NoMemory>
        ensures held { self.new.held ≡ self.old.held }
        ensures room { OnOk result (1 ≤ self.new.room) }
        ensures few { OnOk result (length self.new.held.state < 4294967295) }
    {
        if self.numbers.len() >= u32::MAX as usize {
            return Err(NoMemory::beyond_counts());
        }
        self.numbers.reserve(1)?;
        Ok(())
    }

    // Takes a share, unless it has one, and room for one number more.
    fn ready_for(&mut self, share: &Option<Share>) -> Result<(), NoMemory>
        ensures held { self.new.held ≡ self.old.held }
        ensures room { OnOk result (1 ≤ self.new.room) }
        ensures few { OnOk result (length self.new.held.state < 4294967295) }
    {
        self.take(share)?;
        self.room()
    }

    // One number more, behind the others.
    fn push(&mut self, number: u32)
        requires room { 1 ≤ self.old.room }
        requires few { length self.old.held.state < 4294967295 }
        ensures { self.new.held ≡ record self.old.held {
          state = self.old.held.state ++ number ∷ [];
        } }
    {
        self.numbers.push_reserved(number);
    }
}

ghost use Rattle.std.specs.Prelude.{◌≡◌, ◌≤◌, ◌<◌, ◌++◌, ◌∷◌, [], OnOk, length};

impl Engine for Counted {
    ghost use Rattle.std.specs.Prelude.{refl};
    ghost use Rattle.engine_api.specs.CfTypes.Forms.{is_cache};
    ghost use Rattle.part_tests.specs.CountedView.{IsReady};
    ghost use Rattle.part_tests.specs.Counting.{counting};
    ghost use Rattle.part_tests.specs.CountingLaws.{made, front_unplaced, first_need, same_need};
    ghost use Rattle.engine_api.proofs.ReadyLaws.{room-cases};

    type Cmd = Token;

    type Reply = u32;

    type Item = Token;

    type Order = ();

    type State = Numbers;

    ghost meaning = { counting };

    ghost is_kind = { is_cache };

    ghost is_content = { λ shape caps numbers. Unit {0} };

    ghost held = { λ e. e.held };

    ghost is_order = { λ order held. Unit {0} };

    ghost is_ready = { IsReady };

    fn empty(alloc: Global, form: &StrForm, caps: Caps) -> Result<Self, NoMemory> {
        Ok(Counted {
            shape: Shape::of(form),
            caps,
            numbers: Vec::new(alloc),
            share: None,
        })
    }

    fn copy(&self, alloc: Global) -> Result<Self, NoMemory> {
        let numbers = Vec::from_slice(alloc, self.numbers.as_slice())?;
        let share = shared(&self.share)?;
        Ok(Counted {
            shape: self.shape,
            caps: self.caps,
            numbers,
            share,
        })
    }

    fn ready(&mut self, _by: ConnId, cmd: &Token, _out: &mut Effects) -> Result<(), NoMemory> {
        self.ready_for(&cmd.share)
    }

    fn apply(&mut self, _by: ConnId, cmd: &Token, _out: &mut Effects) -> Result<u32, Refusal> {
        self.push(cmd.number);
        Ok(cmd.number)
    }

    fn leave_ready(&mut self, _conn: ConnId, _out: &mut Effects) -> Result<(), NoMemory> {
        Ok(())
    }

    fn leave(&mut self, _conn: ConnId, _keep: bool, _out: &mut Effects) {}

    fn back(&mut self, _conn: ConnId) {}

    fn forget_ready(&mut self, _out: &mut Effects) -> Result<(), NoMemory> {
        Ok(())
    }

    fn forget(&mut self, _out: &mut Effects) {}

    fn count(&self) -> u32 {
        self.numbers.len() as u32
    }

    fn item(&self, _alloc: Global, k: u32) -> Result<Token, NoMemory> {
        Token::new(self.numbers[k as usize], &self.share)
    }

    fn order(&self, _alloc: Global) -> Result<(), NoMemory> {
        Ok(())
    }

    fn item_in(&self, _alloc: Global, _order: &(), k: u32) -> Result<Token, NoMemory> {
        Token::new(self.numbers[k as usize], &self.share)
    }

    fn place(&mut self, item: Token) -> Result<(), (Token, NoMemory)> {
        match self.ready_for(&item.share) {
            Ok(()) => {}
            Err(cause) => return Err((item, cause)),
        }
        self.push(item.number);
        Ok(())
    }

    fn unplace(&mut self) {
        let _ = self.numbers.pop();
    }

    fn need(&self) -> Caps {
        Caps {
            entries: self.numbers.len() as u32,
            elements: 0,
        }
    }

    fn capacity(&self) -> Caps {
        self.caps
    }

    fn stands(&self, _conn: ConnId, _index: u32) -> bool {
        false
    }

    ghost ready_more = { λ e. room-cases (IsReady e) (λ by cmd out other is bits mail. is)
        (λ conn out other is bits mail. is) (λ out other is bits mail. is) };

    ghost content_empty = { λ shape caps. tt };

    ghost clear_empty = { λ shape conn index. refl };

    ghost items_empty = { λ shape. refl };

    ghost content_done = { λ shape caps state by cmd kind is none. tt };

    ghost content_leave = { λ shape caps state conn keep is. tt };

    ghost content_back = { λ shape caps state conn is. tt };

    ghost bits_back = { λ content conn. refl };

    ghost made_again = { λ shape caps state is. made state };

    ghost items_front = { λ shape caps state front others is e. made front };

    ghost content_front = { λ shape caps other state front others kind is e fits. tt };

    ghost unplace_front = { λ shape caps state front item others is e. front_unplaced front item };

    ghost need_first = { first_need };

    ghost need_leave = { λ shape caps state conn keep kind is. same_need shape.kind state };
}
