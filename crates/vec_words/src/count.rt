//! The count of what was committed.
ghost use Rattle.std.specs.Prelude.{◌≡◌, ◌<◌, ◌≤◌, ◌++◌, [], ◌∷◌, map, max, All, true};
ghost use Rattle.vec_words.specs.declared.logged.Logged.TheVariants.{Committed};
ghost use Rattle.vec_words.specs.Logged.{count_of, calls_of, IsIssued, IsHonest, IsOrderly};
ghost use Rattle.vec_words.specs.Tokens.{IsBegun, IsShown, learned_pass};
ghost use Rattle.vec_words.specs.View.{without_log, with_log, committed_of, learned_of, Becomes};
ghost use Rattle.vec_words.specs.Rule.{Shows};

use crate::pass::Pass;
use crate::plays::{About, HandLog, Learn, Publish};
use crate::seat::EngineSeat;
use crate::vectors::Vectors;
use crate::view::View;
use atomic_table::Seat;
use std::marker::Brand;

impl<C, R> Vectors<(C, R)> {
    /// Commits as [`Vectors::commit`] does. The call's data are a command and its reply, which stay
    /// where they are.
    pub fn commit_call(
        &self,
        seat: &mut EngineSeat<(C, R)>,
        pass: &mut Pass<(C, R)>,
        cmd: &C,
        reply: &R,
    )
        requires seat { seat.old.table ≡ self.now }
        requires pass { pass.old.table ≡ self.now }
        requires begun { 0 < seat.old.number }
        ensures seat { seat.new ≡ record seat.old {
          number = 0;
          log = seat.old.log ++ Committed seat.old.number pass.old.owner (cmd.now, reply.now)
              ∷ [];
        } }
        ensures pass { pass.new ≡ record pass.old {
          known = seat.old.number;
          sure = seat.old.number;
          mine = pass.old.mine ++ (seat.old.number, (cmd.now, reply.now)) ∷ [];
        } }
    {
        self.commit_of::<Brand, (&C, &R)>(seat, pass, &(cmd, reply));
    }
}

impl<D> Vectors<D> {
    /// Commits the number in flight as a call of the pass's owner, with the call's data `about`,
    /// which contracts alone see. The number is then published.
    pub fn commit(&self, seat: &mut EngineSeat<D>, pass: &mut Pass<D>)
        ghost about: { D }
        requires seat { seat.old.table ≡ self.now }
        requires pass { pass.old.table ≡ self.now }
        requires begun { 0 < seat.old.number }
        ensures seat { seat.new ≡ record seat.old {
          number = 0;
          log = seat.old.log ++ Committed seat.old.number pass.old.owner about ∷ [];
        } }
        ensures pass { pass.new ≡ record pass.old {
          known = seat.old.number;
          sure = seat.old.number;
          mine = pass.old.mine ++ (seat.old.number, about) ∷ [];
        } }
    {
        self.commit_of::<Brand, ()>(seat, pass, &());
    }

    /// Commits as [`Vectors::commit`] does, with the data that the caller has. They stay where they
    /// are.
    pub fn commit_as(&self, seat: &mut EngineSeat<D>, pass: &mut Pass<D>, about: &D)
        requires seat { seat.old.table ≡ self.now }
        requires pass { pass.old.table ≡ self.now }
        requires begun { 0 < seat.old.number }
        ensures seat { seat.new ≡ record seat.old {
          number = 0;
          log = seat.old.log ++ Committed seat.old.number pass.old.owner about.now ∷ [];
        } }
        ensures pass { pass.new ≡ record pass.old {
          known = seat.old.number;
          sure = seat.old.number;
          mine = pass.old.mine ++ (seat.old.number, about.now) ∷ [];
        } }
    {
        self.commit_of::<Brand, D>(seat, pass, about);
    }

    /// Commits with data that the caller picks, from what it lends here.
    fn commit_of<A: About<D>, T>(&self, seat: &mut EngineSeat<D>, pass: &mut Pass<D>, of: &T)
        requires seat { seat.old.table ≡ self.now }
        requires pass { pass.old.table ≡ self.now }
        requires begun { 0 < seat.old.number }
        requires one { (x : D) × (A.about ≡ x ∷ []) }
        ensures seat { seat.new ≡ record seat.old {
          number = 0;
          log = seat.old.log ++ map (Committed seat.old.number pass.old.owner) A.about;
        } }
        ensures pass { pass.new ≡ record pass.old {
          known = seat.old.number;
          sure = seat.old.number;
          mine = pass.old.mine ++ map (λ x. (seat.old.number, x)) A.about;
        } }
    {
        let _ = of;
        let number = seat.number;
        self.hand_log(&mut seat.seat, &mut pass.seat);
        self.publish::<A>(&mut pass.seat, number);
        self.hand_log(&mut pass.seat, &mut seat.seat);
        seat.number = 0;
        pass.known = number;
        pass.sure = number;
    }

    /// Loads the number that was committed last, which the pass then knows and has seen complete.
    /// Beside the engine's log it shows what the pass's tests answered and that the log has the
    /// pass's calls.
    pub fn learn(&self, seat: &mut EngineSeat<D>, pass: &mut Pass<D>)
        requires seat { seat.old.table ≡ self.now }
        requires pass { pass.old.table ≡ self.now }
        ensures seat { seat.new ≡ seat.old }
        ensures pass { pass.new ≡ record pass.old {
          known = max pass.old.known (count_of seat.old.log);
          sure = max pass.old.sure (count_of seat.old.log);
        } }
        ensures tests { All (IsHonest seat.old.log seat.old.number self.now.len pass.old.owner)
            pass.old.tests }
        ensures seen { pass.old.sure ≤ count_of seat.old.log }
        ensures known { IsIssued seat.old.log seat.old.number pass.new.known }
        ensures mine { pass.old.mine ≡ calls_of pass.old.owner seat.old.log }

        // So was what the pass knew before; its owner is a caller of the table.
        ensures before { IsIssued seat.old.log seat.old.number pass.old.known }
        ensures owner { pass.old.owner ≤ self.now.conns }
        ensures ordered { pass.old.sure ≤ pass.old.known }

        // What holds of the log, beside the number in flight.
        ensures log { IsOrderly seat.old.log seat.old.number }
    {
        self.hand_log(&mut seat.seat, &mut pass.seat);
        let count = self.load_count(&mut pass.seat);
        self.hand_log(&mut pass.seat, &mut seat.seat);
        pass.known = pass.known.max(count);
        pass.sure = pass.sure.max(count);
    }

    /// Does what [`Vectors::learn`] does, for each of these passes. It takes no memory.
    pub fn learn_all(&self, seat: &mut EngineSeat<D>, passes: &mut [Pass<D>])
        requires seat { seat.old.table ≡ self.now }
        requires passes { All (λ pass. pass.table ≡ self.now) passes.old }
        ensures seat { seat.new ≡ seat.old }
        ensures passes { passes.new ≡ map (learned_pass (count_of seat.old.log)) passes.old }
        ensures shown { All (IsShown seat.old) passes.old }
        ensures log { IsOrderly seat.old.log seat.old.number }
    {
        let _ = &seat.number;
        for at in 0..passes.len() {
            self.learn(seat, &mut passes[at]);
        }
    }

    /// Moves the log from one seat to another.
    #[tactic(auto, using(crate::proofs::Steps::splits_log, crate::proofs::Steps::joins_log))]
    fn hand_log(&self, from: &mut Seat<u8, View<D>>, to: &mut Seat<u8, View<D>>)
        requires tables { (from.old.table_id ≡ self.now.id) × (to.old.table_id ≡ self.now.id) }
        requires log { from.old.me.0.keeps ≡ true }
        ensures tables { (from.new.table_id ≡ from.old.table_id)
            × (to.new.table_id ≡ to.old.table_id) }
        ensures from { Becomes from.old.me (without_log from.old.me.0) from.new.me }
        ensures to { Becomes to.old.me (with_log to.old.me.0 from.old.me.0) to.new.me }
    {
        let log = self.table.shared.split_seat::<HandLog>(from);
        self.table.shared.join_seat::<HandLog>(to, log);
    }

    /// Stores the count, which commits the number for the pass that holds the log.
    fn publish<A: About<D>>(&self, seat: &mut Seat<u8, View<D>>, number: u32)
        requires table { seat.old.table_id ≡ self.now.id }
        requires pass { (seat.old.me.0.keeps ≡ true) × (seat.old.me.0.passes ≡ true) }
        requires number { IsBegun number seat.old.me.0.log × (0 < number) }
        requires one { (x : D) × (A.about ≡ x ∷ []) }
        ensures table { seat.new.table_id ≡ seat.old.table_id }
        ensures view { Becomes seat.old.me (committed_of number A.about seat.old.me.0) seat.new.me }
    {
        self.table
            .shared
            .store::<Publish<A>>(seat, 0, u64::from(number));
    }

    /// Loads the count, for the pass that holds the log.
    fn load_count(&self, seat: &mut Seat<u8, View<D>>) -> u32
        requires table { (seat.old.table_id ≡ self.now.id) × (seat.old.me.0.len ≡ self.now.len) }
        requires pass { (seat.old.me.0.keeps ≡ true) × (seat.old.me.0.passes ≡ true) }
        ensures table { seat.new.table_id ≡ seat.old.table_id }
        ensures view { Becomes seat.old.me (learned_of seat.old.me.0 result) seat.new.me }
        ensures shown { Shows self.now.len seat.old.me.0 result }
    {
        self.table.shared.load::<Learn>(seat, 0) as u32
    }
}
