//! The cell.
ghost use Rattle.std.specs.Prelude.{◌≡◌, ◌+◌, ◌<◌, ◌≤◌, ◌++◌, ◌≢◌, ℕ, [], ◌∷◌, IsTrue, IfOk, IfErr, IfSome, Err, Some, All, length, map, max, option_map, is_some, true, false};
ghost use Rattle.std.specs.List.{range_with_len};
ghost use Rattle.cf_types.specs.declared.limits.TheConstants.{CONNECTORS};
ghost use Rattle.cf_types.specs.declared.numbers.CfId.{CfId};
ghost use Rattle.struct_machine.specs.CfLink.Links.{AreAsked, link_at};
ghost use Rattle.cf_types.specs.Forms.{IsFacility, IsForm};
ghost use Rattle.cf_types.specs.NoMemory.Wants.{want};
ghost use Rattle.engine_api.specs.Asking.{MayAsk};
ghost use Rattle.engine_api.specs.Answers.{answers, marks_at};
ghost use Rattle.engine_api.specs.History.{calls, numbers, own, replay, IsLegal, IsPoint};
ghost use Rattle.engine_api.specs.Meaning.{items_of};
ghost use Rattle.engine_api.specs.Rebuilds.{fresh_of};
ghost use Rattle.engine_api.specs.Shapes.{shape_of};
ghost use Rattle.struct_machine.specs.ShellLaws.Capacities.{fresh_caps};
ghost use Rattle.struct_machine.specs.ShellLaws.History.{actives_after};
ghost use Rattle.struct_machine.specs.ShellLaws.Readings.{rebuild_told};
ghost use Rattle.struct_machine.specs.ShellLaws.Stops.{StopsKeepTheOld};
ghost use Rattle.vec_words.specs.Logged.{count_of};
ghost use Rattle.vec_words.specs.Tokens.{new_pass, learned_pass};
ghost use Rattle.struct_cell.specs.Cells.{own_call_of, IsCell};
ghost use Rattle.struct_cell.specs.Calls.{IsAnswered, IsLater, reply_to};
ghost use Rattle.struct_cell.specs.Limits.{AreMadeBelow};
ghost use Rattle.struct_cell.specs.LinkCounts.{IsCountedAs};
ghost use Rattle.struct_cell.specs.Telling.{IsTold};
ghost use Rattle.struct_machine.specs.StructureView.{copied_items};
ghost use Rattle.struct_cell.specs.declared.refused.CallRefused.TheVariants as refused;

use crate::closed::Closed;
use crate::copies::{TryClone, own_reply};
use crate::inside::{CellFact, Inside, enter_marks, reserve_entries};
use crate::refused::CallRefused;
use crate::touched::Touched;
use crate::words::store_words;
use cf_turn::{Boxed, KeyLock};
use cf_types::{NoMemory, StrForm};
use engine_api::{Ask, Engine, Entry, History, Reply, Told, What};
use std::alloc::Global;
use std::marker::Model;
use std::sync::Wait;
use struct_machine::links::{Link, Links};
use struct_machine::{Changed, Machine};
use vec_words::{EngineSeat, Pass, Vectors};

/// A structure that threads share by `&`. Contracts see what never changes.
pub struct Cell<E: Engine, L: Link> {
    lock: KeyLock<Boxed<CellFact<E, L>>>,
    vectors: Vectors<(Ask<E::Cmd>, Reply<E::Reply>)>,
}

// What lies under a lock that ends, once the turn comes.
fn ended<E: Engine, L: Link>(lock: KeyLock<Boxed<CellFact<E, L>>>, rt: &impl Wait) -> Inside<E, L>
    ensures { IsCell L.calls L.downs L.faults E.meaning lock.key result.limit
        result.machine result.touched result.journal.items result.seat }
{
    Box::into_inner(lock.end(rt))
}

// Whether a journal of so many entries has no room below its limit.
fn is_full(count: usize, limit: u32) -> bool
    ensures full { result ≡ true → limit ≤ count }
    ensures room { result ≡ false → count < limit }
{
    count >= limit as usize
}

impl<E: Engine, L: Link> Model for Cell<E, L> {
    ghost use Rattle.std.specs.Prelude.{◌≡◌, ◌≤◌};
    ghost use Rattle.cf_types.specs.declared.limits.TheConstants.{CONNECTORS};
    ghost use Rattle.cf_types.specs.Forms.{IsForm};
    ghost use Rattle.struct_cell.specs.declared.inside.CellKey.{CellKey};

    ghost Value = { CellKey E.Cmd E.Reply L };

    ghost view = { λ c. c.lock.key };

    ghost invariant = { λ c. (c.lock.key.words ≡ c.vectors) × (c.lock.key.limit ≤ 4294967000)
        × (c.lock.key.callers ≤ CONNECTORS) × IsForm c.lock.key.form };
}

impl<E: Engine, L: Link> Drop for Cell<E, L> {
    fn drop(self) {
        let Cell {
            lock: _,
            vectors: _,
        } = self;
    }
}

impl<E: Engine, L: Link> Cell<E, L> {
    /// A cell of a structure without calls yet, with a pass for each caller from the operator, 0,
    /// on. A call is made where its journal has fewer than `limit` entries. Where there is no memory
    /// the links come back, with the cause.
    pub fn start(
        alloc: Global,
        form: StrForm,
        callers: u8,
        limit: u32,
        links: Links<L>,
    ) -> Result<(Cell<E, L>, Vec<Pass<(Ask<E::Cmd>, Reply<E::Reply>)>>), (Links<L>, NoMemory)>
        requires formed { IsForm form }
        requires kind { IsTrue (E.is_kind form.kind) }
        requires callers { callers ≤ CONNECTORS }
        requires limit { (1 ≤ limit) × (limit ≤ 4294967000) }
        ensures cell { IfOk result (λ r. r.0 ≡ record {
          form = form;
          callers = callers;
          limit = limit;
          words = r.0.words;
          links = links;
        }) }
        ensures words { IfOk result (λ r. (r.0.words.conns ≡ callers)
            × (r.0.words.len ≡ form.vector)) }
        ensures passes { IfOk result (λ r. r.1.items ≡ map (new_pass r.0.words)
            (range_with_len 0 (callers + 1))) }
        ensures handed_back { IfErr result (λ back. back.0 ≡ links) }
    {
        let len = form.vector;
        let touched = match Touched::none(alloc, callers, len) {
            Ok(touched) => touched,
            Err(cause) => return Err((links, cause)),
        };
        let (vectors, seat, passes) = match Vectors::start(alloc, callers, len) {
            Ok(started) => started,
            Err(cause) => return Err((links, cause)),
        };
        let machine = Machine::start(alloc, form, callers, links)?;
        let inside = Inside {
            limit,
            machine,
            changed: Changed::none(alloc),
            touched,
            journal: Vec::new(alloc),
            seat,
        };
        match KeyLock::boxed(alloc, inside) {
            Ok(lock) => Ok((Cell { lock, vectors }, passes)),
            Err((inside, cause)) => {
                let Inside { machine, .. } = inside;
                Err((machine.into_parts().links, cause))
            }
        }
    }

    /// A call of the pass's owner. It waits for its turn; then it is judged and done at once, and
    /// stands in the journal, behind a mark for each instance that its links tell to be lost. Each
    /// word of a vector in which it or its marks changed a bit is stored before its number is
    /// published.
    ///
    /// # Errors
    ///
    /// `JournalFull` where the journal has `limit` entries or more; `NoMemory`, before anything was
    /// changed. In both cases nothing happened to the structure.
    pub fn call(
        &self,
        rt: &impl Wait,
        alloc: Global,
        pass: &mut Pass<(Ask<E::Cmd>, Reply<E::Reply>)>,
        ask: Ask<E::Cmd>,
    ) -> Result<Told, CallRefused>
        requires pass { pass.old.table ≡ self.now.words }
        requires may { MayAsk (record { 0 = pass.old.owner }) ask }
        ensures later { IfOk result (λ told. pass.old.known < told.no) }
        ensures answered { IfOk result (λ told. IsAnswered ask told pass.old pass.new) }
        ensures refused { IfErr result (λ _. IsLater pass.old pass.new) }
        ensures no_memory { IfErr result (λ refusal. refusal ≡ refused.NoMemory want
            → pass.new ≡ pass.old) }
        ensures full { IfErr result (λ refusal. refusal ≢ refused.NoMemory want
            → (refusal ≡ refused.JournalFull self.now.limit) × (self.now.limit ≤ pass.new.known)) }
    {
        let (mut inside, ticket) = self.lock.take(rt);
        let answer = self.answer(alloc, &mut inside, pass, ask);
        self.lock.give(ticket, inside);
        answer
    }

    // The call, under the lock.
    fn answer(
        &self,
        alloc: Global,
        inside: &mut Inside<E, L>,
        pass: &mut Pass<(Ask<E::Cmd>, Reply<E::Reply>)>,
        ask: Ask<E::Cmd>,
    ) -> Result<Told, CallRefused>
        requires cell { IsCell L.calls L.downs L.faults E.meaning self.now inside.old.limit
            inside.old.machine inside.old.touched inside.old.journal.items inside.old.seat }
        requires pass { pass.old.table ≡ self.now.words }
        requires may { MayAsk (record { 0 = pass.old.owner }) ask }
        ensures cell { IsCell L.calls L.downs L.faults E.meaning self.now inside.new.limit
            inside.new.machine inside.new.touched inside.new.journal.items inside.new.seat }
        ensures later { IfOk result (λ told. pass.old.known < told.no) }
        ensures answered { IfOk result (λ told. IsAnswered ask told pass.old pass.new) }
        ensures refused { IfErr result (λ _. IsLater pass.old pass.new) }
        ensures no_memory { IfErr result (λ refusal. refusal ≡ refused.NoMemory want
            → pass.new ≡ pass.old) }
        ensures full { IfErr result (λ refusal. refusal ≢ refused.NoMemory want
            → (refusal ≡ refused.JournalFull self.now.limit) × (self.now.limit ≤ pass.new.known)) }
    {
        let count = inside.journal.len();
        if is_full(count, inside.limit) {
            return Err(self.journal_full(&mut inside.seat, pass, inside.limit));
        }
        reserve_entries(&mut inside.journal)?;
        let by = pass.owner();
        let reply = inside.machine.answer(alloc, by, &ask, &mut inside.changed)?;
        self.vectors.learn(&mut inside.seat, pass);
        enter_marks(&mut inside.journal, inside.changed.marks());
        inside.touched.note(&inside.changed, &inside.machine);
        let no = inside.journal.len() as u32 + 1;
        self.vectors.begin(&mut inside.seat, no);
        store_words(&self.vectors, &mut inside.seat, &inside.touched);
        self.vectors
            .commit_call(&mut inside.seat, pass, &ask, &reply);
        let told = Told::of(no, &ask, &reply);
        inside.journal.push_reserved(Entry {
            no,
            by,
            what: What::Call(ask),
            reply,
        });
        Ok(told)
    }

    /// The reply to a call of the pass's owner, by the call's number: a copy of the one in the
    /// journal. `None` where no call of the owner's has that number. It waits for its turn, by which
    /// the pass may have seen more complete.
    ///
    /// # Errors
    ///
    /// `NoMemory` for the copy; then the pass is as it was, and the reply may be asked for again.
    pub fn reply(
        &self,
        rt: &impl Wait,
        alloc: Global,
        pass: &mut Pass<(Ask<E::Cmd>, Reply<E::Reply>)>,
        no: u32,
    ) -> Result<Option<Reply<E::Reply>>, NoMemory>
    where
        E::Reply: TryClone,
        requires pass { pass.old.table ≡ self.now.words }
        ensures reply { IfOk result (λ reply. reply ≡ reply_to no pass.old.mine) }
        ensures later { IsLater pass.old pass.new }
        ensures no_memory { IfErr result (λ _. pass.new ≡ pass.old) }
    {
        let (mut inside, ticket) = self.lock.take(rt);
        let reply = self.copy_own(alloc, &mut inside, pass, no);
        self.lock.give(ticket, inside);
        reply
    }

    // The copy, under the lock.
    fn copy_own(
        &self,
        alloc: Global,
        inside: &mut Inside<E, L>,
        pass: &mut Pass<(Ask<E::Cmd>, Reply<E::Reply>)>,
        no: u32,
    ) -> Result<Option<Reply<E::Reply>>, NoMemory>
    where
        E::Reply: TryClone,
        requires cell { IsCell L.calls L.downs L.faults E.meaning self.now inside.old.limit
            inside.old.machine inside.old.touched inside.old.journal.items inside.old.seat }
        requires pass { pass.old.table ≡ self.now.words }
        ensures cell { IsCell L.calls L.downs L.faults E.meaning self.now inside.new.limit
            inside.new.machine inside.new.touched inside.new.journal.items inside.new.seat }
        ensures reply { IfOk result (λ reply. reply ≡ reply_to no pass.old.mine) }
        ensures later { IsLater pass.old pass.new }
        ensures no_memory { IfErr result (λ _. pass.new ≡ pass.old) }
    {
        let reply = own_reply(alloc, inside.journal.as_slice(), pass.owner(), no)?;
        self.vectors.learn(&mut inside.seat, pass);
        Ok(reply)
    }

    // Why a call isn't made where the journal is full. The pass learns how many entries it has.
    fn journal_full(
        &self,
        seat: &mut EngineSeat<(Ask<E::Cmd>, Reply<E::Reply>)>,
        pass: &mut Pass<(Ask<E::Cmd>, Reply<E::Reply>)>,
        limit: u32,
    ) -> CallRefused
        requires seat { seat.old.table ≡ self.now.words }
        requires pass { pass.old.table ≡ self.now.words }
        ensures limit { result ≡ refused.JournalFull limit }
        ensures seat { seat.new ≡ seat.old }
        ensures pass { pass.new ≡ learned_pass (count_of seat.old.log) pass.old }
    {
        self.vectors.learn(seat, pass);
        CallRefused::JournalFull { limit }
    }

    /// The words, for tests without the lock.
    pub fn vectors(&self) -> &Vectors<(Ask<E::Cmd>, Reply<E::Reply>)>
        ensures { result.now ≡ self.now.words }
    {
        &self.vectors
    }

    /// Ends the cell. Of its history each pass has its owner's calls, and it says what the pass's
    /// tests answered, what became of the rebuild, and how often each link was asked and was down.
    /// It may wait for a turn, and takes no memory.
    pub fn close(
        self,
        rt: &impl Wait,
        passes: Vec<Pass<(Ask<E::Cmd>, Reply<E::Reply>)>>,
    ) -> Closed<E, L>
        requires passes { All (λ pass. pass.table ≡ self.words) passes.items }
        ensures legal { IsLegal E.meaning self.form result.history }
        ensures most { length result.history ≤ self.limit + 2 }
        ensures room { AreMadeBelow self.limit 0 (numbers result.history) }
        ensures callers { All (λ call. call.by.0 ≤ self.callers) (calls result.history) }
        ensures mine { All (λ pass. pass.mine ≡ map own_call_of (own result.history
            (record { 0 = pass.owner }))) passes.items }
        ensures tests { All (λ pass. All (IsTold E.meaning self.form result.history pass.owner)
            pass.tests) passes.items }
        ensures known { All (λ pass. IsPoint result.history pass.known
            × (pass.known ≤ length result.history)) passes.items }
        ensures links { AreAsked L.calls L.downs L.faults
            (answers E.meaning self.form result.history) self.links result.links }
        ensures linked { (cf : CfId) → IsFacility cf → IsCountedAs L.calls L.downs L.faults
            (answers E.meaning self.form result.history cf) (marks_at result.history cf)
            (link_at self.links cf) (link_at result.links cf) }
        ensures told { (replay E.meaning self.form result.history).shell.rebuild
            ≡ rebuild_told (actives_after E.meaning self.form) result.history }
        ensures stops { StopsKeepTheOld E.meaning self.form result.history }
        ensures first { is_some result.first ≡ is_some
            (replay E.meaning self.form result.history).shell.instances.primary }
        ensures content { IfSome result.first (λ engine. (E.held engine).state
            ≡ (replay E.meaning self.form result.history).content) }
        ensures second { is_some result.second ≡ is_some
            (replay E.meaning self.form result.history).shell.instances.secondary }
        ensures same { IfSome result.second
            (λ engine. Some (E.held engine) ≡ option_map E.held result.first) }
        ensures fresh { is_some result.fresh ≡ is_some (fresh_of
            (replay E.meaning self.form result.history).shell.rebuild) }
        ensures front { IfSome result.fresh (λ engine. items_of E.meaning (E.held engine)
            ≡ copied_items E.meaning self.form
            (replay E.meaning self.form result.history)) }
        ensures shape { IfSome result.first (λ engine. (E.held engine).shape
            ≡ shape_of self.form) }
        ensures caps { IfSome result.first (λ engine. (E.held engine).caps
            ≡ (replay E.meaning self.form result.history).shell.caps) }
        ensures fresh_shape { IfSome result.fresh (λ engine. (E.held engine).shape
            ≡ shape_of self.form) }
        ensures fresh_caps { IfSome result.fresh (λ engine. Some (E.held engine).caps
            ≡ fresh_caps (replay E.meaning self.form result.history).shell.rebuild) }
    {
        let Cell { lock, vectors } = self;
        let mut inside = ended(lock, rt);
        let mut passes = passes;
        vectors.learn_all(&mut inside.seat, passes.as_mut_slice());
        let Inside {
            machine,
            journal,
            ..
        } = inside;
        let parts = machine.into_parts();
        Closed {
            history: History::from_vec(journal),
            links: parts.links,
            first: parts.first,
            second: parts.second,
            fresh: parts.fresh,
        }
    }
}
