//! A cell of whatever type of structure.
ghost use Rattle.std.specs.Prelude.{◌≡◌, ◌≢◌, ◌+◌, ◌<◌, ◌≤◌, ◌++◌, ◌∷◌, [], IfOk, IfErr, All, is_some, map, max};
ghost use Rattle.std.specs.List.{range_with_len};
ghost use Rattle.plex_script.specs.CfTypes.declared.limits.TheConstants.{CONNECTORS};
ghost use Rattle.struct_cell.specs.CfLink.Links.{AreAsked};
ghost use Rattle.plex_script.specs.CfTypes.Forms.{IsForm};
ghost use Rattle.plex_script.specs.CfTypes.NoMemory.Wants.{want};
ghost use Rattle.plex_script.specs.Heard.{any_calls, any_length, call_numbered, own_calls};
ghost use Rattle.struct_cell.specs.declared.refused.CallRefused.TheVariants as refused;
ghost use Rattle.struct_cell.specs.VecWords.Logged.{words_of, indices_of, sight};
ghost use Rattle.struct_cell.specs.Limits.{AreMadeBelow};
ghost use Rattle.run_shown.specs.Kinds.{MayAskAny, IsAnyLegal, IsAnyPoint, any_numbers};
ghost use Rattle.plex_board.specs.AnyCalls.{any_answers};
ghost use Rattle.plex_board.specs.Types.{type_of_kind, type_of_history};
ghost use Rattle.plex_board.specs.Passes.{IsAnswered, IsLater, pass_shown, passes_shown, type_of_passes, room_of, note_shown, note_of, unused_pass, reply_numbered};
ghost use Rattle.plex_board.specs.Cells.{IsPassOf, IsNoteOf, IsAskOf, IsAnyTold, cell_shown, own_replies};

use crate::any_note::AnyNote;
use crate::any_pass::{AnyPass, AnyPasses};
use crate::any_reply::{AnyReply, of_cache, of_list, of_lock};
use crate::kinds::Kinds;
use plex_script::api::Told;
use plex_script::types::{Kind, NoMemory, StrForm};
use plex_script::{AnyAsk, AnyHistory};
use std::alloc::Global;
use std::sync::Wait;
use struct_cell::links::{Link, Links};
use struct_cell::vectors::{Tested, TestedWord};
use struct_cell::{CallRefused, Cell, Closed};

/// A structure that threads share by `&`, of whatever type. Contracts see what never changes.
#[derive(Drop)]
pub enum AnyCell<K: Kinds, L: Link> {
    Cache(Cell<K::Cache, L>),
    List(Cell<K::List, L>),
    Lock(Cell<K::Lock, L>),
}

impl<K: Kinds, L: Link> AnyCell<K, L> {
    /// A cell of a structure of this form without calls yet (what the first IXLCONN allocates),
    /// with a pass for each caller from the operator, 0, on. A call is made where its journal has
    /// fewer than `limit` entries.
    ///
    /// # Errors
    ///
    /// Where there is no memory the links come back, with the cause.
    #[tactic(auto, using(crate::proofs::ShownLaws::new_passes))]
    pub fn start(
        alloc: Global,
        form: StrForm,
        callers: u8,
        limit: u32,
        links: Links<L>,
    ) -> Result<(AnyCell<K, L>, AnyPasses), (Links<L>, NoMemory)>
        requires formed { IsForm form }
        requires callers { callers ≤ CONNECTORS }
        requires limit { (1 ≤ limit) × (limit ≤ 4294967000) }
        ensures cell { IfOk result (λ r. cell_shown r.0 ≡ record {
          str_type = type_of_kind form.kind;
          form = form;
          callers = callers;
          limit = limit;
          words = (cell_shown r.0).words;
          links = links;
        }) }
        ensures words { IfOk result (λ r. ((cell_shown r.0).words.conns ≡ callers)
            × ((cell_shown r.0).words.len ≡ form.vector)) }
        ensures passes { IfOk result (λ r. passes_shown r.1
            ≡ map (unused_pass (type_of_kind form.kind) (cell_shown r.0).words)
            (range_with_len 0 (callers + 1))) }
        ensures passes_type { IfOk result (λ r. type_of_passes r.1 ≡ type_of_kind form.kind) }
        ensures room { IfOk result (λ r. callers + 1 ≤ room_of r.1) }
        ensures handed_back { IfErr result (λ back. back.0 ≡ links) }
    {
        match form.kind {
            Kind::Cache => {
                let (cell, passes) = Cell::start(alloc, form, callers, limit, links)?;
                Ok((AnyCell::Cache(cell), AnyPasses::Cache(passes)))
            }
            Kind::List { .. } => {
                let (cell, passes) = Cell::start(alloc, form, callers, limit, links)?;
                Ok((AnyCell::List(cell), AnyPasses::List(passes)))
            }
            Kind::Lock => {
                let (cell, passes) = Cell::start(alloc, form, callers, limit, links)?;
                Ok((AnyCell::Lock(cell), AnyPasses::Lock(passes)))
            }
        }
    }

    /// A call of the pass's owner. It waits for its turn; then it is judged and done at once, it
    /// stands in the journal, behind what its links tell to be lost, and the words of the vectors
    /// show what it did before its number is published.
    ///
    /// # Errors
    ///
    /// `JournalFull` where the journal has `limit` entries or more; `NoMemory`, before anything was
    /// changed. In both cases nothing happened to the structure.
    pub fn call(
        &self,
        rt: &impl Wait,
        alloc: Global,
        pass: &mut AnyPass,
        ask: AnyAsk,
    ) -> Result<Told, CallRefused>
        requires pass { IsPassOf (cell_shown self.now) (pass_shown pass.old) }
        requires ask { IsAskOf (cell_shown self.now) ask }
        requires may { MayAskAny (pass_shown pass.old).owner ask }
        ensures later { IfOk result (λ told. (pass_shown pass.old).known < told.no) }
        ensures answered { IfOk result (λ told. IsAnswered ask told (pass_shown pass.old)
            (pass_shown pass.new)) }
        ensures refused { IfErr result (λ _. IsLater (pass_shown pass.old) (pass_shown pass.new)) }
        ensures no_memory { IfErr result (λ refusal. refusal ≡ refused.NoMemory want
            → pass_shown pass.new ≡ pass_shown pass.old) }
        ensures full { IfErr result (λ refusal. refusal ≢ refused.NoMemory want
            → (refusal ≡ refused.JournalFull (cell_shown self.now).limit)
            × ((cell_shown self.now).limit ≤ (pass_shown pass.new).known)) }
    {
        match (self, pass, ask) {
            (AnyCell::Cache(cell), AnyPass::Cache(pass), AnyAsk::Cache(ask)) => {
                return cell.call(rt, alloc, pass, ask);
            }
            (AnyCell::List(cell), AnyPass::List(pass), AnyAsk::List(ask)) => {
                return cell.call(rt, alloc, pass, ask);
            }
            (AnyCell::Lock(cell), AnyPass::Lock(pass), AnyAsk::Lock(ask)) => {
                return cell.call(rt, alloc, pass, ask);
            }
            _ => unreachable!(),
        }
    }

    /// The reply to a call of the pass's owner, by the call's number: `None` where no call of the
    /// owner's has that number. It waits for its turn, by which the pass may have seen more
    /// complete.
    ///
    /// # Errors
    ///
    /// `NoMemory` for the copy; then the pass is as it was, and the reply may be asked for again.
    #[tactic(auto, using(crate::proofs::ShownLaws::reply_shown, crate::proofs::ShownLaws::reply_exists, crate::proofs::ShownLaws::some_mapped))]
    pub fn reply(
        &self,
        rt: &impl Wait,
        alloc: Global,
        pass: &mut AnyPass,
        no: u32,
    ) -> Result<Option<AnyReply>, NoMemory>
        requires pass { IsPassOf (cell_shown self.now) (pass_shown pass.old) }
        ensures reply { IfOk result (λ reply. reply
            ≡ reply_numbered no (pass_shown pass.old).replies) }
        ensures own { IfOk result (λ reply. is_some reply
            ≡ is_some (call_numbered no (pass_shown pass.old).calls)) }
        ensures later { IsLater (pass_shown pass.old) (pass_shown pass.new) }
        ensures no_memory { IfErr result (λ _. pass_shown pass.new ≡ pass_shown pass.old) }
    {
        match (self, pass) {
            (AnyCell::Cache(cell), AnyPass::Cache(pass)) => {
                let reply = cell.reply(rt, alloc, pass, no)?;
                return Ok(of_cache(reply));
            }
            (AnyCell::List(cell), AnyPass::List(pass)) => {
                let reply = cell.reply(rt, alloc, pass, no)?;
                return Ok(of_list(reply));
            }
            (AnyCell::Lock(cell), AnyPass::Lock(pass)) => {
                let reply = cell.reply(rt, alloc, pass, no)?;
                return Ok(of_lock(reply));
            }
            _ => unreachable!(),
        }
    }

    /// Tests a bit of the pass's own vector with one load: no lock, no memory, no waiting (IXLVECTR
    /// TESTLOCALCACHE and TESTLISTSTATE). It answers the bit and the number that the answer is of,
    /// which the pass then knows. The operator's pass doesn't test.
    pub fn test(&self, pass: &mut AnyPass, index: u32) -> Tested
        requires pass { IsPassOf (cell_shown self.now) (pass_shown pass.old) }
        requires caller { 0 < (pass_shown pass.old).owner.0 }
        requires index { index < (cell_shown self.now).words.len }
        ensures later { (pass_shown pass.old).known ≤ result.at }
        ensures pass { pass_shown pass.new ≡ record (pass_shown pass.old) {
          known = result.at;
          tests = (pass_shown pass.old).tests ++ record {
            index = index;
            bit = result.bit;
            at = result.at;
            sure = (pass_shown pass.old).sure;
          } ∷ [];
        } }
    {
        match (self, pass) {
            (AnyCell::Cache(cell), AnyPass::Cache(pass)) => cell.vectors().test(pass, index),
            (AnyCell::List(cell), AnyPass::List(pass)) => cell.vectors().test(pass, index),
            (AnyCell::Lock(cell), AnyPass::Lock(pass)) => cell.vectors().test(pass, index),
            _ => unreachable!(),
        }
    }

    /// Tests the 32 bits of a word of the pass's own vector with one load.
    pub fn test_word(&self, pass: &mut AnyPass, word: u32) -> TestedWord
        requires pass { IsPassOf (cell_shown self.now) (pass_shown pass.old) }
        requires caller { 0 < (pass_shown pass.old).owner.0 }
        requires word { word < words_of (cell_shown self.now).words.len }
        ensures later { (pass_shown pass.old).known ≤ result.at }
        ensures pass { pass_shown pass.new ≡ record (pass_shown pass.old) {
          known = result.at;
          tests = (pass_shown pass.old).tests
              ++ map (sight result.bits result.at (pass_shown pass.old).sure) (indices_of word);
        } }
    {
        match (self, pass) {
            (AnyCell::Cache(cell), AnyPass::Cache(pass)) => cell.vectors().test_word(pass, word),
            (AnyCell::List(cell), AnyPass::List(pass)) => cell.vectors().test_word(pass, word),
            (AnyCell::Lock(cell), AnyPass::Lock(pass)) => cell.vectors().test_word(pass, word),
            _ => unreachable!(),
        }
    }

    /// A note of the numbers that the pass has.
    pub fn tell(&self, pass: &mut AnyPass) -> AnyNote
        requires { IsPassOf (cell_shown self.now) (pass_shown pass.old) }
        ensures note { note_shown result ≡ note_of (pass_shown pass.old) }
        ensures pass { pass_shown pass.new ≡ pass_shown pass.old }
        ensures ordered { (note_shown result).sure ≤ (note_shown result).known }
    {
        match (self, pass) {
            (AnyCell::Cache(cell), AnyPass::Cache(pass)) => {
                AnyNote::Cache(cell.vectors().tell(pass))
            }
            (AnyCell::List(cell), AnyPass::List(pass)) => AnyNote::List(cell.vectors().tell(pass)),
            (AnyCell::Lock(cell), AnyPass::Lock(pass)) => AnyNote::Lock(cell.vectors().tell(pass)),
            _ => unreachable!(),
        }
    }

    /// A second note with the same numbers.
    pub fn copy_note(&self, note: &mut AnyNote) -> AnyNote
        requires { IsNoteOf (cell_shown self.now) (note_shown note.old) }
        ensures copy { note_shown result ≡ note_shown note.old }
        ensures note { note_shown note.new ≡ note_shown note.old }
        ensures ordered { (note_shown result).sure ≤ (note_shown result).known }
    {
        match (self, note) {
            (AnyCell::Cache(cell), AnyNote::Cache(note)) => {
                AnyNote::Cache(cell.vectors().copy_note(note))
            }
            (AnyCell::List(cell), AnyNote::List(note)) => {
                AnyNote::List(cell.vectors().copy_note(note))
            }
            (AnyCell::Lock(cell), AnyNote::Lock(note)) => {
                AnyNote::Lock(cell.vectors().copy_note(note))
            }
            _ => unreachable!(),
        }
    }

    /// Tells a note to the pass, whose numbers are then each the larger of both. It answers the
    /// number of a call that the pass has now seen complete.
    pub fn told(&self, pass: &mut AnyPass, note: AnyNote) -> u32
        requires pass { IsPassOf (cell_shown self.now) (pass_shown pass.old) }
        requires note { IsNoteOf (cell_shown self.now) (note_shown note) }
        ensures pass { pass_shown pass.new ≡ record (pass_shown pass.old) {
          known = max (pass_shown pass.old).known (note_shown note).known;
          sure = max (pass_shown pass.old).sure (note_shown note).sure;
        } }
        ensures sure { result ≡ (pass_shown pass.new).sure }
        ensures ordered { (pass_shown pass.new).sure ≤ (pass_shown pass.new).known }
    {
        match (self, pass, note) {
            (AnyCell::Cache(cell), AnyPass::Cache(pass), AnyNote::Cache(note)) => {
                cell.vectors().told(pass, note)
            }
            (AnyCell::List(cell), AnyPass::List(pass), AnyNote::List(note)) => {
                cell.vectors().told(pass, note)
            }
            (AnyCell::Lock(cell), AnyPass::Lock(pass), AnyNote::Lock(note)) => {
                cell.vectors().told(pass, note)
            }
            _ => unreachable!(),
        }
    }

    /// Ends the cell, with its history and its links, which were asked as the history tells. Of the
    /// history each pass has its owner's calls, and it says what the pass's tests answered. It may
    /// wait for a turn, and takes no memory.
    pub fn close(self, rt: &impl Wait, passes: AnyPasses) -> (AnyHistory, Links<L>)
        requires passes { All (IsPassOf (cell_shown self)) (passes_shown passes) }
        requires passes_type { type_of_passes passes ≡ (cell_shown self).str_type }
        ensures history_type { type_of_history result.0 ≡ (cell_shown self).str_type }
        ensures legal { IsAnyLegal (cell_shown self).form result.0 }
        ensures most { any_length result.0 ≤ (cell_shown self).limit + 2 }
        ensures room { AreMadeBelow (cell_shown self).limit 0 (any_numbers result.0) }
        ensures callers { All (λ call. call.by.0 ≤ (cell_shown self).callers)
            (any_calls result.0) }
        ensures mine { All (λ pass. pass.calls ≡ own_calls (any_calls result.0) pass.owner)
            (passes_shown passes) }
        ensures replies { All (λ pass. pass.replies ≡ own_replies result.0 pass.owner)
            (passes_shown passes) }
        ensures tests { All (λ pass. All (IsAnyTold (cell_shown self).form result.0 pass.owner)
            pass.tests) (passes_shown passes) }
        ensures known { All (λ pass. IsAnyPoint result.0 pass.known
            × (pass.known ≤ any_length result.0)) (passes_shown passes) }
        ensures links { AreAsked L.calls L.downs L.faults
            (any_answers (cell_shown self).form result.0) (cell_shown self).links result.1 }
    {
        match (self, passes) {
            (AnyCell::Cache(cell), AnyPasses::Cache(passes)) => {
                let Closed { history, links, .. } = cell.close(rt, passes);
                (AnyHistory::Cache(history), links)
            }
            (AnyCell::List(cell), AnyPasses::List(passes)) => {
                let Closed { history, links, .. } = cell.close(rt, passes);
                (AnyHistory::List(history), links)
            }
            (AnyCell::Lock(cell), AnyPasses::Lock(passes)) => {
                let Closed { history, links, .. } = cell.close(rt, passes);
                (AnyHistory::Lock(history), links)
            }
            _ => unreachable!(),
        }
    }
}
