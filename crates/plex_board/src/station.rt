//! A structure's cell with its box.
ghost use Rattle.std.specs.Prelude.{◌≡◌, ◌≢◌, ◌+◌, ◌<◌, ◌≤◌, ◌++◌, ◌∷◌, [], IfOk, IfErr, IfSome, All, Some, is_some, map, option_map};
ghost use Rattle.std.specs.List.{range_with_len};
ghost use Rattle.plex_script.specs.CfTypes.declared.limits.TheConstants.{CONNECTORS};
ghost use Rattle.struct_cell.specs.CfLink.Links.{AreAsked};
ghost use Rattle.plex_script.specs.CfTypes.Forms.{IsForm};
ghost use Rattle.plex_script.specs.Heard.{any_calls, any_length, call_numbered, own_calls};
ghost use Rattle.plex_script.specs.CfTypes.NoMemory.Wants.{want};
ghost use Rattle.struct_cell.specs.declared.refused.CallRefused.TheVariants as refused;
ghost use Rattle.struct_cell.specs.VecWords.Logged.{words_of, indices_of, sight};
ghost use Rattle.plex_board.specs.Types.{type_of_kind, type_of_history};
ghost use Rattle.struct_cell.specs.Limits.{AreMadeBelow};
ghost use Rattle.run_shown.specs.Kinds.{MayAskAny, IsAnyLegal, IsAnyPoint, any_numbers};
ghost use Rattle.plex_board.specs.AnyCalls.{any_answers};
ghost use Rattle.plex_board.specs.Passes.{IsAnswered, IsLater, passes_shown, type_of_passes, room_of, note_shown, note_of, unused_pass, reply_numbered};
ghost use Rattle.plex_board.specs.Cells.{IsPassOf, IsNoteOf, IsAskOf, IsAnyTold, cell_shown, own_replies};
ghost use Rattle.plex_board.specs.Notes.{with_note, with_any_note};

use crate::any_cell::AnyCell;
use crate::any_note::AnyNote;
use crate::any_pass::AnyPasses;
use crate::any_reply::AnyReply;
use crate::kinds::Kinds;
use crate::note_box::NoteBox;
use crate::place::Place;
use plex_script::api::Told;
use plex_script::types::{Kind, NoMemory, StrForm};
use plex_script::{AnyAsk, AnyHistory};
use std::alloc::Global;
use std::marker::Model;
use std::mem::drop;
use std::sync::Wait;
use struct_cell::CallRefused;
use struct_cell::links::{Link, Links};
use struct_cell::turns::KeyLock;
use struct_cell::vectors::{Tested, TestedWord};

/// A structure that threads share by `&`, with the note that was posted last. Contracts see its
/// cell.
#[derive(Drop)]
pub(crate) struct Station<K: Kinds, L: Link> {
    cell: AnyCell<K, L>,
    posted: KeyLock<NoteBox>,
    kind: Kind,
    vector: u32,
}

impl<K: Kinds, L: Link> Model for Station<K, L> {
    ghost use Rattle.plex_board.specs.Passes.{note_shown};
    ghost use Rattle.plex_board.specs.Cells.{CellShown, cell_shown};
    ghost use Rattle.plex_board.specs.Stations.{IsKept};

    ghost Value = { CellShown L };

    ghost view = { λ s. cell_shown s.cell };

    ghost invariant = { λ s. IsKept (cell_shown s.cell) (note_shown s.posted.key) s.kind s.vector };
}

impl<K: Kinds, L: Link> Station<K, L> {
    /// A structure of this form without calls yet, with a pass for each caller from the operator,
    /// 0, on, and nothing posted. A call is made where its journal has fewer than `limit` entries.
    ///
    /// # Errors
    ///
    /// Where there is no memory the links come back, with the cause.
    pub(crate) fn start(
        rt: &impl Wait,
        alloc: Global,
        form: StrForm,
        callers: u8,
        limit: u32,
        links: Links<L>,
    ) -> Result<(Station<K, L>, AnyPasses), (Links<L>, NoMemory)>
        requires formed { IsForm form }
        requires callers { callers ≤ CONNECTORS }
        requires limit { (1 ≤ limit) × (limit ≤ 4294967000) }
        ensures cell { IfOk result (λ r. r.0 ≡ record {
          str_type = type_of_kind form.kind;
          form = form;
          callers = callers;
          limit = limit;
          words = r.0.words;
          links = links;
        }) }
        ensures words { IfOk result (λ r. (r.0.words.conns ≡ callers)
            × (r.0.words.len ≡ form.vector)) }
        ensures passes { IfOk result (λ r. passes_shown r.1
            ≡ map (unused_pass (type_of_kind form.kind) r.0.words)
            (range_with_len 0 (callers + 1))) }
        ensures passes_type { IfOk result (λ r. type_of_passes r.1 ≡ type_of_kind form.kind) }
        ensures room { IfOk result (λ r. callers + 1 ≤ room_of r.1) }
        ensures handed_back { IfErr result (λ back. back.0 ≡ links) }
    {
        let (kind, vector) = (form.kind, form.vector);
        let (cell, mut passes) = AnyCell::start(alloc, form, callers, limit, links)?;
        // The first note is that of a pass that has seen nothing: who takes it learns nothing.
        let mut pass = passes.pop().unwrap();
        let first = cell.tell(&mut pass);
        passes.put(pass);
        match KeyLock::new(alloc, first) {
            Ok(posted) => Ok((
                Station {
                    cell,
                    posted,
                    kind,
                    vector,
                },
                passes,
            )),
            Err((first, cause)) => {
                drop(first);
                let (history, links) = cell.close(rt, passes);
                drop(history);
                Err((links, cause))
            }
        }
    }

    /// The kind of the structure.
    pub(crate) fn kind(&self) -> Kind
        ensures form { result ≡ self.now.form.kind }
        ensures str_type { self.now.str_type ≡ type_of_kind result }
    {
        self.kind
    }

    /// How many bits each connector's vector has.
    pub(crate) fn vector(&self) -> u32
        ensures form { result ≡ self.now.form.vector }
        ensures len { self.now.words.len ≡ result }
    {
        self.vector
    }

    /// A call of the place's caller. It waits for its turn; then it is judged and done at once.
    ///
    /// # Errors
    ///
    /// `JournalFull` where the journal has `limit` entries or more; `NoMemory`, before anything was
    /// changed.
    pub(crate) fn call(
        &self,
        rt: &impl Wait,
        alloc: Global,
        place: &mut Place,
        ask: AnyAsk,
    ) -> Result<Told, CallRefused>
        requires place { IsPassOf self.now place.old }
        requires ask { IsAskOf self.now ask }
        requires may { MayAskAny place.old.owner ask }
        ensures later { IfOk result (λ told. place.old.known < told.no) }
        ensures answered { IfOk result (λ told. IsAnswered ask told place.old place.new) }
        ensures refused { IfErr result (λ _. IsLater place.old place.new) }
        ensures no_memory { IfErr result (λ refusal. refusal ≡ refused.NoMemory want
            → place.new ≡ place.old) }
        ensures full { IfErr result (λ refusal. refusal ≢ refused.NoMemory want
            → (refusal ≡ refused.JournalFull self.now.limit)
            × (self.now.limit ≤ place.new.known)) }
    {
        let told = self.cell.call(rt, alloc, &mut place.pass, ask)?;
        place.linked = told.linked.unwrap_or(place.linked);
        Ok(told)
    }

    /// The reply to a call of the place's caller, by the call's number: `None` where no call of the
    /// caller's has that number. It waits for its turn.
    ///
    /// # Errors
    ///
    /// `NoMemory` for the copy; then the place is as it was.
    pub(crate) fn reply(
        &self,
        rt: &impl Wait,
        alloc: Global,
        place: &mut Place,
        no: u32,
    ) -> Result<Option<AnyReply>, NoMemory>
        requires place { IsPassOf self.now place.old }
        ensures reply { IfOk result (λ reply. reply ≡ reply_numbered no place.old.replies) }
        ensures own { IfOk result (λ reply. is_some reply
            ≡ is_some (call_numbered no place.old.calls)) }
        ensures later { IsLater place.old place.new }
        ensures no_memory { IfErr result (λ _. place.new ≡ place.old) }
    {
        self.cell.reply(rt, alloc, &mut place.pass, no)
    }

    /// Tests a bit of the caller's own vector: no lock, no memory, no waiting (IXLVECTR
    /// TESTLOCALCACHE and TESTLISTSTATE). The operator has no vector.
    pub(crate) fn test(&self, place: &mut Place, index: u32) -> Tested
        requires place { IsPassOf self.now place.old }
        requires caller { 0 < place.old.owner.0 }
        requires index { index < self.now.words.len }
        ensures later { place.old.known ≤ result.at }
        ensures place { place.new ≡ record place.old {
          known = result.at;
          tests = place.old.tests ++ record {
            index = index;
            bit = result.bit;
            at = result.at;
            sure = place.old.sure;
          } ∷ [];
        } }
    {
        self.cell.test(&mut place.pass, index)
    }

    /// Tests the 32 bits of a word of the caller's own vector.
    pub(crate) fn test_word(&self, place: &mut Place, word: u32) -> TestedWord
        requires place { IsPassOf self.now place.old }
        requires caller { 0 < place.old.owner.0 }
        requires word { word < words_of self.now.words.len }
        ensures later { place.old.known ≤ result.at }
        ensures place { place.new ≡ record place.old {
          known = result.at;
          tests = place.old.tests
              ++ map (sight result.bits result.at place.old.sure) (indices_of word);
        } }
    {
        self.cell.test_word(&mut place.pass, word)
    }

    /// Puts a note of the caller's numbers into the box, in place of the one there. It answers the
    /// number of a call that the caller has seen complete, and takes no memory.
    pub(crate) fn post(&self, rt: &impl Wait, place: &mut Place) -> u32
        requires { IsPassOf self.now place.old }
        ensures place { place.new ≡ place.old }
        ensures sure { result ≡ place.old.sure }
        ensures ordered { result ≤ place.old.known }
    {
        let note = self.cell.tell(&mut place.pass);
        let (before, ticket) = self.posted.take(rt);
        self.posted.give(ticket, note);
        drop(before);
        place.pass.sure()
    }

    /// Tells the caller the note in the box. It answers the number of a call that the caller has
    /// now seen complete, and takes no memory.
    pub(crate) fn take(&self, rt: &impl Wait, place: &mut Place) -> u32
        requires { IsPassOf self.now place.old }
        ensures later { IsLater place.old place.new }
        ensures sure { result ≡ place.new.sure }
        ensures ordered { result ≤ place.new.known }
    {
        let (mut posted, ticket) = self.posted.take(rt);
        let note = self.cell.copy_note(&mut posted);
        self.posted.give(ticket, posted);
        self.cell.told(&mut place.pass, note)
    }

    /// Puts a note of the caller's numbers into a slot, in place of the one there.
    pub(crate) fn post_in(&self, place: &mut Place, slot: &mut Option<AnyNote>) -> u32
        requires { IsPassOf self.now place.old }
        ensures place { place.new ≡ place.old }
        ensures slot { option_map note_shown slot.new ≡ Some (note_of place.old) }
        ensures sure { result ≡ place.old.sure }
        ensures ordered { result ≤ place.old.known }
    {
        *slot = Some(self.cell.tell(&mut place.pass));
        place.pass.sure()
    }

    /// Tells the caller the note in a slot, if there is one.
    pub(crate) fn take_in(&self, place: &mut Place, slot: &mut Option<AnyNote>) -> u32
        requires place { IsPassOf self.now place.old }
        requires slot { IfSome slot.old (λ note. IsNoteOf self.now (note_shown note)) }
        ensures place { place.new ≡ with_any_note (option_map note_shown slot.old) place.old }
        ensures slot { option_map note_shown slot.new ≡ option_map note_shown slot.old }
        ensures sure { result ≡ place.new.sure }
        ensures ordered { result ≤ place.new.known }
    {
        if let Some(posted) = slot {
            let note = self.cell.copy_note(posted);
            self.cell.told(&mut place.pass, note)
        } else {
            place.pass.sure()
        }
    }

    /// Tells one caller what another has seen: a note that goes from hand to hand. It answers the
    /// number of a call that the first has now seen complete.
    pub(crate) fn hear(&self, place: &mut Place, from: &mut Place) -> u32
        requires place { IsPassOf self.now place.old }
        requires from { IsPassOf self.now from.old }
        ensures place { place.new ≡ with_note (note_of from.old) place.old }
        ensures from { from.new ≡ from.old }
        ensures sure { result ≡ place.new.sure }
        ensures ordered { result ≤ place.new.known }
    {
        let note = self.cell.tell(&mut from.pass);
        self.cell.told(&mut place.pass, note)
    }

    /// Ends the structure, with its history and its links, which were asked as the history tells.
    /// Of the history each pass has its owner's calls, and it says what the pass's tests answered.
    /// It may wait for a turn, and takes no memory.
    pub(crate) fn close(self, rt: &impl Wait, passes: AnyPasses) -> (AnyHistory, Links<L>)
        requires passes { All (IsPassOf self) (passes_shown passes) }
        requires passes_type { type_of_passes passes ≡ self.str_type }
        ensures history_type { type_of_history result.0 ≡ self.str_type }
        ensures legal { IsAnyLegal self.form result.0 }
        ensures most { any_length result.0 ≤ self.limit + 2 }
        ensures room { AreMadeBelow self.limit 0 (any_numbers result.0) }
        ensures callers { All (λ call. call.by.0 ≤ self.callers) (any_calls result.0) }
        ensures mine { All (λ pass. pass.calls ≡ own_calls (any_calls result.0) pass.owner)
            (passes_shown passes) }
        ensures replies { All (λ pass. pass.replies ≡ own_replies result.0 pass.owner)
            (passes_shown passes) }
        ensures tests { All (λ pass. All (IsAnyTold self.form result.0 pass.owner) pass.tests)
            (passes_shown passes) }
        ensures known { All (λ pass. IsAnyPoint result.0 pass.known
            × (pass.known ≤ any_length result.0)) (passes_shown passes) }
        ensures links { AreAsked L.calls L.downs L.faults (any_answers self.form result.0)
            self.links result.1 }
    {
        let Station { cell, .. } = self;
        cell.close(rt, passes)
    }
}
