//! The board.
ghost use Rattle.std.specs.Prelude.{◌≡◌, ◌≢◌, ◌+◌, ◌<◌, ◌≤◌, ◌++◌, ◌∷◌, [], IfOk, IfErr, IfSome, All, is_some, length, map, slice_set, Some};
ghost use Rattle.std.specs.Vec.{vec_len};
ghost use Rattle.std.specs.List.{range_with_len};
ghost use Rattle.plex_script.specs.CfTypes.declared.limits.TheConstants.{LINKS};
ghost use Rattle.plex_script.specs.CfTypes.NoMemory.Wants.{want};
ghost use Rattle.struct_cell.specs.declared.refused.CallRefused.TheVariants as refused;
ghost use Rattle.struct_cell.specs.VecWords.Logged.{words_of, indices_of, sight};
ghost use Rattle.plex_script.specs.Heard.{call_numbered};
ghost use Rattle.plex_board.specs.Types.{type_of_kind};
ghost use Rattle.run_shown.specs.Kinds.{MayAskAny};
ghost use Rattle.plex_board.specs.Passes.{note_of, reply_numbered};
ghost use Rattle.plex_board.specs.Cells.{IsAskOf};
ghost use Rattle.plex_board.specs.Notes.{with_note, with_any_note};
ghost use Rattle.plex_board.specs.Desks.{pass_at, with_pass, IsAnsweredOn, IsLaterOn};
ghost use Rattle.plex_board.specs.Rests.{IsReady};
ghost use Rattle.plex_board.specs.Boards.{IsPolicy, IsStarted, IsDeskOf, IsTrayOf, AreClosed, AreLinksAsked, cell_on, links_of, new_desk, no_notes, note_in};

use crate::any_reply::AnyReply;
use crate::desk::Desk;
use crate::ending::{end, gather};
use crate::kinds::Kinds;
use crate::opening::{Opening, next_four};
use crate::rest::Rest;
use crate::station::Station;
use crate::tray::Tray;
use plex_script::api::Told;
use plex_script::types::{Kind, NoMemory, StrNo};
use plex_script::{AnyAsk, AnyHistory, Script};
use std::alloc::Global;
use std::marker::Model;
use std::sync::Wait;
use struct_cell::CallRefused;
use struct_cell::links::Link;
use struct_cell::turns::KeyLock;
use struct_cell::vectors::{Tested, TestedWord};

/// The structures of a script, which threads share by `&`. Contracts see what of them never
/// changes.
pub struct Board<K: Kinds, L: Link> {
    stations: Vec<Station<K, L>>,
    callers: u8,
    rest: KeyLock<Rest<L>>,
}

impl<K: Kinds, L: Link> Model for Board<K, L> {
    ghost use Rattle.plex_board.specs.Boards.{BoardShown};
    ghost use Rattle.plex_board.specs.Rests.{IsReady};

    ghost Value = { BoardShown L };

    ghost view = { λ b. record {
      cells = b.stations.items;
      callers = b.callers;
      spare = b.rest.key.spare.items;
    } };

    ghost invariant = { λ b. IsReady b.stations.items b.callers b.rest.key };
}

impl<K: Kinds, L: Link> Drop for Board<K, L> {
    fn drop(self) {
        let Board {
            stations: _,
            callers: _,
            rest: _,
        } = self;
    }
}

impl<K: Kinds, L: Link> Board<K, L> {
    /// The structures of a script without calls yet, and a desk for each caller from the operator,
    /// 0, on. A call is made where its structure's journal has fewer than `limit` entries.
    /// Structure `s`, from 0 in the order of the script, has the links `4 * s` to `4 * s + 3`, one
    /// to each facility.
    ///
    /// # Errors
    ///
    /// Where there is no memory the links come back, in their order, with the cause.
    pub fn start(
        rt: &impl Wait,
        alloc: Global,
        script: &Script,
        limit: u32,
        links: Vec<L>,
    ) -> Result<(Board<K, L>, Vec<Desk>), (Vec<L>, NoMemory)>
        requires policy { IsPolicy script.now }
        requires limit { (1 ≤ limit) × (limit ≤ 4294967000) }
        requires links { vec_len links ≡ LINKS }
        ensures forms { IfOk result (λ r. map (λ cell. cell.form) r.0.cells
            ≡ script.now.structures) }
        ensures cells { IfOk result (λ r. All
            (IsStarted (length script.now.connectors) limit) r.0.cells) }
        ensures callers { IfOk result (λ r. r.0.callers ≡ length script.now.connectors) }
        ensures links { IfOk result (λ r. links_of r.0 ≡ links.items) }
        ensures desks { IfOk result (λ r. r.1.items
            ≡ map (new_desk r.0) (range_with_len 0 (length script.now.connectors + 1))) }
        ensures handed_back { IfErr result (λ back. back.0.items ≡ links.items) }
    {
        let callers = script.connectors.items().len() as u8;
        let mut opening = match Opening::new(alloc, callers) {
            Ok(opening) => opening,
            Err(cause) => return Err((links, cause)),
        };
        let mut left = links.into_iter();
        for form in script.structures.items() {
            let four = next_four(&mut left);
            match opening.add(rt, alloc, form, callers, limit, four) {
                Ok(()) => {}
                Err((four, cause)) => {
                    return Err((opening.give_up(rt, callers, limit, four, left), cause));
                }
            }
        }
        opening.open(rt, alloc, callers, limit, left)
    }

    // A board of these structures.
    pub(crate) fn of(
        stations: Vec<Station<K, L>>,
        callers: u8,
        rest: KeyLock<Rest<L>>,
    ) -> Board<K, L>
        requires { IsReady stations.items callers rest.key }
        ensures { result ≡ record {
          cells = stations.items;
          callers = callers;
          spare = rest.key.spare.items;
        } }
    {
        Board {
            stations,
            callers,
            rest,
        }
    }

    /// How many structures there are.
    pub fn structures(&self) -> u8
        ensures { result ≡ length self.now.cells }
    {
        self.stations.len() as u8
    }

    /// The kind of a structure.
    pub fn kind(&self, on: StrNo) -> Kind
        requires { on.0 < length self.now.cells }
        ensures form { IfSome (cell_on self.now on) (λ cell. result ≡ cell.form.kind) }
        ensures str_type { IfSome (cell_on self.now on)
            (λ cell. cell.str_type ≡ type_of_kind result) }
    {
        self.stations[usize::from(on.0)].kind()
    }

    /// How many bits each connector's vector has at a structure.
    pub fn vector(&self, on: StrNo) -> u32
        requires { on.0 < length self.now.cells }
        ensures form { IfSome (cell_on self.now on) (λ cell. result ≡ cell.form.vector) }
        ensures len { IfSome (cell_on self.now on) (λ cell. cell.words.len ≡ result) }
    {
        self.stations[usize::from(on.0)].vector()
    }

    /// A call of the desk's owner to a structure. It waits for its turn; then it is judged and done
    /// at once, it stands in the journal, behind what its links tell to be lost, and the words of
    /// the vectors show what it did.
    ///
    /// # Errors
    ///
    /// `JournalFull` where the journal has `limit` entries or more; `NoMemory`, before anything was
    /// changed. In both cases nothing happened to the structure.
    pub fn call(
        &self,
        rt: &impl Wait,
        alloc: Global,
        desk: &mut Desk,
        on: StrNo,
        ask: AnyAsk,
    ) -> Result<Told, CallRefused>
        requires desk { IsDeskOf self.now desk.old }
        requires place { on.0 < length self.now.cells }
        requires ask { IfSome (cell_on self.now on) (λ cell. IsAskOf cell ask) }
        requires may { MayAskAny desk.old.owner ask }
        ensures later { IfOk result (λ told. (pass_at desk.old on).known < told.no) }
        ensures answered { IfOk result (λ told. IsAnsweredOn on ask told desk.old desk.new) }
        ensures refused { IfErr result (λ _. IsLaterOn on desk.old desk.new) }
        ensures no_memory { IfErr result (λ refusal. refusal ≡ refused.NoMemory want
            → desk.new ≡ desk.old) }
        ensures full { IfErr result (λ refusal. refusal ≢ refused.NoMemory want
            → IfSome (cell_on self.now on) (λ cell. (refusal ≡ refused.JournalFull cell.limit)
            × (cell.limit ≤ (pass_at desk.new on).known))) }
        ensures of_board { IsDeskOf self.now desk.new }
    {
        self.stations[usize::from(on.0)].call(rt, alloc, &mut desk.places[usize::from(on.0)], ask)
    }

    /// The reply to a call of the desk's owner to a structure, by the call's number: a copy of the
    /// one that the structure's history has. `None` where no call of the owner's there has that
    /// number. It is no call itself: it waits for its turn, stands in no journal, and changes nothing
    /// of the structure. The desk may have seen more of the structure complete by it.
    ///
    /// # Errors
    ///
    /// `NoMemory` for the copy; then the desk is as it was, and the reply may be asked for again.
    pub fn reply(
        &self,
        rt: &impl Wait,
        alloc: Global,
        desk: &mut Desk,
        on: StrNo,
        no: u32,
    ) -> Result<Option<AnyReply>, NoMemory>
        requires desk { IsDeskOf self.now desk.old }
        requires place { on.0 < length self.now.cells }
        ensures reply { IfOk result (λ reply. reply
            ≡ reply_numbered no (pass_at desk.old on).replies) }
        ensures own { IfOk result (λ reply. is_some reply
            ≡ is_some (call_numbered no (pass_at desk.old on).calls)) }
        ensures later { IsLaterOn on desk.old desk.new }
        ensures no_memory { IfErr result (λ _. desk.new ≡ desk.old) }
        ensures of_board { IsDeskOf self.now desk.new }
    {
        self.stations[usize::from(on.0)].reply(rt, alloc, &mut desk.places[usize::from(on.0)], no)
    }

    /// Tests a bit of the owner's vector at a structure: no lock, no memory, no waiting (IXLVECTR
    /// TESTLOCALCACHE and TESTLISTSTATE). The operator has no vectors.
    pub fn test(&self, desk: &mut Desk, on: StrNo, index: u32) -> Tested
        requires desk { IsDeskOf self.now desk.old }
        requires place { on.0 < length self.now.cells }
        requires caller { 0 < desk.old.owner.0 }
        requires index { IfSome (cell_on self.now on) (λ cell. index < cell.words.len) }
        ensures later { (pass_at desk.old on).known ≤ result.at }
        ensures tested { (let pass = pass_at desk.old on in desk.new ≡ with_pass on (record pass {
          known = result.at;
          tests = pass.tests
              ++ record { index = index; bit = result.bit; at = result.at; sure = pass.sure } ∷ [];
        }) desk.old) }
        ensures of_board { IsDeskOf self.now desk.new }
    {
        self.stations[usize::from(on.0)].test(&mut desk.places[usize::from(on.0)], index)
    }

    /// Tests the 32 bits of a word of the owner's vector at a structure.
    pub fn test_word(&self, desk: &mut Desk, on: StrNo, word: u32) -> TestedWord
        requires desk { IsDeskOf self.now desk.old }
        requires place { on.0 < length self.now.cells }
        requires caller { 0 < desk.old.owner.0 }
        requires word { IfSome (cell_on self.now on) (λ cell. word < words_of cell.words.len) }
        ensures later { (pass_at desk.old on).known ≤ result.at }
        ensures tested { (let pass = pass_at desk.old on in desk.new ≡ with_pass on (record pass {
          known = result.at;
          tests = pass.tests ++ map (sight result.bits result.at pass.sure) (indices_of word);
        }) desk.old) }
        ensures of_board { IsDeskOf self.now desk.new }
    {
        self.stations[usize::from(on.0)].test_word(&mut desk.places[usize::from(on.0)], word)
    }

    /// Puts a note of what the owner has seen of a structure into the structure's box, in place of
    /// the one there. It answers the number of a call that the owner has seen complete.
    pub fn post(&self, rt: &impl Wait, desk: &mut Desk, on: StrNo) -> u32
        requires desk { IsDeskOf self.now desk.old }
        requires place { on.0 < length self.now.cells }
        ensures desk { desk.new ≡ desk.old }
        ensures sure { result ≡ (pass_at desk.old on).sure }
        ensures ordered { result ≤ (pass_at desk.old on).known }
    {
        self.stations[usize::from(on.0)].post(rt, &mut desk.places[usize::from(on.0)])
    }

    /// Tells the owner the note in a structure's box. It answers the number of a call that the
    /// owner has now seen complete.
    pub fn take(&self, rt: &impl Wait, desk: &mut Desk, on: StrNo) -> u32
        requires desk { IsDeskOf self.now desk.old }
        requires place { on.0 < length self.now.cells }
        ensures later { IsLaterOn on desk.old desk.new }
        ensures sure { result ≡ (pass_at desk.new on).sure }
        ensures ordered { result ≤ (pass_at desk.new on).known }
        ensures of_board { IsDeskOf self.now desk.new }
    {
        self.stations[usize::from(on.0)].take(rt, &mut desk.places[usize::from(on.0)])
    }

    /// A tray without notes.
    pub fn new_tray(&self, alloc: Global) -> Result<Tray, NoMemory>
        ensures notes { IfOk result (λ tray. tray ≡ no_notes self.now) }
        ensures of_board { IfOk result (IsTrayOf self.now) }
    {
        let mut slots = Vec::new(alloc);
        for _ in 0..self.stations.len() {
            slots.push(None)?;
        }
        Ok(Tray { slots })
    }

    /// Puts a note of what the owner has seen of a structure into a tray, in place of the one
    /// there.
    pub fn post_in(&self, desk: &mut Desk, tray: &mut Tray, on: StrNo) -> u32
        requires desk { IsDeskOf self.now desk.old }
        requires tray { IsTrayOf self.now tray.old }
        requires place { on.0 < length self.now.cells }
        ensures desk { desk.new ≡ desk.old }
        ensures tray { tray.new
            ≡ slice_set tray.old on.0 (Some (note_of (pass_at desk.old on))) }
        ensures sure { result ≡ (pass_at desk.old on).sure }
        ensures ordered { result ≤ (pass_at desk.old on).known }
        ensures of_board { IsTrayOf self.now tray.new }
    {
        self.stations[usize::from(on.0)].post_in(
            &mut desk.places[usize::from(on.0)],
            &mut tray.slots[usize::from(on.0)],
        )
    }

    /// Tells the owner the note of a structure in a tray, if there is one.
    pub fn take_in(&self, desk: &mut Desk, tray: &mut Tray, on: StrNo) -> u32
        requires desk { IsDeskOf self.now desk.old }
        requires tray { IsTrayOf self.now tray.old }
        requires place { on.0 < length self.now.cells }
        ensures desk { desk.new ≡ with_pass on
            (with_any_note (note_in tray.old on) (pass_at desk.old on)) desk.old }
        ensures tray { tray.new ≡ tray.old }
        ensures sure { result ≡ (pass_at desk.new on).sure }
        ensures ordered { result ≤ (pass_at desk.new on).known }
        ensures of_board { IsDeskOf self.now desk.new }
    {
        self.stations[usize::from(on.0)].take_in(
            &mut desk.places[usize::from(on.0)],
            &mut tray.slots[usize::from(on.0)],
        )
    }

    /// Tells one desk's owner what another's has seen of a structure, from hand to hand: no lock.
    /// It answers the number of a call that the first has now seen complete.
    pub fn hear(&self, desk: &mut Desk, from: &mut Desk, on: StrNo) -> u32
        requires desk { IsDeskOf self.now desk.old }
        requires from { IsDeskOf self.now from.old }
        requires place { on.0 < length self.now.cells }
        ensures desk { desk.new ≡ with_pass on
            (with_note (note_of (pass_at from.old on)) (pass_at desk.old on)) desk.old }
        ensures from { from.new ≡ from.old }
        ensures sure { result ≡ (pass_at desk.new on).sure }
        ensures ordered { result ≤ (pass_at desk.new on).known }
        ensures of_board { IsDeskOf self.now desk.new }
    {
        self.stations[usize::from(on.0)].hear(
            &mut desk.places[usize::from(on.0)],
            &mut from.places[usize::from(on.0)],
        )
    }

    /// Ends the board: the history of each structure, and the links in their order, those of each
    /// structure asked as its history tells. It may wait for turns, and takes no memory.
    pub fn close(self, rt: &impl Wait, desks: Vec<Desk>) -> (Vec<AnyHistory>, Vec<L>)
        requires desks { All (IsDeskOf self) desks.items }
        requires owners { map (λ desk. desk.owner.0) desks.items
            ≡ range_with_len 0 (self.callers + 1) }
        ensures histories { AreClosed self desks.items result.0.items }
        ensures links { AreLinksAsked L.calls L.downs L.faults self result.0.items result.1.items }
    {
        let Board {
            stations,
            callers: _,
            rest,
        } = self;
        let mut rest = rest.end(rt);
        gather(&mut rest.homes, desks);
        end(rt, stations, rest)
    }
}
