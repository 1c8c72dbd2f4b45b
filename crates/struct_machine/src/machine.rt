ghost use Rattle.std.specs.Prelude.{◌≡◌, ◌≤◌, ℕ, All, IfOk, IfErr, OnOk, OnErr, IsTrue, IfSome, Some, is_some, option_map, true};
ghost use Rattle.cf_types.specs.Forms.{IsForm, IsCaller, IsFacility};
ghost use Rattle.cf_types.specs.declared.limits.TheConstants.{CONNECTORS};
ghost use Rattle.cf_types.specs.declared.numbers.ConnId.{ConnId};
ghost use Rattle.engine_api.specs.Asking.{MayAsk};
ghost use Rattle.engine_api.specs.declared.asks.Reply.TheVariants as replies;
ghost use Rattle.engine_api.specs.LinkAsks.{links_asked};
ghost use Rattle.engine_api.specs.Machine.{loss_step};
ghost use Rattle.engine_api.specs.Meaning.{items_of};
ghost use Rattle.engine_api.specs.Rebuilds.{fresh_of};
ghost use Rattle.engine_api.specs.Shapes.{shape_of};
ghost use Rattle.engine_api.specs.Shell.{stands_at as is_place};
ghost use Rattle.plex_shell.specs.Losses.{reply_as};
ghost use Rattle.shell_laws.specs.Capacities.{fresh_caps};
ghost use Rattle.struct_machine.specs.Changes.{Names, may_be_any};
ghost use Rattle.struct_machine.specs.Kept.{answered};
ghost use Rattle.struct_machine.specs.Turns.{IsTurn, asks_in};
ghost use Rattle.struct_machine.specs.StructureView.{new_structure, stands_at, copied_items};

use crate::asking::Asked;
use crate::asks::asks;
use crate::changed::Changed;
use crate::content::{Content, Left};
use crate::doing::answer;
use crate::losing::lose_marked;
use cf_types::{CfId, ConnId, NoMemory, StrForm};
use duplex_pair::links::{Link, Links};
use engine_api::{Ask, Engine, Reply};
use plex_shell::{LostAs, Shell};
use std::alloc::Global;
use std::marker::Model;

/// A structure on one thread: its shell, and its instances with the links to them. It keeps no
/// journal: contracts see the form and the state that the calls so far have led to.
#[derive(Drop)]
pub struct Machine<E: Engine, L: Link> {
    shell: Shell,
    content: Content<E, L>,
}

impl<E: Engine, L: Link> Model for Machine<E, L> {
    ghost use Rattle.std.specs.Prelude.{IsTrue};
    ghost use Rattle.struct_machine.specs.Content.{kept_of};
    ghost use Rattle.struct_machine.specs.StructureView.{StructureView};
    ghost use Rattle.struct_machine.specs.Kept.{AreOf, machine_of};

    ghost Value = { StructureView E.State L };

    ghost view = { λ m. record {
      form = m.shell.form;
      machine = machine_of E.meaning m.shell (kept_of E.held m.content);
      links = m.content.pair.links;
    } };

    ghost invariant = { λ m. AreOf E.meaning m.shell (kept_of E.held m.content)
        × IsTrue (E.is_kind m.shell.form.kind) };
}

/// What is left of a structure that ends: its instances, where they stand, and the links.
#[derive(Drop)]
pub struct Parts<E, L> {
    /// The primary.
    pub first: Option<E>,
    /// The secondary.
    pub second: Option<E>,
    /// The new instance of a rebuild.
    pub fresh: Option<E>,
    pub links: Links<L>,
}

impl<E: Engine, L: Link> Machine<E, L> {
    /// A structure of this form, without calls yet. `callers` is the greatest number of a connector
    /// for whose letters room is taken already.
    ///
    /// # Errors
    ///
    /// The links with the cause, where memory lacks.
    pub fn start(
        alloc: Global,
        form: StrForm,
        callers: u8,
        links: Links<L>,
    ) -> Result<Machine<E, L>, (Links<L>, NoMemory)>
        requires formed { IsForm form }
        requires kind { IsTrue (E.is_kind form.kind) }
        requires callers { callers ≤ CONNECTORS }
        ensures ok { IfOk result (λ machine. machine ≡ new_structure E.meaning form links) }
        ensures err { IfErr result (λ back. back.0 ≡ links) }
    {
        let shell = match Shell::start(alloc, form, callers) {
            Ok(shell) => shell,
            Err(cause) => return Err((links, cause)),
        };
        let content = Content::bare(alloc, links);
        Ok(Machine { shell, content })
    }

    /// The form.
    pub fn form(&self) -> &StrForm
        ensures form { result.now ≡ self.now.form }
        ensures formed { IsForm result.now }
        ensures of_engine { IsTrue (E.is_kind result.now.kind) }
    {
        self.shell.form()
    }

    /// What structures of each kind have alike: connections, events, and where instances stand.
    pub fn shell(&self) -> &Shell
        ensures form { result.now.form ≡ self.now.form }
        ensures shell { result.now.shell ≡ self.now.machine.shell }
    {
        &self.shell
    }

    /// The primary, where one stands.
    pub fn primary(&self) -> Option<&E>
        ensures stands { is_some result ≡ is_some self.now.machine.shell.instances.primary }
        ensures content { IfSome result
            (λ engine. (E.held engine.now).state ≡ self.now.machine.content) }
        ensures shape { IfSome result
            (λ engine. (E.held engine.now).shape ≡ shape_of self.now.form) }
        ensures caps { IfSome result
            (λ engine. (E.held engine.now).caps ≡ self.now.machine.shell.caps) }
    {
        self.content.first()
    }

    /// The bit of a connector's vector.
    pub fn stands(&self, conn: ConnId, index: u32) -> bool
        requires { IsCaller conn }
        ensures { result ≡ stands_at E.meaning self.now.machine conn index }
    {
        self.content.stands(conn, index)
    }

    /// A call is judged, its links are asked, and it is judged again behind what they tell and done
    /// where nothing refuses it. The marks are told, and the vector bits that changed: any of them
    /// where a mark or the command's deeds may have changed others than those that are named. Want
    /// of memory changes nothing of the structure, and asks no link.
    pub fn answer(
        &mut self,
        alloc: Global,
        by: ConnId,
        ask: &Ask<E::Cmd>,
        changed: &mut Changed,
    ) -> Result<Reply<E::Reply>, NoMemory>
        requires may { MayAsk by ask.now }
        ensures form { self.new.form ≡ self.old.form }
        ensures turn { IfOk result (λ reply. IsTurn L.calls L.downs L.faults E.meaning
            self.old self.new by ask.now changed.new.marks reply) }
        ensures all { OnOk result (changed.new.all ≡ may_be_any E.meaning self.old.form
            self.old.machine by ask.now changed.new.marks) }
        ensures bits { OnOk result (Names changed.new (stands_at E.meaning self.old.machine)
            (stands_at E.meaning self.new.machine)) }
        ensures err { OnErr result (self.new ≡ self.old) }
    {
        changed.clear();
        answer(alloc, &mut self.shell, &mut self.content, changed, by, ask)
    }

    /// The links that a call would ask: none where it is refused. Nothing is asked yet; `answer` asks
    /// these.
    pub fn asks(&self, by: ConnId, ask: &Ask<E::Cmd>) -> Asked
        requires may { MayAsk by ask.now }
        ensures asks { asks_in result
            ≡ links_asked E.meaning self.now.form self.now.machine by ask.now }
        ensures places { All IsFacility (asks_in result).links }
    {
        asks(&self.shell, &self.content, by, ask)
    }

    /// The instance in a facility is lost, as a mark tells it, and what becomes of the structure is
    /// told. No link is asked: the mark is taken at its word.
    ///
    /// # Errors
    ///
    /// Want of memory for the letters that tell connectors of it. Nothing has changed then.
    pub fn lose(&mut self, cf: CfId) -> Result<LostAs, NoMemory>
        requires facility { IsFacility cf }
        requires there { is_place self.old.machine.shell cf ≡ true }
        ensures form { self.new.form ≡ self.old.form }
        ensures links { self.new.links ≡ self.old.links }
        ensures lost { IfOk result (λ lost. answered (replies.Shell (reply_as lost)) self.new.machine
            ≡ loss_step E.meaning self.old.form self.old.machine cf) }
        ensures err { OnErr result (self.new ≡ self.old) }
    {
        lose_marked(&mut self.shell, &mut self.content, cf)
    }

    /// The instances where they stand: all of the structure's shape, the primary and the secondary
    /// with the same content at one capacity, and a rebuild's new one at its own; and the links.
    pub fn into_parts(self) -> Parts<E, L>
        ensures stands { is_some result.first ≡ is_some self.machine.shell.instances.primary }
        ensures content { IfSome result.first
            (λ engine. (E.held engine).state ≡ self.machine.content) }
        ensures shape { IfSome result.first
            (λ engine. (E.held engine).shape ≡ shape_of self.form) }
        ensures caps { IfSome result.first
            (λ engine. (E.held engine).caps ≡ self.machine.shell.caps) }
        ensures second { is_some result.second
            ≡ is_some self.machine.shell.instances.secondary }
        ensures same { IfSome result.second
            (λ engine. Some (E.held engine) ≡ option_map E.held result.first) }
        ensures fresh { is_some result.fresh ≡ is_some (fresh_of self.machine.shell.rebuild) }
        ensures front { IfSome result.fresh (λ engine. items_of E.meaning (E.held engine)
            ≡ copied_items E.meaning self.form self.machine) }
        ensures fresh_shape { IfSome result.fresh
            (λ engine. (E.held engine).shape ≡ shape_of self.form) }
        ensures fresh_caps { IfSome result.fresh (λ engine. Some (E.held engine).caps
            ≡ fresh_caps self.machine.shell.rebuild) }
        ensures links { result.links ≡ self.links }
    {
        let Machine { content, .. } = self;
        let Left {
            first,
            second,
            fresh,
            links,
        } = content.end();
        Parts {
            first,
            second,
            fresh,
            links,
        }
    }
}
