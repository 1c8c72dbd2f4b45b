//! A pair.
ghost use Rattle.std.specs.Prelude.{◌≡◌, ◌≢◌, ◌++◌, ◌≤◌, ◌<◌, IfSome, IfOk, OnOk, Some, None, true, is_some, is_err, length, option_map, slice_get};
ghost use Rattle.cf_types.specs.Forms.{IsFacility, IsCaller};
ghost use Rattle.cf_types.specs.Gains.{Gains};
ghost use Rattle.cf_types.specs.declared.numbers.CfId.{CfId};
ghost use Rattle.cf_link.specs.Asks.{IsAsked, IsAskedWhere};
ghost use Rattle.cf_types.specs.declared.effects.Effects.{Effects};
ghost use Rattle.engine_api.specs.Meaning.{Wish, answer, with_departure, with_back, with_forgotten, items_of};
ghost use Rattle.engine_api.specs.Meaning.Wish.{ForCmd, ForLeave, ForForget};
ghost use Rattle.duplex_pair.specs.Pairs.{instances_of, facility_of, stands_at, is_lost_at, without_lost, without_at, engine_at, content_of, bits_of, letters_by, letters_on_leave, AreReady};
ghost use Rattle.cf_link.specs.Links.{link_at};

use crate::ended::Ended;
use crate::instances::{drop_lost, engine_in, place_of, take_at};
use crate::lost::Lost;
use crate::placed::Placed;
use crate::reached::{ask_instance, is_down};
use crate::together::{
    follow_command, follow_forget, follow_leave, for_command, for_forget, for_leave, fresh_spare,
    make_room, take_back,
};
use cf_link::{Down, Link, Links};
use cf_types::{Caps, CfId, ConnId, Effects, NoMemory, Refusal};
use engine_api::Engine;
use std::alloc::Global;
use std::marker::Model;

/// The instances of a structure: one, or a duplexed pair, of which both have the same content; and
/// the links to the facilities. What is done is done to both, and answered once.
#[derive(Drop)]
pub struct Pair<E: Engine, L: Link> {
    primary: Option<Placed<E>>,
    secondary: Option<Placed<E>>,
    // what the secondary brings beside the primary, which has told it already
    spare: Effects,
    links: Links<L>,
}

impl<E: Engine, L: Link> Model for Pair<E, L> {
    ghost use Rattle.duplex_pair.specs.Pairs.{PairView, AreNone, ArePaired};

    ghost Value = { PairView E L };

    ghost view = { λ p. record {
      primary = p.primary;
      secondary = p.secondary;
      spare = p.spare;
      links = p.links;
    } };

    ghost invariant = { λ p. ArePaired E.held p.primary p.secondary × AreNone p.spare };
}

impl<E: Engine, L: Link> Pair<E, L> {
    /// No instance yet.
    pub fn bare(alloc: Global, links: Links<L>) -> Pair<E, L>
        ensures primary { result.primary ≡ None }
        ensures secondary { result.secondary ≡ None }
        ensures links { result.links ≡ links }
    {
        Pair {
            primary: None,
            secondary: None,
            spare: Effects::new(alloc),
            links,
        }
    }

    /// One instance, which stands in this facility.
    pub fn one(alloc: Global, engine: E, at: CfId, links: Links<L>) -> Pair<E, L>
        requires place { IsFacility at }
        ensures primary { result.primary ≡ Some (record { engine = engine; at = at }) }
        ensures secondary { result.secondary ≡ None }
        ensures links { result.links ≡ links }
    {
        let mut pair = Pair::bare(alloc, links);
        pair.place(engine, at);
        pair
    }

    /// The first instance, which stands in this facility.
    pub fn place(&mut self, engine: E, at: CfId)
        requires place { IsFacility at }
        requires bare { self.old.primary ≡ None }
        ensures { self.new
            ≡ record self.old { primary = Some (record { engine = engine; at = at }) } }
    {
        self.primary = Some(Placed { engine, at });
    }

    /// A second instance, in another facility, with the same content and capacity.
    pub fn add(&mut self, second: E, at: CfId)
        requires place { IsFacility at }
        requires stands { is_some self.old.primary ≡ true }
        requires alone { self.old.secondary ≡ None }
        requires apart { IfSome (facility_of self.old.primary) (λ cf. at.0 ≢ cf.0) }
        requires alike { Some (E.held second) ≡ content_of E.held self.old }
        ensures { self.new
            ≡ record self.old { secondary = Some (record { engine = second; at = at }) } }
    {
        self.secondary = Some(Placed { engine: second, at });
    }

    /// Asks the link of each instance, the primary's first, and drops those that answer that they
    /// are lost. The secondary takes the place of a primary that is lost. It takes no memory.
    pub fn ask(&mut self) -> Lost
        ensures first { IfSome result.first (λ cf. facility_of self.old.primary ≡ Some cf) }
        ensures second { IfSome result.second (λ cf. facility_of self.old.secondary ≡ Some cf) }
        ensures left { self.new ≡ record (without_lost result self.old) { links = self.new.links } }
        ensures content { is_some self.new.primary ≡ true
            → content_of E.held self.new ≡ content_of E.held self.old }
        ensures ready { (wish : Wish E.Cmd) (out : Effects) → AreReady E.is_ready self.old wish out
            → AreReady E.is_ready self.new wish out }
        ensures links { (cf : CfId) → IsFacility cf → IsAskedWhere L.calls L.downs L.faults
            (stands_at cf self.old) (is_lost_at cf result)
            (link_at self.old.links cf) (link_at self.new.links cf) }
    {
        let first = ask_instance(&mut self.links, &self.primary);
        let second = ask_instance(&mut self.links, &self.secondary);
        let lost = Lost { first, second };
        drop_lost(&mut self.primary, &mut self.secondary, lost);
        lost
    }

    /// Asks the link to a facility once. Nothing is dropped, and it takes no memory.
    ///
    /// # Errors
    ///
    /// `Down` where the link answers so.
    pub fn ask_at(&mut self, cf: CfId) -> Result<(), Down>
        requires place { IsFacility cf }
        ensures same { self.new ≡ record self.old { links = self.new.links } }
        ensures ready { (wish : Wish E.Cmd) (out : Effects) → AreReady E.is_ready self.old wish out
            → AreReady E.is_ready self.new wish out }
        ensures asked { IsAsked L.calls L.downs L.faults (is_err result)
            (link_at self.old.links cf) (link_at self.new.links cf) }
        ensures others { (other : CfId) → IsFacility other → other.0 ≢ cf.0
            → link_at self.new.links other ≡ link_at self.old.links other }
    {
        if is_down(&mut self.links, cf) {
            Err(Down)
        } else {
            Ok(())
        }
    }

    /// The primary.
    pub fn primary(&self) -> &E
        requires stands { is_some self.now.primary ≡ true }
        ensures { Some result.now ≡ option_map (λ p. p.engine) self.now.primary }
    {
        match &self.primary {
            Some(placed) => &placed.engine,
            None => unreachable!(),
        }
    }

    /// Takes the instance in a facility out of the pair. Where another is left, that one is the
    /// primary. It takes no memory.
    pub fn drop_at(&mut self, cf: CfId) -> E
        requires there { stands_at cf self.old ≡ true }
        ensures handed { Some result ≡ engine_at cf self.old }
        ensures content { Some (E.held result) ≡ content_of E.held self.old }
        ensures left { self.new ≡ without_at cf self.old }
        ensures other { is_some self.new.primary ≡ true
            → content_of E.held self.new ≡ content_of E.held self.old }
        ensures ready { (wish : Wish E.Cmd) (out : Effects) → AreReady E.is_ready self.old wish out
            → AreReady E.is_ready self.new wish out }
    {
        take_at(&mut self.primary, &mut self.secondary, cf)
    }

    /// Drops the secondary, and tells where it stood.
    pub fn drop_second(&mut self) -> Option<CfId>
        ensures place { result ≡ facility_of self.old.secondary }
        ensures left { self.new ≡ record self.old { secondary = None } }
    {
        let place = place_of(&self.secondary);
        self.secondary = None;
        place
    }

    /// Drops every instance.
    pub fn drop_all(&mut self)
        ensures { self.new ≡ record self.old { primary = None; secondary = None } }
    {
        self.secondary = None;
        self.primary = None;
    }

    /// Where the primary and the secondary stand.
    pub fn places(&self) -> (Option<CfId>, Option<CfId>)
        ensures first { result.0 ≡ facility_of self.now.primary }
        ensures second { result.1 ≡ facility_of self.now.secondary }
        ensures first_at { IfSome result.0 IsFacility }
        ensures second_at { IfSome result.1 IsFacility }
    {
        (place_of(&self.primary), place_of(&self.secondary))
    }

    /// Ends the pair: what is left of it is handed out. It takes no memory.
    pub fn end(self) -> Ended<E, L>
        ensures first { result.first ≡ option_map (λ p. p.engine) self.primary }
        ensures second { result.second ≡ option_map (λ p. p.engine) self.secondary }
        ensures content { IfSome result.second
            (λ engine. Some (E.held engine) ≡ content_of E.held self) }
        ensures links { result.links ≡ self.links }
    {
        let Pair {
            primary,
            secondary,
            links,
            ..
        } = self;
        Ended {
            first: engine_in(primary),
            second: engine_in(secondary),
            links,
        }
    }

    /// Gives back the room that earlier calls took for what the secondary brings: all of it where no
    /// secondary stands, and room for many letters.
    pub fn renew(&mut self, alloc: Global)
        ensures { self.new ≡ record self.old { spare = self.new.spare } }
    {
        fresh_spare(alloc, &self.secondary, &mut self.spare);
    }

    /// Takes all memory that a command on the content, its reply and its effects need, whichever
    /// instance is lost before it is done.
    pub fn ready(&mut self, by: ConnId, cmd: &E::Cmd, out: &mut Effects) -> Result<(), NoMemory>
        requires caller { IsCaller by }
        ensures ready { OnOk result (AreReady E.is_ready self.new (ForCmd by cmd.now) out.new) }
        ensures content { content_of E.held self.new ≡ content_of E.held self.old }
        ensures places { instances_of self.new ≡ instances_of self.old }
        ensures links { self.new.links ≡ self.old.links }
        ensures bits { out.new.bits.items ≡ out.old.bits.items }
        ensures mail { out.new.mail.items ≡ out.old.mail.items }
    {
        for_command(&mut self.primary, by, cmd, out)?;
        for_command(&mut self.secondary, by, cmd, &mut self.spare)?;
        make_room(out, &self.spare)
    }

    /// Does a command on the content, or refuses it: once, and with one reply, whatever instances
    /// there are.
    pub fn apply(
        &mut self,
        by: ConnId,
        cmd: &E::Cmd,
        out: &mut Effects,
    ) -> Result<E::Reply, Refusal>
        requires caller { IsCaller by }
        requires stands { is_some self.old.primary ≡ true }
        requires ready { AreReady E.is_ready self.old (ForCmd by cmd.now) out.old }
        ensures step { option_map (λ held. record { reply = result; held = held })
            (content_of E.held self.new)
            ≡ option_map (λ held. answer E.meaning held by cmd.now) (content_of E.held self.old) }
        ensures places { instances_of self.new ≡ instances_of self.old }
        ensures links { self.new.links ≡ self.old.links }
        ensures bits { Gains (bits_of E.meaning (content_of E.held self.old))
            (bits_of E.meaning (content_of E.held self.new))
            out.old.bits.items out.new.bits.items }
        ensures mail { out.new.mail.items ≡ out.old.mail.items
            ++ letters_by E.meaning by cmd.now (content_of E.held self.old) }
        ensures fits { length (letters_by E.meaning by cmd.now (content_of E.held self.old)) ≤
            out.old.mail.room }
    {
        follow_command(&mut self.secondary, by, cmd, &mut self.spare);
        match &mut self.primary {
            Some(placed) => placed.engine.apply(by, cmd, out),
            None => unreachable!(),
        }
    }

    /// Takes all memory that a departure of the connector needs.
    pub fn leave_ready(&mut self, conn: ConnId, out: &mut Effects) -> Result<(), NoMemory>
        requires caller { IsCaller conn }
        ensures ready { OnOk result (AreReady E.is_ready self.new (ForLeave conn) out.new) }
        ensures content { content_of E.held self.new ≡ content_of E.held self.old }
        ensures places { instances_of self.new ≡ instances_of self.old }
        ensures links { self.new.links ≡ self.old.links }
        ensures bits { out.new.bits.items ≡ out.old.bits.items }
        ensures mail { out.new.mail.items ≡ out.old.mail.items }
    {
        for_leave(&mut self.primary, conn, out)?;
        for_leave(&mut self.secondary, conn, &mut self.spare)?;
        make_room(out, &self.spare)
    }

    /// The connector departs; with `keep`, interests that outlive a failure stay.
    pub fn leave(&mut self, conn: ConnId, keep: bool, out: &mut Effects)
        requires caller { IsCaller conn }
        requires stands { is_some self.old.primary ≡ true }
        requires ready { AreReady E.is_ready self.old (ForLeave conn) out.old }
        ensures content { content_of E.held self.new
            ≡ option_map (λ held. with_departure E.meaning held conn keep)
            (content_of E.held self.old) }
        ensures places { instances_of self.new ≡ instances_of self.old }
        ensures links { self.new.links ≡ self.old.links }
        ensures bits { Gains (bits_of E.meaning (content_of E.held self.old))
            (bits_of E.meaning (content_of E.held self.new))
            out.old.bits.items out.new.bits.items }
        ensures mail { out.new.mail.items ≡ out.old.mail.items
            ++ letters_on_leave E.meaning conn keep (content_of E.held self.old) }
        ensures fits { length (letters_on_leave E.meaning conn keep (content_of E.held self.old)) ≤
            out.old.mail.room }
    {
        follow_leave(&mut self.secondary, conn, keep, &mut self.spare);
        match &mut self.primary {
            Some(placed) => placed.engine.leave(conn, keep, out),
            None => unreachable!(),
        }
    }

    /// Takes all memory that the end of registrations needs.
    pub fn forget_ready(&mut self, out: &mut Effects) -> Result<(), NoMemory>
        ensures ready { OnOk result (AreReady E.is_ready self.new ForForget out.new) }
        ensures content { content_of E.held self.new ≡ content_of E.held self.old }
        ensures places { instances_of self.new ≡ instances_of self.old }
        ensures links { self.new.links ≡ self.old.links }
        ensures bits { out.new.bits.items ≡ out.old.bits.items }
        ensures mail { out.new.mail.items ≡ out.old.mail.items }
    {
        for_forget(&mut self.primary, out)?;
        for_forget(&mut self.secondary, &mut self.spare)?;
        make_room(out, &self.spare)
    }

    /// Registrations end, as they do with a rebuild.
    pub fn forget(&mut self, out: &mut Effects)
        requires stands { is_some self.old.primary ≡ true }
        requires ready { AreReady E.is_ready self.old ForForget out.old }
        ensures content { content_of E.held self.new
            ≡ option_map (with_forgotten E.meaning) (content_of E.held self.old) }
        ensures places { instances_of self.new ≡ instances_of self.old }
        ensures links { self.new.links ≡ self.old.links }
        ensures bits { Gains (bits_of E.meaning (content_of E.held self.old))
            (bits_of E.meaning (content_of E.held self.new))
            out.old.bits.items out.new.bits.items }
        ensures mail { out.new.mail.items ≡ out.old.mail.items }
    {
        follow_forget(&mut self.secondary, &mut self.spare);
        match &mut self.primary {
            Some(placed) => placed.engine.forget(out),
            None => unreachable!(),
        }
    }

    /// A failed connection is taken up again.
    pub fn back(&mut self, conn: ConnId)
        requires caller { IsCaller conn }
        ensures content { content_of E.held self.new
            ≡ option_map (λ held. with_back E.meaning held conn) (content_of E.held self.old) }
        ensures places { instances_of self.new ≡ instances_of self.old }
        ensures links { self.new.links ≡ self.old.links }
    {
        take_back(&mut self.primary, conn);
        take_back(&mut self.secondary, conn);
    }

    /// How many items the content has.
    pub fn count(&self) -> u32
        requires stands { is_some self.now.primary ≡ true }
        ensures { Some result ≡ option_map (λ held. length (items_of E.meaning held))
            (content_of E.held self.now) }
    {
        self.primary().count()
    }

    /// A copy of an item, counted from 0.
    pub fn item(&self, alloc: Global, k: u32) -> Result<E::Item, NoMemory>
        requires stands { is_some self.now.primary ≡ true }
        requires there { IfSome (content_of E.held self.now)
            (λ held. k < length (items_of E.meaning held)) }
        ensures { IfOk result (λ item. IfSome (content_of E.held self.now)
            (λ held. slice_get (items_of E.meaning held) k ≡ Some item)) }
    {
        self.primary().item(alloc, k)
    }

    /// The entries and elements that the content needs.
    pub fn need(&self) -> Caps
        requires stands { is_some self.now.primary ≡ true }
        ensures { Some result ≡ option_map (λ held. E.meaning.need (items_of E.meaning held))
            (content_of E.held self.now) }
    {
        self.primary().need()
    }

    /// The capacity of each instance.
    pub fn capacity(&self) -> Caps
        requires stands { is_some self.now.primary ≡ true }
        ensures { Some result ≡ option_map (λ held. held.caps) (content_of E.held self.now) }
    {
        self.primary().capacity()
    }

    /// The bit of the connector's vector at the index.
    pub fn stands(&self, conn: ConnId, index: u32) -> bool
        requires caller { IsCaller conn }
        requires stands { is_some self.now.primary ≡ true }
        ensures { result ≡ bits_of E.meaning (content_of E.held self.now) conn index }
    {
        self.primary().stands(conn, index)
    }
}
