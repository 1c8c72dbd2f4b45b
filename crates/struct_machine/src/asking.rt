//! The links that a call asks.
ghost use Rattle.std.specs.Prelude.{◌≡◌, ◌++◌, ◌∷◌, [], All, if◌then◌else◌, IfSome, None, Some, true, false, is_some};
ghost use Rattle.duplex_pair.specs.CfLink.Links.{AreAsked};
ghost use Rattle.cf_types.specs.Forms.{IsFacility};
ghost use Rattle.cf_types.specs.declared.effects.Effects.{Effects};
ghost use Rattle.duplex_pair.specs.Pairs.{AreReady};
ghost use Rattle.engine_api.specs.LinkAsks.{AreDistinct, answers_to, apart, has, listed, marks_of};
ghost use Rattle.engine_api.specs.Meaning.{Wish};
ghost use Rattle.struct_machine.specs.Turns.{asks_in, marks_in};
ghost use Rattle.struct_machine.specs.Asking.{unless_same};

use crate::content::Content;
use cf_types::CfId;
use duplex_pair::Lost;
use duplex_pair::links::Link;
use engine_api::Engine;

/// The facilities whose links a call asks: `first` before `second`, each once.
#[derive(Clone, Copy)]
pub struct Asked {
    pub first: Option<CfId>,
    pub second: Option<CfId>,
    /// Whether `second` is left out where the link to `first` is down.
    pub stops: bool,
}

impl Asked {
    /// These two, each once.
    #[tactic(auto, using(crate::proofs::AskingLaws::apart_both, crate::proofs::AskingLaws::places_both, engine_api::proofs::AskLaws::distinct_apart))]
    pub(crate) fn both(first: Option<CfId>, second: Option<CfId>, stops: bool) -> Asked
        requires first_at { IfSome first IsFacility }
        requires second_at { IfSome second IsFacility }
        ensures asks { asks_in result
            ≡ record { links = apart (listed first ++ listed second); stops = stops } }
        ensures places { All IsFacility (asks_in result).links }
        ensures apart { AreDistinct (asks_in result).links }
        ensures first { result.first ≡ first }
        ensures second { result.second ≡ unless_same first second }
        ensures stops { result.stops ≡ stops }
    {
        Asked {
            first,
            second: unless_same(first, second),
            stops,
        }
    }
}

// The second, unless it is the first.
fn unless_same(first: Option<CfId>, second: Option<CfId>) -> Option<CfId>
    ensures { result ≡ unless_same first second }
{
    match first {
        Some(one) => match second {
            Some(two) => { if one.0 == two.0 { None } else { Some(two) } }
            None => None,
        },
        None => second,
    }
}

/// Asks the links that a call asks.
pub(crate) fn ask_links<E: Engine, L: Link>(content: &mut Content<E, L>, asked: Asked) -> Lost
    requires places { All IsFacility (asks_in asked).links }
    requires apart { AreDistinct (asks_in asked).links }
    ensures marks { marks_in result ≡ marks_of (has (marks_in result)) (asks_in asked) }
    ensures asked { AreAsked L.calls L.downs L.faults
        (answers_to (has (marks_in result)) (asks_in asked))
        content.old.pair.links content.new.pair.links }
    ensures first { IfSome result.first (λ cf. asked.first ≡ Some cf) }
    ensures second { IfSome result.second (λ cf. asked.second ≡ Some cf) }
    ensures stopped { asked.stops ≡ true → is_some result.first ≡ true → result.second ≡ None }
    ensures same { content.new ≡ record content.old {
      pair = record content.old.pair { links = content.new.pair.links };
    } }
    ensures ready { (wish : Wish E.Cmd) (out : Effects)
        → AreReady E.is_ready content.old.pair wish out
        → AreReady E.is_ready content.new.pair wish out }
{
    let first = ask_place(content, asked.first);
    if asked.stops && first.is_some() {
        return Lost {
            first,
            second: None,
        };
    }
    let second = ask_place(content, asked.second);
    Lost { first, second }
}

// Asks the link to a facility, where one is named. The facility is told where it is down.
fn ask_place<E: Engine, L: Link>(content: &mut Content<E, L>, at: Option<CfId>) -> Option<CfId>
    requires places { All IsFacility (listed at) }
    ensures marks { listed result
        ≡ marks_of (has (listed result)) (record { links = listed at; stops = false }) }
    ensures asked { AreAsked L.calls L.downs L.faults
        (answers_to (has (listed result)) (record { links = listed at; stops = false }))
        content.old.pair.links content.new.pair.links }
    ensures there { IfSome result (λ cf. at ≡ Some cf) }
    ensures same { content.new ≡ record content.old {
      pair = record content.old.pair { links = content.new.pair.links };
    } }
    ensures ready { (wish : Wish E.Cmd) (out : Effects)
        → AreReady E.is_ready content.old.pair wish out
        → AreReady E.is_ready content.new.pair wish out }
{
    match at {
        Some(cf) => ask_facility(content, cf),
        None => None,
    }
}

// Asks the link to a facility. It is told where the link is down.
#[tactic(auto, using(crate::proofs::AskingLaws::asked_place, crate::proofs::AskingLaws::marks_single, crate::proofs::AskingLaws::told_single))]
fn ask_facility<E: Engine, L: Link>(content: &mut Content<E, L>, cf: CfId) -> Option<CfId>
    requires place { IsFacility cf }
    ensures marks { listed result
        ≡ marks_of (has (listed result)) (record { links = cf ∷ []; stops = false }) }
    ensures asked { AreAsked L.calls L.downs L.faults
        (answers_to (has (listed result)) (record { links = cf ∷ []; stops = false }))
        content.old.pair.links content.new.pair.links }
    ensures there { IfSome result (λ place. place ≡ cf) }
    ensures same { content.new ≡ record content.old {
      pair = record content.old.pair { links = content.new.pair.links };
    } }
    ensures ready { (wish : Wish E.Cmd) (out : Effects)
        → AreReady E.is_ready content.old.pair wish out
        → AreReady E.is_ready content.new.pair wish out }
{
    let down = content.is_down(cf);
    if_down(cf, down)
}

// A facility, where its link is down.
fn if_down(cf: CfId, down: bool) -> Option<CfId>
    ensures { result ≡ (if down then Some cf else None) }
{
    if down { Some(cf) } else { None }
}
