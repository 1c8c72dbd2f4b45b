ghost use Rattle.std.specs.Prelude.{◌≡◌, ◌∷◌, [], ◌<◌, ◌≤◌, nat_lt, length};
ghost use Rattle.std.specs.Result.{result_err};
ghost use Rattle.cf_types.specs.Forms.{IsCapacity};
ghost use Rattle.cf_types.specs.Forms.{IsCaller};
ghost use Rattle.engine_api.specs.Instances.{is_at, units_of, place_for, greatest_units};
ghost use Rattle.engine_api.specs.Meaning.{first_refusal};
ghost use Rattle.engine_api.specs.Shell.{stands_at, is_severed, is_candidate, candidates, if_no_place, if_severed, unless_reached, made_at, fresh_made};

use crate::shell::Shell;
use crate::verdicts::Judged;
use cf_types::{Caps, CfId, ConnId, Pref, Refusal};
use engine_api::rebuilds::Rebuild;

impl Shell {
    // Whether an instance stands in the facility.
    fn stands_at(&self, cf: CfId) -> bool
        ensures { result ≡ stands_at self.now.shell cf }
    {
        is_at(cf, self.primary) || (is_at(cf, self.secondary) || is_at(cf, self.fresh()))
    }

    // Whether the connector can't reach the facility.
    fn is_severed(&self, by: ConnId, cf: CfId) -> bool
        requires { IsCaller by }
        ensures { result ≡ is_severed self.now.shell by cf }
    {
        self.reach.severed_from(cf).has(by)
    }

    // Whether an instance can be made there for the connector: the facility isn't varied off, no
    // instance stands there, and the connector reaches it.
    fn is_candidate(&self, by: ConnId, pref: &Pref) -> bool
        requires { IsCaller by }
        ensures { result ≡ is_candidate self.now.shell by pref.now }
    {
        !self.off.has(pref.cf) && (!self.stands_at(pref.cf) && !self.is_severed(by, pref.cf))
    }

    /// The first candidate that has the units.
    pub(crate) fn place(&self, by: ConnId, units: u32) -> Option<CfId>
        requires { IsCaller by }
        ensures { result ≡ place_for units (candidates self.now.form self.now.shell by) }
    {
        for pref in self.form.prefs.items() {
            if self.is_candidate(by, pref) && units <= pref.units {
                return Some(pref.cf);
            }
        }
        None
    }

    // Whether there is a candidate.
    fn has_candidate(&self, by: ConnId) -> bool
        requires { IsCaller by }
        ensures { result ≡ nat_lt 0 (length (candidates self.now.form self.now.shell by)) }
    {
        for pref in self.form.prefs.items() {
            if self.is_candidate(by, pref) {
                return true;
            }
        }
        false
    }

    // The greatest units that a candidate has.
    fn greatest_units(&self, by: ConnId) -> u32
        requires { IsCaller by }
        ensures { result ≡ greatest_units (candidates self.now.form self.now.shell by) }
    {
        let mut most = 0;
        for pref in self.form.prefs.items() {
            if self.is_candidate(by, pref) {
                most = pref.units.max(most);
            }
        }
        most
    }

    /// Why no instance of this capacity can be made, if none can: no facility is there for it, or
    /// none is large enough.
    pub(crate) fn if_no_place(&self, by: ConnId, caps: Caps) -> Judged
        requires caller { IsCaller by }
        requires caps { IsCapacity caps }
        ensures { result_err result
            ≡ if_no_place (units_of caps) (candidates self.now.form self.now.shell by) }
    {
        let asked = units_of(caps);
        if self.place(by, asked).is_some() {
            Ok(())
        } else if self.has_candidate(by) {
            Err(Refusal::NoSpace {
                asked,
                free: self.greatest_units(by),
            })
        } else {
            Err(Refusal::NoFacility)
        }
    }

    /// An instance stands where the connector can't reach it.
    pub(crate) fn if_severed(&self, by: ConnId, at: Option<CfId>) -> Judged
        requires { IsCaller by }
        ensures { result_err result ≡ if_severed self.now.shell by at }
    {
        match at {
            Some(cf) if self.is_severed(by, cf) => Err(Refusal::LostConn { cf }),
            _ => Ok(()),
        }
    }

    /// Why a connector can't have a primary: none stands and none can be made, or it can't reach
    /// those that stand.
    pub(crate) fn unless_reached(&self, by: ConnId) -> Judged
        requires { IsCaller by }
        ensures { result_err result
            ≡ first_refusal (unless_reached self.now.form self.now.shell by) }
    {
        if self.primary.is_none() {
            self.if_no_place(by, self.caps)
        } else {
            self.unless_in_reach(by)
        }
    }

    /// A primary or a secondary stands where the connector can't reach it.
    pub(crate) fn unless_in_reach(&self, by: ConnId) -> Judged
        requires { IsCaller by }
        ensures { result_err result ≡ first_refusal (if_severed self.now.shell by
            self.now.shell.instances.primary
            ∷ if_severed self.now.shell by self.now.shell.instances.secondary ∷ []) }
    {
        self.if_severed(by, self.primary)?;
        self.if_severed(by, self.secondary)
    }

    /// Where a primary is to be made; none where one stands, or where none can be made.
    pub(crate) fn made_at(&self, by: ConnId) -> Option<CfId>
        requires { IsCaller by }
        ensures { result ≡ made_at self.now.form self.now.shell by }
    {
        if self.primary.is_none() {
            self.place(by, units_of(self.caps))
        } else {
            None
        }
    }

    /// Where a rebuild's new instance is to be made; none where it stands.
    pub(crate) fn fresh_made(&self, by: ConnId, rebuild: &Rebuild) -> Option<CfId>
        requires caller { IsCaller by }
        requires caps { IsCapacity rebuild.now.caps }
        ensures { result ≡ fresh_made self.now.form self.now.shell by rebuild.now }
    {
        if rebuild.fresh.is_none() {
            self.place(by, units_of(rebuild.caps))
        } else {
            None
        }
    }
}

/// Whether an instance that stands there, if there is one, stands in the facility.
pub(crate) fn is_at(cf: CfId, at: Option<CfId>) -> bool
    ensures { result ≡ is_at cf at }
{
    match at {
        None => false,
        Some(other) => other.0 == cf.0,
    }
}

/// The units that an instance of this capacity takes.
pub(crate) fn units_of(caps: Caps) -> u32
    requires { IsCapacity caps }
    ensures { result ≡ units_of caps }
{
    caps.entries + caps.elements
}
