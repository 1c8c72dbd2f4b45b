ghost use Rattle.std.specs.Prelude.{ℕ, IsTrue, true, List};
ghost use Rattle.cf_types.specs.declared.cache_commands.CacheCmd.{CacheCmd};
ghost use Rattle.cf_types.specs.declared.names.Name16.{Name16};
ghost use Rattle.cf_types.specs.declared.numbers.ConnId.{ConnId};
ghost use Rattle.engine_api.specs.History.{Tells, stands_after};
ghost use Rattle.engine_api.specs.Meaning.{Held};
ghost use Rattle.cache_model.specs.Contents.{Content, IsOrderly};
ghost use Rattle.cache_model.specs.Runs.{Deed, Copies};
ghost use Rattle.run_shown.specs.Meanings.{altered_caches};
ghost use Rattle.run_laws.specs.CacheApplied.{IsHeldAfter, content_applied, copies_then, uncast_then, AreFresh, AreKept};
ghost use Rattle.run_laws.specs.Copies.{IsAsRead, IsFresh, TellsFresh};
ghost use Rattle.run_laws.specs.CacheHistories.{IsLegalCache, IsWithin, content_after};
ghost use Rattle.run_laws.specs.Uncast.{HasPage, IsAnswered, IsUncast, Page};
ghost use Rattle.run_laws.specs.Unique.{IsUnique};

use cf_types::{AlterCmd, AlterReply, CacheCmd, CacheReply, StrForm};
use engine_api::History;

/// After every history of a cache a name has one entry at most, and a connector has one
/// registration at most for an index of its vector, and one at most for a name. Rows are in their
/// order, and each registration is for a name that has an entry. Where the form is a cache's,
/// entries and data are within the limits that an alteration has set, and where none has, within
/// the capacity of its instances: that of the policy, until a rebuild's new instance takes the old
/// one's place, and that of the rebuild from then on, until the structure is deallocated.
pub fn unique(form: &StrForm, history: &History<AlterCmd<CacheCmd>, AlterReply<CacheReply>>)
    ensures unique { IsUnique (content_after form.now history.now) }
    ensures orderly { IsOrderly (content_after form.now history.now) }
    ensures content { IsWithin form.now history.now }
{}

/// Where a connector's bit stands after a legal history, its copy is fresh: the data and adjunct
/// that its last accepted READ_DATA or WRITE_DATA at this index answered or wrote (none where the
/// entry had no data) are those that the entry of the registered name has now. So they are what
/// READ_DATA of this name would answer to anyone.
pub fn fresh_copy(form: &StrForm, history: &History<AlterCmd<CacheCmd>, AlterReply<CacheReply>>)
    requires { IsLegalCache form.now history.now }
    ensures fresh { (conn : ConnId) (index : ℕ)
        → IsTrue (stands_after altered_caches form.now history.now conn index)
        → IsFresh form.now history.now conn index }
    ensures as_read { (conn : ConnId) (index : ℕ)
        → IsTrue (stands_after altered_caches form.now history.now conn index)
        → IsAsRead form.now history.now conn index }
{}

/// A test of a vector bit that tells `true` tells a fresh copy: it was fresh at the call with the
/// number that the test tells, or, where the connector hasn't seen that call complete, before it.
pub fn fresh_test(form: &StrForm, history: &History<AlterCmd<CacheCmd>, AlterReply<CacheReply>>)
    requires { IsLegalCache form.now history.now }
    ensures { (n q : ℕ) (conn : ConnId) (index : ℕ)
        → Tells altered_caches form.now history.now n q conn index true
        → TellsFresh form.now history.now n q conn index }
{}

/// A page that was written as changed stays until it is cast out: where the last accepted changed
/// WRITE_DATA of a name was followed by no accepted DELETE_NAME of it, no failure or deallocation
/// of the structure, and no CASTOUT_DATA with its UNLOCK_CASTOUT, the name has an entry, it is
/// changed, and it has the data, adjunct and castout class of that WRITE_DATA. So accepted
/// READ_DATA and CASTOUT_DATA of the name answer that page.
pub fn uncast_kept(form: &StrForm, history: &History<AlterCmd<CacheCmd>, AlterReply<CacheReply>>)
    requires { IsLegalCache form.now history.now }
    ensures kept { (name : Name16) (page : Page) → IsUncast form.now history.now name page
        → HasPage form.now history.now name page }
    ensures answered { (name : Name16) (page : Page) → IsUncast form.now history.now name page
        → IsAnswered form.now history.now name page }
{}

/// What an engine's `apply` leaves of a cache that was empty at first, whatever commands, each at a
/// capacity of its own, departures and ends of registrations came before. At each index where a
/// connector is registered for a name, it has a copy of what the name's entry has: what its last
/// accepted READ_DATA there answered, or WRITE_DATA wrote. A name whose changed WRITE_DATA isn't cast out has a changed
/// entry, with the data, adjunct and class of that WRITE_DATA. And names, indexes and registrations
/// are unique.
pub fn after_apply()
    ensures fresh { (held : Held Content) (deeds : List Deed) (by : ConnId) (cmd : CacheCmd)
        (copies : Copies) → IsHeldAfter deeds held
        → AreFresh (content_applied held by cmd) (copies_then held copies deeds by cmd) }
    ensures kept { (held : Held Content) (deeds : List Deed) (by : ConnId) (cmd : CacheCmd)
        → IsHeldAfter deeds held
        → AreKept (content_applied held by cmd) (uncast_then held deeds by cmd) }
    ensures unique { (held : Held Content) (deeds : List Deed) (by : ConnId) (cmd : CacheCmd)
        → IsHeldAfter deeds held → IsUnique (content_applied held by cmd) }
{}
