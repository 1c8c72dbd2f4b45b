//! The grant rule: the first of those that wait for a resource becomes an owner, as long as it is
//! compatible with all other owners.
ghost use Rattle.std.specs.Prelude.{◌≡◌, ◌+◌, ◌≤◌, ◌++◌, length};
ghost use Rattle.lock_model.specs.Grants.{grant, grant_each};
ghost use Rattle.lock_core.specs.Stock.{HasRoom};

use crate::locks::Locks;
use cf_types::{Effects, Resource};

/// The grant rule for a resource.
#[tactic(auto, using(crate::proofs::GrantLaws::grant_told))]
pub(crate) fn grant(locks: &mut Locks, r: &Resource, out: &mut Effects)
    requires room { HasRoom 0 locks.old }
    requires letters { length (grant r.now locks.old.content).letters ≤ out.old.mail.room }
    ensures content { locks.new.content ≡ (grant r.now locks.old.content).content }
    ensures mail { out.new.mail.items ≡ out.old.mail.items
        ++ (grant r.now locks.old.content).letters }
    ensures letters { out.new.mail.room + length (grant r.now locks.old.content).letters ≡
        out.old.mail.room }
    ensures bits { out.new.bits ≡ out.old.bits }
    ensures room { HasRoom 0 locks.new }
    ensures fewer { length locks.new.content.waiters + length
        (grant r.now locks.old.content).letters ≡ length locks.old.content.waiters }
    ensures limit { locks.new.limit ≡ locks.old.limit }
{
    while let Some(w) = locks.next(r) {
        locks.grant_one(&w, out);
    }
}

/// The grant rule for several resources, one after another.
pub(crate) fn grant_each(locks: &mut Locks, resources: &[Resource], out: &mut Effects)
    requires room { HasRoom 0 locks.old }
    requires letters { length (grant_each resources.now locks.old.content).letters ≤
        out.old.mail.room }
    ensures content { locks.new.content ≡ (grant_each resources.now locks.old.content).content }
    ensures mail { out.new.mail.items ≡ out.old.mail.items
        ++ (grant_each resources.now locks.old.content).letters }
    ensures letters { out.new.mail.room + length
        (grant_each resources.now locks.old.content).letters ≡ out.old.mail.room }
    ensures bits { out.new.bits ≡ out.old.bits }
    ensures limit { locks.new.limit ≡ locks.old.limit }
{
    for r in resources {
        grant(locks, r, out);
    }
}
