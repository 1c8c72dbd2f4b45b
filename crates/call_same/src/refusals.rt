use crate::same::Same;
use cf_types::Refusal;

impl Same for Refusal {
    fn is_same(&self, other: &Refusal) -> bool {
        match (self, other) {
            (Refusal::NotRegistered, Refusal::NotRegistered) => true,
            (Refusal::IndexInUse { name }, Refusal::IndexInUse { name: n }) => name.is_same(n),
            (Refusal::BadIndex { index, len }, Refusal::BadIndex { index: i, len: l }) => {
                *index == *i && *len == *l
            }
            (Refusal::IsChanged, Refusal::IsChanged) => true,
            (Refusal::NotChanged, Refusal::NotChanged) => true,
            (Refusal::CastoutHeld { by }, Refusal::CastoutHeld { by: b }) => by.is_same(b),
            (Refusal::NotHeld, Refusal::NotHeld) => true,
            (Refusal::NoEntry, Refusal::NoEntry) => true,
            (Refusal::DirectoryFull { entries }, Refusal::DirectoryFull { entries: e }) => {
                *entries == *e
            }
            (Refusal::NoElements { need, free }, Refusal::NoElements { need: n, free: f }) => {
                *need == *n && *free == *f
            }
            (Refusal::BadClass { class }, Refusal::BadClass { class: c }) => *class == *c,
            (Refusal::BeyondUnits { asked, units }, Refusal::BeyondUnits { asked: a, units: u }) =>
                { *asked == *a && *units == *u }
            (Refusal::NoAlter, Refusal::NoAlter) => true,
            (Refusal::NoQueued, Refusal::NoQueued) => true,
            (Refusal::NoRecordThere, Refusal::NoRecordThere) => true,
            (Refusal::NameTaken { id }, Refusal::NameTaken { id: i }) => id.is_same(i),
            (
                Refusal::BadHeader { header, headers },
                Refusal::BadHeader {
                    header: h,
                    headers: m,
                },
            ) => *header == *h && *headers == *m,
            (Refusal::ListFull { limit }, Refusal::ListFull { limit: l }) => *limit == *l,
            (Refusal::EntriesFull { entries }, Refusal::EntriesFull { entries: e }) => {
                *entries == *e
            }
            (
                Refusal::NoListElements { need, free },
                Refusal::NoListElements { need: n, free: f },
            ) => *need == *n && *free == *f,
            (Refusal::LockHeld { by }, Refusal::LockHeld { by: b }) => by.is_same(b),
            (Refusal::LockNotHeldBy { holder }, Refusal::LockNotHeldBy { holder: h }) => {
                holder.is_same(h)
            }
            (Refusal::WrongReference { refs }, Refusal::WrongReference { refs: r }) => *refs == *r,
            (Refusal::HeaderInUse { header }, Refusal::HeaderInUse { header: h }) => *header == *h,
            (Refusal::BadLock { lock, locks }, Refusal::BadLock { lock: l, locks: m }) => {
                *lock == *l && *locks == *m
            }
            (Refusal::VersionDiffers { found }, Refusal::VersionDiffers { found: f }) => {
                *found == *f
            }
            (Refusal::AlreadyInterested { excl }, Refusal::AlreadyInterested { excl: e }) => {
                *excl == *e
            }
            (Refusal::NotInterested, Refusal::NotInterested) => true,
            (Refusal::RecordsFull { limit }, Refusal::RecordsFull { limit: l }) => *limit == *l,
            (Refusal::NotManager { manager }, Refusal::NotManager { manager: m }) => {
                manager.is_same(m)
            }
            (Refusal::NoWaiter, Refusal::NoWaiter) => true,
            (Refusal::NoRecord, Refusal::NoRecord) => true,
            (Refusal::StillPending, Refusal::StillPending) => true,
            (Refusal::NotConnected, Refusal::NotConnected) => true,
            (Refusal::NameActive { state }, Refusal::NameActive { state: s }) => *state == *s,
            (Refusal::TooManyConns { limit }, Refusal::TooManyConns { limit: l }) => *limit == *l,
            (Refusal::NotFailed { state }, Refusal::NotFailed { state: s }) => *state == *s,
            (Refusal::HasConnections { n }, Refusal::HasConnections { n: other }) => *n == *other,
            (Refusal::NoSpace { asked, free }, Refusal::NoSpace { asked: a, free: f }) => {
                *asked == *a && *free == *f
            }
            (Refusal::NothingOwed, Refusal::NothingOwed) => true,
            (Refusal::RebuildInProgress { number }, Refusal::RebuildInProgress { number: n }) =>
                *number == *n,
            (Refusal::NoRebuild, Refusal::NoRebuild) => true,
            (Refusal::WrongStage { stage }, Refusal::WrongStage { stage: s }) => *stage == *s,
            (Refusal::ItemsLeft { left }, Refusal::ItemsLeft { left: l }) => *left == *l,
            (Refusal::TooSmall { need, have }, Refusal::TooSmall { need: n, have: h }) => {
                *need == *n && *have == *h
            }
            (Refusal::Quiesced { number }, Refusal::Quiesced { number: n }) => *number == *n,
            (Refusal::LostConn { cf }, Refusal::LostConn { cf: c }) => cf.is_same(c),
            (Refusal::LostFacility { cf }, Refusal::LostFacility { cf: c }) => cf.is_same(c),
            (Refusal::StructureFailed, Refusal::StructureFailed) => true,
            (Refusal::NoFacility, Refusal::NoFacility) => true,
            (Refusal::AlreadyDuplexed, Refusal::AlreadyDuplexed) => true,
            (Refusal::NoEvent, Refusal::NoEvent) => true,
            (Refusal::NotAllocated, Refusal::NotAllocated) => true,
            _ => false,
        }
    }
}
