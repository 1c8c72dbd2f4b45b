//! The content as it is kept: records, limits, list locks, monitors and the next id.
ghost use Rattle.std.specs.Prelude.{◌≡◌, ◌+◌, ◌<◌, ◌≤◌, ◌∷◌, ◌++◌, [], false, true, IfOk, OnOk, OnErr, None, Some, if◌then◌else◌, length, map, filter, option_map, replicate, get_or, slice_get, slice_set};
ghost use Rattle.std.specs.Prelude.{IsTrue, IfSome, find};
ghost use Rattle.std.specs.List.{list_any, prefix_len};
ghost use Rattle.cf_types.specs.Forms.{IsCaller};
ghost use Rattle.cf_types.specs.Gains.{Gains};
ghost use Rattle.cf_lists.specs.Pairwise.{pairwise};
ghost use Rattle.list_store.specs.Lists.{all_records, records_of, is_id, record_of, ids_apart, lists_without, lists_replaced, with_records};
ghost use Rattle.list_store.specs.Records.{record_in, body_in, HasChain};
ghost use Rattle.list_model.specs.Records.{may_precede, has_name, elements_in, elements_of};
ghost use Rattle.list_watch.specs.Monitors.{is_for, monitored_at, monitors_with, monitors_without};
ghost use Rattle.list_model.specs.Contents.{no_content, headers_of, locks_of, holder_of, holder_without, stands, has_records, content_without};
ghost use Rattle.list_model.specs.Lists.{header_of, with_record};

use crate::bare::Bare;
use crate::copies::copy_records;
use crate::data::{give, need, read_data};
use crate::placing::{
    add_name, drop_name, has_records, place_of, push, put, put_again, renew, take,
};
use crate::telling::{settle, tell};
use cf_types::{Body, ConnId, Effects, EntryId, Key16, Kind, Name16, NoMemory};
use engine_api::Shape;
use list_keys::Keys;
use list_store::{Chain, Rec, Store};
use list_watch::{Watch, Watched};
use std::alloc::Global;
use std::marker::Model;

/// The content of a list structure: the records of each header, with their names and the elements
/// for their data, the headers' limits, the list locks, the monitors, and the id that the next
/// record gets. Contracts see the content, the chains in which data lie, how many elements there
/// are, how many bits a vector has, and for how many more records, names and monitors there is
/// room. Each connector was told whether the headers that the connector monitors have records.
#[derive(Drop)]
pub struct Kept {
    store: Store,
    names: Keys,
    elements: u32,
    limits: Vec<u32>,
    locks: Vec<Option<ConnId>>,
    watch: Watch,
    next: u64,
}

impl Model for Kept {
    ghost use Rattle.list_kept.specs.ContentView.{ContentView, content_view, IsKept};

    ghost Value = { ContentView };

    ghost view = { content_view };

    ghost invariant = { IsKept };
}

/// How many headers a structure of a kind has; 0 where the kind isn't a list structure.
pub fn headers_of(kind: Kind) -> u32
    ensures { result ≡ headers_of kind }
{
    match kind {
        Kind::List { headers, .. } => headers,
        Kind::Cache => 0,
        Kind::Lock => 0,
    }
}

/// How many list locks a structure of a kind has; 0 where the kind isn't a list structure.
pub fn locks_of(kind: Kind) -> u32
    ensures { result ≡ locks_of kind }
{
    match kind {
        Kind::List { locks, .. } => locks,
        Kind::Cache => 0,
        Kind::Lock => 0,
    }
}

// A connector lets go of a list lock.
fn release(holder: &mut Option<ConnId>, conn: ConnId)
    ensures { holder.new ≡ holder_without conn holder.old }
{
    if let Some(by) = *holder
        && by == conn
    {
        *holder = None;
    }
}

// A connector lets go of all list locks.
fn release_all(locks: &mut Vec<Option<ConnId>>, conn: ConnId)
    ensures { locks.new.items ≡ map (holder_without conn) locks.old.items }
{
    for holder in locks.iter_mut() {
        release(holder, conn);
    }
}

// How many monitors of a header a connector has.
fn count_rows(rows: &[Watched], conn: ConnId, header: u32) -> u32
    requires { length rows.now < 4294967296 }
    ensures { result ≡ length (filter (λ row. is_for conn header row.monitor) rows.now) }
{
    rows.iter()
        .filter(|row| row.monitor.conn == conn && row.monitor.header == header)
        .count() as u32
}

// Sets all limits.
fn fill_limits(limits: &mut Vec<u32>, entries: u32)
    ensures { limits.new.items ≡ replicate (length limits.old.items) entries }
{
    for limit in limits.iter_mut() {
        *limit = entries;
    }
}

// Nobody holds a list lock.
fn free_locks(locks: &mut Vec<Option<ConnId>>)
    ensures { locks.new.items ≡ replicate (length locks.old.items) None }
{
    for holder in locks.iter_mut() {
        *holder = None;
    }
}

// A connector that departs lets go of its list locks, unless they are kept for it.
fn release_unless(locks: &mut Vec<Option<ConnId>>, keep: bool, conn: ConnId)
    ensures { locks.new.items ≡ (if keep then locks.old.items else map (holder_without conn)
        locks.old.items) }
{
    if !keep {
        release_all(locks, conn);
    }
}

impl Kept {
    /// The content of a new structure of a shape: no records, no monitors, no list lock held, each
    /// limit the entries of the shape, and 1 as the next id; and so many elements for data, which
    /// take memory here and never again. The error is want of memory.
    pub fn new(alloc: Global, shape: Shape, elements: u32) -> Result<Kept, NoMemory>
        ensures content { IfOk result (λ kept. kept.content ≡ no_content shape) }
        ensures elements { IfOk result (λ kept. kept.elements ≡ elements) }
        ensures vector { IfOk result (λ kept. kept.vector ≡ shape.vector) }
    {
        let names = Keys::new(alloc)?;
        Kept::with_names(alloc, shape, elements, names)
    }

    // The content of a new structure of a shape, where there are no names.
    fn with_names(alloc: Global, shape: Shape, elements: u32, names: Keys) -> Result<Kept, NoMemory>
        requires { names.names ≡ [] }
        ensures content { IfOk result (λ kept. kept.content ≡ no_content shape) }
        ensures elements { IfOk result (λ kept. kept.elements ≡ elements) }
        ensures vector { IfOk result (λ kept. kept.vector ≡ shape.vector) }
    {
        let headers = headers_of(shape.kind);
        let locks = locks_of(shape.kind);
        let store = Store::new(alloc, shape.caps.entries, elements, headers)?;
        let limits = vec![in alloc; shape.caps.entries; headers as usize]?;
        let holders = vec![in alloc; None; locks as usize]?;
        let watch = Watch::new(alloc, shape.conns, shape.vector)?;
        Ok(Kept {
            store,
            names,
            elements,
            limits,
            locks: holders,
            watch,
            next: 1,
        })
    }

    /// The same content once more. The error is want of memory.
    pub fn copy(&self, alloc: Global) -> Result<Kept, NoMemory>
        ensures content { IfOk result (λ copy. copy.content ≡ self.now.content) }
        ensures elements { IfOk result (λ copy. copy.elements ≡ self.now.elements) }
        ensures vector { IfOk result (λ copy. copy.vector ≡ self.now.vector) }
    {
        let store = copy_records(alloc, &self.store, self.elements)?;
        let names = self.names.copy(alloc)?;
        let limits = Vec::from_slice(alloc, self.limits.as_slice())?;
        let locks = Vec::from_slice(alloc, self.locks.as_slice())?;
        let watch = self.watch.copy(alloc)?;
        Ok(Kept {
            store,
            names,
            elements: self.elements,
            limits,
            locks,
            watch,
            next: self.next,
        })
    }

    /// Takes room for one record, one name and one monitor more, and room in the effects for the
    /// bits that one command tells. The error is want of memory, or of ids: the next one is the
    /// last of 64 bits. The content stays as it was either way.
    pub fn reserve(&mut self, out: &mut Effects) -> Result<(), NoMemory>
        ensures content { self.new.content ≡ self.old.content }
        ensures elements { self.new.elements ≡ self.old.elements }
        ensures vector { self.new.vector ≡ self.old.vector }
        ensures room { OnOk result (IsRoomy self.new out.new.bits.room) }
        ensures bits { out.new.bits.items ≡ out.old.bits.items }
        ensures mail { out.new.mail ≡ out.old.mail }
    {
        if self.next == u64::MAX {
            return Err(NoMemory::beyond_counts());
        }
        self.store.room()?;
        self.names.room()?;
        self.watch.room(out)
    }

    /// How many headers there are.
    pub fn headers(&self) -> u32
        ensures { result ≡ length self.now.content.lists }
    {
        self.store.headers()
    }

    /// The record at a place of a header, both from 0; none where there is no such record.
    pub fn at(&self, header: u32, place: u32) -> Option<&Rec>
        ensures record { option_map (λ rec. record_in self.now.chains rec.now) result
            ≡ slice_get (records_of self.now.content.lists header) place }
        ensures chain { IfSome result (λ rec. HasChain self.now.chains rec.now.body) }
    {
        if header < self.store.headers() {
            self.store.at(header, place)
        } else {
            None
        }
    }

    /// How many records a header has; 0 where there is no such header.
    pub fn len(&self, header: u32) -> u32
        ensures { result ≡ length (records_of self.now.content.lists header) }
    {
        if header < self.store.headers() {
            self.store.len(header)
        } else {
            0
        }
    }

    /// Where a record with a key comes to stand in a header, before its equals at the head and
    /// behind them at the tail; 0 where there is no such header.
    #[tactic(auto, using(crate::proofs::NamedLaws::kept_told, crate::proofs::PlaceLaws::none_past))]
    pub fn place_of(&self, header: u32, head: bool, key: Key16) -> u32
        ensures place { result ≡ prefix_len (comes_behind head (Some key))
            (records_of self.now.content.lists header) }
        ensures ordered { IsTrue (pairwise may_precede
            (records_of self.now.content.lists header)) }
    {
        if header < self.store.headers() {
            place_of(&self.store, header, head, Some(key))
        } else {
            0
        }
    }

    /// The record with an id, in whichever header; none where there is no such record.
    pub fn get(&self, id: EntryId) -> Option<&Rec>
        ensures record { option_map (λ rec. record_in self.now.chains rec.now) result
            ≡ record_of id self.now.content.lists }
        ensures chain { IfSome result (λ rec. HasChain self.now.chains rec.now.body) }
        ensures apart { IsTrue (pairwise ids_apart (all_records self.now.content.lists)) }
    {
        self.store.get(id)
    }

    /// The record with a name, in whichever header; none where there is no such record.
    #[tactic(auto, using(crate::proofs::NamedLaws::named_found))]
    pub fn named(&self, name: &Name16) -> Option<&Rec>
        ensures record { option_map (λ rec. record_in self.now.chains rec.now) result
            ≡ find (has_name name.now) (all_records self.now.content.lists) }
        ensures chain { IfSome result (λ rec. HasChain self.now.chains rec.now.body) }
    {
        match self.names.by_name(name) {
            Some(id) => self.store.get(id),
            None => None,
        }
    }

    /// How many elements of 256 bytes the data of all records take.
    #[tactic(auto, using(crate::proofs::DataLaws::free_elements))]
    pub fn elements(&self) -> u32
        ensures { result ≡ elements_in (all_records self.now.content.lists) }
    {
        self.elements - self.store.free()
    }

    /// How many elements of 256 bytes a record's data take; none where it has no data.
    pub fn need(&self, chain: &Option<Chain>) -> u32
        requires { HasChain self.now.chains chain.now }
        ensures { result ≡ elements_of (body_in self.now.chains chain.now) }
    {
        need(&self.store, chain)
    }

    /// A copy of a record's data, where it has any.
    pub fn read(&self, alloc: Global, chain: &Option<Chain>) -> Result<Option<Body>, NoMemory>
        requires { HasChain self.now.chains chain.now }
        ensures { IfOk result (λ body. body ≡ body_in self.now.chains chain.now) }
    {
        read_data(alloc, &self.store, chain)
    }

    /// The header that the record with an id is in, from 0; 0 also where there is no such record.
    pub fn header_of(&self, id: EntryId) -> u32
        ensures { result ≡ header_of id self.now.content.lists }
    {
        match self.store.header_of(id) {
            Some(header) => header,
            None => 0,
        }
    }

    /// The limit of a header, in records; 0 where there is no such header.
    pub fn limit(&self, header: u32) -> u32
        ensures { result ≡ get_or self.now.content.limits header 0 }
    {
        match self.limits.as_slice().get(header as usize) {
            Some(limit) => *limit,
            None => 0,
        }
    }

    /// The connector that holds a list lock; none where nobody does, or there is no such lock.
    pub fn holder(&self, lock: u32) -> Option<ConnId>
        ensures { result ≡ holder_of lock self.now.content.locks }
    {
        match self.locks.as_slice().get(lock as usize) {
            Some(holder) => *holder,
            None => None,
        }
    }

    /// The limits of the headers, in records, by header.
    pub fn limits(&self) -> &[u32]
        ensures { result.now ≡ self.now.content.limits }
    {
        self.limits.as_slice()
    }

    /// The connectors that hold the list locks, by lock.
    pub fn locks(&self) -> &[Option<ConnId>]
        ensures { result.now ≡ self.now.content.locks }
    {
        self.locks.as_slice()
    }

    /// How many monitors there are.
    pub fn monitors(&self) -> usize
        ensures { result ≡ length self.now.content.monitors }
    {
        self.watch.items().len()
    }

    /// The monitors, in the order in which they were made, with the bits that connectors were told.
    pub fn watched(&self) -> &[Watched]
        ensures monitors { monitors_of result.now ≡ self.now.content.monitors }
        ensures told { AreTold self.now.content.lists result.now }
    {
        self.watch.items()
    }

    /// How many monitors of a header a connector has: 0 or 1.
    #[tactic(auto, using(crate::proofs::NamedLaws::fewer))]
    pub fn count_for(&self, conn: ConnId, header: u32) -> u32
        ensures { result ≡ length (filter (is_for conn header) self.now.content.monitors) }
    {
        count_rows(self.watch.items(), conn, header)
    }

    /// The header that a connector monitors at an index of its vector; none where it monitors none
    /// there.
    pub fn monitored(&self, conn: ConnId, index: u32) -> Option<u32>
        ensures { result ≡ monitored_at self.now.content.monitors conn index }
    {
        self.watch.at(conn, index)
    }

    /// Whether the bit of a connector's vector at an index stands: a header that the connector
    /// monitors there has records.
    #[tactic(auto, using(crate::proofs::NamedLaws::kept_told))]
    pub fn stands(&self, conn: ConnId, index: u32) -> bool
        ensures { result ≡ stands self.now.content conn index }
    {
        self.watch.stands(conn, index)
    }

    /// The id that the next record gets; 1 in a new structure.
    pub fn next(&self) -> u64
        ensures { result ≡ self.now.content.next }
    {
        self.next
    }

    /// Puts a record with its data at its place in a header: at the head or the tail of the records
    /// that its key leaves it among. The header is there, no record has its id, the records stay in
    /// order, there is room, and there are elements for the data, so that they take no memory. The
    /// next id goes up by 1, and `out` is told the bits that change.
    #[tactic(auto, using(crate::proofs::ToldLaws::content_at, crate::proofs::ToldLaws::monitors_told, crate::proofs::ToldLaws::told_here))]
    pub fn write(
        &mut self,
        header: u32,
        head: bool,
        bare: Bare,
        body: &Option<Body>,
        out: &mut Effects,
    )
        requires room { IsRoomy self.old out.old.bits.room }
        requires header { header < length self.old.content.lists }
        requires alone { list_any (is_id bare.id) (all_records self.old.content.lists) ≡ false }
        requires orderly { IsOrderly self.old.elements
            (with_record head header (with_data bare body.now) self.old.content.lists) }
        ensures content { self.new.content ≡ record self.old.content {
          lists = with_record head header (with_data bare body.now) self.old.content.lists;
          next = self.old.content.next + 1;
        } }
        ensures elements { self.new.elements ≡ self.old.elements }
        ensures vector { self.new.vector ≡ self.old.vector }
        ensures bits { Gains (stands self.old.content) (stands self.new.content) out.old.bits.items
            out.new.bits.items }
        ensures mail { out.new.mail ≡ out.old.mail }
    {
        let Bare { id, name, .. } = bare;
        let had = has_records(&self.store, header);
        put(&mut self.store, header, head, bare, body);
        add_name(&mut self.names, name, id);
        self.next += 1;
        let full = has_records(&self.store, header);
        tell(&mut self.watch, header, had, full, out);
    }

    /// Puts a record in place of the one with the same id, which is there and has the same name:
    /// with the data that are given, or else with those that it has. The records stay in order, and
    /// there are elements for the data once the old ones are gone.
    pub fn replace(&mut self, bare: Bare, body: &Option<Body>)
        requires there { list_any (is_id bare.id) (all_records self.old.content.lists) ≡ true }
        requires named { IfSome (record_of bare.id self.old.content.lists)
            (λ old. old.name ≡ bare.name) }
        requires orderly { IsOrderly self.old.elements (lists_replaced
            (renewed bare body.now (record_of bare.id self.old.content.lists))
            self.old.content.lists) }
        ensures content { self.new.content ≡ record self.old.content {
          lists = lists_replaced (renewed bare body.now (record_of bare.id self.old.content.lists))
              self.old.content.lists;
        } }
        ensures elements { self.new.elements ≡ self.old.elements }
        ensures vector { self.new.vector ≡ self.old.vector }
    {
        renew(&mut self.store, bare, body);
    }

    /// Takes away the record with an id, which is there. `out` is told the bits that change.
    #[tactic(auto, using(crate::proofs::ToldLaws::content_at, crate::proofs::ToldLaws::monitors_told, crate::proofs::ToldLaws::told_here))]
    pub fn remove(&mut self, id: EntryId, out: &mut Effects)
        requires room { IsRoomy self.old out.old.bits.room }
        requires there { list_any (is_id id) (all_records self.old.content.lists) ≡ true }
        ensures content { self.new.content
            ≡ record self.old.content { lists = lists_without id self.old.content.lists } }
        ensures elements { self.new.elements ≡ self.old.elements }
        ensures vector { self.new.vector ≡ self.old.vector }
        ensures bits { Gains (stands self.old.content) (stands self.new.content) out.old.bits.items
            out.new.bits.items }
        ensures mail { out.new.mail ≡ out.old.mail }
    {
        match self.store.header_of(id) {
            Some(from) => {
                let had = has_records(&self.store, from);
                let rec = take(&mut self.store, id);
                let Rec { name, body, .. } = rec;
                give(&mut self.store, body);
                drop_name(&mut self.names, name);
                let full = has_records(&self.store, from);
                tell(&mut self.watch, from, had, full, out);
            }
            None => unreachable!(),
        }
    }

    /// Takes the record with an id, which is there, to its place in a header, with a new key if one
    /// is given: at the head or the tail of the records that the key leaves it among. The header is
    /// there, the records stay in order, and there is room. `out` is told the bits that change.
    #[tactic(auto, using(crate::proofs::ToldLaws::content_at, crate::proofs::ToldLaws::monitors_told))]
    pub fn shift(
        &mut self,
        id: EntryId,
        header: u32,
        head: bool,
        key: Option<Key16>,
        out: &mut Effects,
    )
        requires room { IsRoomy self.old out.old.bits.room }
        requires header { header < length self.old.content.lists }
        requires there { list_any (is_id id) (all_records self.old.content.lists) ≡ true }
        requires orderly { IsOrderly self.old.elements (put_back head header key
            (record_of id self.old.content.lists) (lists_without id self.old.content.lists)) }
        ensures content { self.new.content ≡ record self.old.content {
          lists = put_back head header key (record_of id self.old.content.lists)
              (lists_without id self.old.content.lists);
        } }
        ensures elements { self.new.elements ≡ self.old.elements }
        ensures vector { self.new.vector ≡ self.old.vector }
        ensures bits { Gains (stands self.old.content) (stands self.new.content) out.old.bits.items
            out.new.bits.items }
        ensures mail { out.new.mail ≡ out.old.mail }
    {
        match self.store.header_of(id) {
            Some(from) => {
                let had = has_records(&self.store, from);
                let had_there = has_records(&self.store, header);
                put_again(&mut self.store, id, header, head, key);
                let full = has_records(&self.store, from);
                tell(&mut self.watch, from, had, full, out);
                let full_there = has_records(&self.store, header);
                tell(&mut self.watch, header, had_there, full_there, out);
            }
            None => unreachable!(),
        }
    }

    /// Sets the limit of a header, in records. The header is there.
    pub fn set_limit(&mut self, header: u32, n: u32)
        requires { header < length self.old.content.limits }
        ensures content { self.new.content
            ≡ record self.old.content { limits = slice_set self.old.content.limits header n } }
        ensures elements { self.new.elements ≡ self.old.elements }
        ensures vector { self.new.vector ≡ self.old.vector }
    {
        self.limits[header as usize] = n;
    }

    /// Sets which connector holds a list lock, or that nobody does. The lock is there.
    pub fn set_lock(&mut self, lock: u32, holder: Option<ConnId>)
        requires { lock < length self.old.content.locks }
        ensures content { self.new.content
            ≡ record self.old.content { locks = slice_set self.old.content.locks lock holder } }
        ensures elements { self.new.elements ≡ self.old.elements }
        ensures vector { self.new.vector ≡ self.old.vector }
    {
        self.locks[lock as usize] = holder;
    }

    /// A connector monitors a header at an index of its vector: its monitor at that index, and its
    /// monitor of that header at another index, end. There is room. `out` is told the bits that
    /// change.
    #[tactic(auto, using(crate::proofs::ToldLaws::content_at, crate::proofs::ToldLaws::monitors_told))]
    pub fn monitor(&mut self, conn: ConnId, index: u32, header: u32, out: &mut Effects)
        requires caller { IsCaller conn }
        requires index { index < self.old.vector }
        requires room { IsRoomy self.old out.old.bits.room }
        ensures content { self.new.content ≡ record self.old.content {
          monitors = monitors_with conn index header self.old.content.monitors;
        } }
        ensures elements { self.new.elements ≡ self.old.elements }
        ensures vector { self.new.vector ≡ self.old.vector }
        ensures bits { Gains (stands self.old.content) (stands self.new.content) out.old.bits.items
            out.new.bits.items }
        ensures mail { out.new.mail ≡ out.old.mail }
    {
        let full = has_records(&self.store, header);
        self.watch.set(conn, index, header, full, out);
    }

    /// A connector monitors a header no more, if it did. `out`, which has room for a bit of each
    /// monitor, is told the bit that changes.
    #[tactic(auto, using(crate::proofs::ToldLaws::content_at, crate::proofs::ToldLaws::monitors_told))]
    pub fn unmonitor(&mut self, conn: ConnId, header: u32, out: &mut Effects)
        requires { length self.old.content.monitors ≤ out.old.bits.room }
        ensures content { self.new.content ≡ record self.old.content {
          monitors = monitors_without conn header self.old.content.monitors;
        } }
        ensures elements { self.new.elements ≡ self.old.elements }
        ensures vector { self.new.vector ≡ self.old.vector }
        ensures bits { Gains (stands self.old.content) (stands self.new.content) out.old.bits.items
            out.new.bits.items }
        ensures mail { out.new.mail ≡ out.old.mail }
    {
        let _ = self.watch.clear(conn, header, out);
    }

    /// Puts a record with its data behind the others of a header, where there is memory; else
    /// changes nothing. The header is there, no record has its id, and the records stay in order.
    pub fn push(&mut self, header: u32, bare: Bare, body: &Option<Body>) -> Result<(), NoMemory>
        requires header { header < length self.old.content.lists }
        requires alone { list_any (is_id bare.id) (all_records self.old.content.lists) ≡ false }
        requires orderly { IsOrderly self.old.elements (with_records self.old.content.lists header
            (records_of self.old.content.lists header ++ with_data bare body.now ∷ [])) }
        ensures ok { OnOk result (self.new.content ≡ record self.old.content {
          lists = with_records self.old.content.lists header
              (records_of self.old.content.lists header ++ with_data bare body.now ∷ []);
        }) }
        ensures err { OnErr result (self.new.content ≡ self.old.content) }
        ensures elements { self.new.elements ≡ self.old.elements }
        ensures vector { self.new.vector ≡ self.old.vector }
    {
        self.names.room()?;
        self.push_named(header, bare, body)
    }

    // Puts a record with its data behind the others of a header, where there is memory for it and
    // room for its name; else changes nothing.
    fn push_named(&mut self, header: u32, bare: Bare, body: &Option<Body>) -> Result<(), NoMemory>
        requires room { 1 ≤ self.old.name_room }
        requires header { header < length self.old.content.lists }
        requires alone { list_any (is_id bare.id) (all_records self.old.content.lists) ≡ false }
        requires orderly { IsOrderly self.old.elements (with_records self.old.content.lists header
            (records_of self.old.content.lists header ++ with_data bare body.now ∷ [])) }
        ensures ok { OnOk result (self.new.content ≡ record self.old.content {
          lists = with_records self.old.content.lists header
              (records_of self.old.content.lists header ++ with_data bare body.now ∷ []);
        }) }
        ensures err { OnErr result (self.new.content ≡ self.old.content) }
        ensures elements { self.new.elements ≡ self.old.elements }
        ensures vector { self.new.vector ≡ self.old.vector }
    {
        let Bare { id, name, .. } = bare;
        let had = has_records(&self.store, header);
        match push(&mut self.store, header, bare, body) {
            Ok(()) => {
                add_name(&mut self.names, name, id);
                let full = has_records(&self.store, header);
                settle(&mut self.watch, header, had, full);
                Ok(())
            }
            Err(refused) => Err(refused),
        }
    }

    /// Takes limits, list locks, monitors and a next id in place of those that are there. The
    /// monitors are apart, fewer than 2^32, and their connectors were told of the records that are
    /// there.
    pub fn take_over(
        &mut self,
        next: u64,
        limits: Vec<u32>,
        locks: Vec<Option<ConnId>>,
        rows: Vec<Watched>,
    )
        requires monitors { AreMonitors (monitors_of rows.items) }
        requires few { vec_len rows < 4294967296 }
        requires told { AreTold self.old.content.lists rows.items }
        ensures elements { self.new.elements ≡ self.old.elements }
        ensures vector { self.new.vector ≡ self.old.vector }
        ensures content { self.new.content ≡ record {
          lists = self.old.content.lists;
          limits = limits.items;
          locks = locks.items;
          monitors = monitors_of rows.items;
          next = next;
        } }
    {
        self.next = next;
        self.limits = limits;
        self.locks = locks;
        self.watch.restore(rows);
    }

    // No limits but the entries, no list lock held, no monitors, and the first id.
    fn reset(&mut self, entries: u32)
        ensures elements { self.new.elements ≡ self.old.elements }
        ensures vector { self.new.vector ≡ self.old.vector }
        ensures content { self.new.content ≡ record {
          lists = self.old.content.lists;
          limits = replicate (length self.old.content.limits) entries;
          locks = replicate (length self.old.content.locks) None;
          monitors = [];
          next = 1;
        } }
    {
        fill_limits(&mut self.limits, entries);
        free_locks(&mut self.locks);
        self.watch.forget();
        self.next = 1;
    }

    // Takes the last record away, and tells whether there was one.
    #[tactic(auto, using(crate::proofs::ToldLaws::content_at, crate::proofs::NamedLaws::kept_told))]
    fn pop_record(&mut self) -> bool
        ensures there { result ≡ not (count_of self.old.content.lists == 0) }
        ensures content { self.new.content ≡ record self.old.content {
          lists = first_records (count_of self.old.content.lists - 1) self.old.content.lists;
        } }
        ensures elements { self.new.elements ≡ self.old.elements }
        ensures vector { self.new.vector ≡ self.old.vector }
    {
        match self.store.pop() {
            Some((header, rec)) => {
                let Rec { name, body, .. } = rec;
                give(&mut self.store, body);
                drop_name(&mut self.names, name);
                let full = has_records(&self.store, header);
                self.watch.settle(header, full);
                true
            }
            None => false,
        }
    }

    /// Takes the last record away, of the last header that has records. Where there are no records,
    /// limits, list locks, monitors and the next id become those of a new structure of the shape.
    #[tactic(auto, using(crate::proofs::LastLaws::none_test, crate::proofs::LastLaws::zero_test, crate::proofs::ToldLaws::content_at, crate::proofs::NamedLaws::kept_told))]
    pub fn pop(&mut self, shape: Shape)
        requires limits { length self.old.content.limits ≡ headers_of shape.kind }
        requires locks { length self.old.content.locks ≡ locks_of shape.kind }
        ensures content { self.new.content ≡ content_without_last shape self.old.content }
        ensures elements { self.new.elements ≡ self.old.elements }
        ensures vector { self.new.vector ≡ self.old.vector }
    {
        if !self.pop_record() {
            self.reset(shape.caps.entries);
        }
    }

    /// A connector departs: its monitors end, and its list locks are free, unless `keep` says that
    /// they are kept for it. `out`, which has room for a bit of each monitor, is told the bits that
    /// change.
    #[tactic(auto, using(crate::proofs::ToldLaws::content_at, crate::proofs::ToldLaws::monitors_told))]
    pub fn leave(&mut self, conn: ConnId, keep: bool, out: &mut Effects)
        requires { length self.old.content.monitors ≤ out.old.bits.room }
        ensures content { self.new.content ≡ content_without self.old.content conn keep }
        ensures elements { self.new.elements ≡ self.old.elements }
        ensures vector { self.new.vector ≡ self.old.vector }
        ensures bits { Gains (stands self.old.content) (stands self.new.content) out.old.bits.items
            out.new.bits.items }
        ensures mail { out.new.mail ≡ out.old.mail }
    {
        release_unless(&mut self.locks, keep, conn);
        self.watch.drop_conn(conn, out);
    }
}

ghost use Rattle.std.specs.Prelude.{◌-◌, ◌==◌, not};
ghost use Rattle.std.specs.Vec.{vec_len};
ghost use Rattle.list_store.specs.Lists.{count_of};
ghost use Rattle.list_watch.specs.Monitors.{AreMonitors};
ghost use Rattle.list_watch.specs.Rows.{monitors_of};
ghost use Rattle.list_model.specs.Lists.{first_records};
ghost use Rattle.list_model.specs.Items.{content_without_last};
ghost use Rattle.list_kept.specs.Told.{AreTold};
ghost use Rattle.list_kept.specs.Orderly.{IsOrderly};
ghost use Rattle.list_kept.specs.Data.{with_data, renewed};
ghost use Rattle.list_kept.specs.ContentView.{IsRoomy, comes_behind, put_back};
