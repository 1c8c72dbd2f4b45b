//! The items of a copy: the controls, where they differ from those of an empty structure, and then
//! the records.
ghost use Rattle.std.specs.Prelude.{◌≡◌, ◌+◌, ◌<◌, ◌++◌, ◌∷◌, [], IfOk, IfErr, OnOk, OnErr, Some, length, map, option_map, slice_get};
ghost use Rattle.list_model.specs.ListStore.Lists.{count_of};
ghost use Rattle.list_model.specs.ListWatch.declared.monitors.Watched.{Watched};
ghost use Rattle.list_model.specs.Items.{has_controls, controls_of, row_of, rows_from, items_of, triple_of, content_with};
ghost use Rattle.list_core.specs.Rows.{told_row, IsPlaceable};

use cf_types::{Body, ConnId, Listing, NoMemory};
use engine_api::Shape;
use list_kept::{Bare, Kept, count};
use list_model::ListItem;
use list_model::stores::Rec;
use list_model::watches::{Monitor, Watched};
use std::alloc::Global;

// Whether a limit isn't the entries.
fn is_limited(limits: &[u32], entries: u32) -> bool
    ensures { result ≡ list_any (λ limit. not (limit == entries)) limits.now }
{
    limits.iter().any(|limit| *limit != entries)
}

// Whether a list lock is held.
fn is_held(locks: &[Option<ConnId>]) -> bool
    ensures { result ≡ list_any is_some locks.now }
{
    locks.iter().any(|holder| holder.is_some())
}

ghost use Rattle.std.specs.Prelude.{◌==◌, not, is_some};
ghost use Rattle.std.specs.List.{list_any};

// Whether the controls differ from those of an empty structure.
fn has_controls(shape: Shape, kept: &Kept) -> bool
    ensures { result ≡ has_controls shape kept.now.content }
{
    kept.next() != 1
        || is_limited(kept.limits(), shape.caps.entries)
        || is_held(kept.locks())
        || kept.monitors() != 0
}

/// How many items there are.
#[tactic(auto, using(crate::proofs::RowLaws::items_told))]
pub(crate) fn count_items(shape: Shape, kept: &Kept) -> u32
    requires { count_of kept.now.content.lists < 4294967295 }
    ensures { result ≡ length (items_of shape kept.now.content) }
{
    let records = count(kept);
    if has_controls(shape, kept) {
        1 + records
    } else {
        records
    }
}

// One monitor more.
fn push_watch(list: &mut Vec<(ConnId, u32, u32)>, row: &Watched) -> Result<(), NoMemory>
    ensures { OnOk result (list.new.items ≡ list.old.items ++ triple_of row.now.monitor ∷ []) }
{
    let monitor = row.monitor;
    list.push((monitor.conn, monitor.index, monitor.header))?;
    Ok(())
}

// The monitors.
fn watches_of(alloc: Global, rows: &[Watched]) -> Result<Vec<(ConnId, u32, u32)>, NoMemory>
    ensures { IfOk result (λ list. list.items ≡ map (λ (row : Watched). triple_of row.monitor)
        rows.now) }
{
    let mut list = Vec::new(alloc);
    for row in rows {
        push_watch(&mut list, row)?;
    }
    Ok(list)
}

// The controls.
#[tactic(auto, using(crate::proofs::RowLaws::placed_told))]
fn controls(alloc: Global, kept: &Kept) -> Result<ListItem, NoMemory>
    ensures { IfOk result (λ item. item ≡ controls_of kept.now.content) }
{
    let limits = Vec::from_slice(alloc, kept.limits())?;
    let locks = Vec::from_slice(alloc, kept.locks())?;
    let watches = watches_of(alloc, kept.watched())?;
    Ok(ListItem::Controls {
        next: kept.next(),
        limits: Listing::from_vec(limits),
        locks: Listing::from_vec(locks),
        watches: Listing::from_vec(watches),
    })
}

// A copy of a record of a header.
fn row(alloc: Global, kept: &Kept, header: u32, rec: &Rec) -> Result<ListItem, NoMemory>
    requires { HasChain kept.now.chains rec.now.body }
    ensures { IfOk result (λ item. item ≡ row_of header (record_in kept.now.chains rec.now)) }
{
    let body = kept.read(alloc, &rec.body)?;
    Ok(ListItem::Row {
        header,
        id: rec.id,
        version: rec.version,
        name: rec.name,
        key: rec.key,
        body,
        adj: rec.adj,
    })
}

// A copy of the record at a place of a header.
#[tactic(auto, using(crate::proofs::RowLaws::rows_told))]
fn row_at(alloc: Global, kept: &Kept, header: u32, place: u32) -> Result<ListItem, NoMemory>
    requires { place < length (records_of kept.now.content.lists header) }
    ensures { IfOk result (λ item. option_map (row_of header)
        (slice_get (records_of kept.now.content.lists header) place) ≡ Some item) }
{
    match kept.at(header, place) {
        Some(rec) => row(alloc, kept, header, rec),
        None => unreachable!(),
    }
}

// A copy of a record, counted from 0.
#[tactic(auto, using(crate::proofs::RowLaws::rows_told))]
fn copy_row(alloc: Global, kept: &Kept, k: u32) -> Result<ListItem, NoMemory>
    requires { k < count_of kept.now.content.lists }
    ensures { IfOk result (λ item. slice_get (rows_from 0 kept.now.content.lists) k ≡ Some item) }
{
    let mut left = k;
    for header in 0..kept.headers() {
        let len = kept.len(header);
        if left < len {
            return row_at(alloc, kept, header, left);
        }
        left -= len;
    }
    unreachable!()
}

/// A copy of an item, counted from 0.
#[tactic(auto, using(crate::proofs::RowLaws::items_told))]
pub(crate) fn copy_item(
    alloc: Global,
    shape: Shape,
    kept: &Kept,
    k: u32,
) -> Result<ListItem, NoMemory>
    requires { k < length (items_of shape kept.now.content) }
    ensures { IfOk result (λ item. slice_get (items_of shape kept.now.content) k ≡ Some item) }
{
    if !has_controls(shape, kept) {
        return copy_row(alloc, kept, k);
    }
    if k == 0 {
        return controls(alloc, kept);
    }
    copy_row(alloc, kept, k - 1)
}

// One monitor more, with its bit.
fn push_row(kept: &Kept, rows: &mut Vec<Watched>, watch: (ConnId, u32, u32)) -> Result<(), NoMemory>
    ensures { OnOk result (rows.new.items ≡ rows.old.items ++ told_row kept.now.content.lists watch
        ∷ []) }
{
    let (conn, index, header) = watch;
    let monitor = Monitor {
        conn,
        index,
        header,
    };
    let full = kept.len(header) != 0;
    rows.push(Watched { monitor, full })?;
    Ok(())
}

// The monitors, with their bits.
fn rows_of(
    alloc: Global,
    kept: &Kept,
    watches: &[(ConnId, u32, u32)],
) -> Result<Vec<Watched>, NoMemory>
    ensures rows { IfOk result (λ rows. rows.items ≡ map (told_row kept.now.content.lists)
        watches.now) }
    ensures few { OnOk result (length watches.now < 4294967296) }
{
    if watches.len() > u32::MAX as usize {
        return Err(NoMemory::beyond_counts());
    }
    let mut rows = Vec::new(alloc);
    for watch in watches {
        push_row(kept, &mut rows, *watch)?;
    }
    Ok(rows)
}

// Puts a record behind the others of a header; want of memory hands it back, and is told beside it.
fn place_row(
    kept: &mut Kept,
    header: u32,
    bare: Bare,
    body: Option<Body>,
) -> Result<(), (ListItem, NoMemory)>
    requires header { header < length kept.old.content.lists }
    requires alone { list_any (is_id bare.id) (all_records kept.old.content.lists) ≡ false }
    requires orderly { IsOrderly kept.old.elements
        (content_with kept.old.content (row_of header (with_data bare body))).lists }
    ensures ok { OnOk result (kept.new.content
        ≡ content_with kept.old.content (row_of header (with_data bare body))) }
    ensures err { OnErr result (kept.new.content ≡ kept.old.content) }
    ensures handed_back { IfErr result (λ back. back.0 ≡ row_of header (with_data bare body)) }
    ensures elements { kept.new.elements ≡ kept.old.elements }
    ensures vector { kept.new.vector ≡ kept.old.vector }
{
    let Bare {
        id,
        version,
        name,
        key,
        adj,
    } = bare;
    match kept.push(header, bare, &body) {
        Ok(()) => Ok(()),
        Err(refused) => {
            let row = ListItem::Row {
                header,
                id,
                version,
                name,
                key,
                body,
                adj,
            };
            Err((row, refused))
        }
    }
}

ghost use Rattle.std.specs.Prelude.{false};
ghost use Rattle.list_model.specs.ListStore.Lists.{all_records, is_id, records_of};
ghost use Rattle.list_model.specs.ListStore.Records.{record_in, HasChain};
ghost use Rattle.list_kept.specs.Data.{with_data};
ghost use Rattle.list_kept.specs.Orderly.{IsOrderly};

/// Puts an item behind the others; want of memory hands it back, and is told beside it.
#[tactic(auto, using(crate::proofs::RowLaws::placed_told))]
pub(crate) fn place_item(
    alloc: Global,
    kept: &mut Kept,
    item: ListItem,
) -> Result<(), (ListItem, NoMemory)>
    requires { IsPlaceable kept.old.elements kept.old.content item }
    ensures ok { OnOk result (kept.new.content ≡ content_with kept.old.content item) }
    ensures err { OnErr result (kept.new.content ≡ kept.old.content) }
    ensures handed_back { IfErr result (λ back. back.0 ≡ item) }
    ensures elements { kept.new.elements ≡ kept.old.elements }
    ensures vector { kept.new.vector ≡ kept.old.vector }
{
    match item {
        ListItem::Controls {
            next,
            limits,
            locks,
            watches,
        } => match rows_of(alloc, kept, watches.items()) {
            Ok(rows) => {
                kept.take_over(next, limits.into_vec(), locks.into_vec(), rows);
                Ok(())
            }
            Err(refused) => {
                let controls = ListItem::Controls {
                    next,
                    limits,
                    locks,
                    watches,
                };
                Err((controls, refused))
            }
        },
        ListItem::Row {
            header,
            id,
            version,
            name,
            key,
            body,
            adj,
        } => {
            let bare = Bare {
                id,
                version,
                name,
                key,
                adj,
            };
            place_row(kept, header, bare, body)
        }
    }
}
