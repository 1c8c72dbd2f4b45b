//! The sublists that a command may turn: from the one it takes a record, to the other it brings one.
ghost use Rattle.std.specs.Prelude.{◌≡◌, None};
ghost use Rattle.std.specs.Option.{option_or};
ghost use Rattle.list_model.specs.Lists.{the_record};
ghost use Rattle.list_model.specs.Sublists.{sublist_at, sublist_of, turning};

use cf_types::{At, Key16, ListCmd};
use list_kept::{Kept, record_at, sublist_of};
use list_model::{Sublist, Turning};

// The sublist of a record of a header, which may have a key.
fn sublist_at(header: u32, key: Option<Key16>) -> Option<Sublist>
    ensures { result ≡ sublist_at header key }
{
    match key {
        Some(key) => Some(Sublist { header, key }),
        None => None,
    }
}

// The key of the record that a command names; none where there is no such record.
fn key_at(kept: &Kept, at: At) -> Option<Key16>
    ensures { result ≡ (the_record kept.now.content.lists at).key }
{
    match record_at(kept, at) {
        Some(rec) => rec.key,
        None => None,
    }
}

// The key with which that record comes to its new place.
fn moved_key(kept: &Kept, at: At, key: Option<Key16>) -> Option<Key16>
    ensures { result ≡ option_or key (the_record kept.now.content.lists at).key }
{
    match key {
        Some(key) => Some(key),
        None => key_at(kept, at),
    }
}

// What WRITE may turn.
fn of_write(header: u32, key: Option<Key16>) -> Turning
    ensures { result ≡ record { empties = None; fills = sublist_at header key } }
{
    let fills = sublist_at(header, key);
    Turning {
        empties: None,
        fills,
    }
}

// What MOVE may turn.
fn of_move(kept: &Kept, at: At, header: u32, key: Option<Key16>) -> Turning
    ensures { result ≡ record {
      empties = sublist_of kept.now.content.lists at;
      fills = sublist_at header (option_or key (the_record kept.now.content.lists at).key);
    } }
{
    let empties = sublist_of(kept, at);
    let fills = sublist_at(header, moved_key(kept, at, key));
    Turning { empties, fills }
}

// What DELETE may turn.
fn of_delete(kept: &Kept, at: At) -> Turning
    ensures { result ≡ record { empties = sublist_of kept.now.content.lists at; fills = None } }
{
    let empties = sublist_of(kept, at);
    Turning {
        empties,
        fills: None,
    }
}

/// The sublists that a command may turn.
pub(crate) fn turning(kept: &Kept, cmd: &ListCmd) -> Turning
    ensures { result ≡ turning kept.now.content cmd.now }
{
    match cmd {
        ListCmd::Write { header, key, .. } => of_write(*header, *key),
        ListCmd::Move {
            at,
            header,
            key,
            ..
        } => of_move(kept, *at, *header, *key),
        ListCmd::Delete { at, .. } => of_delete(kept, *at),
        _ => Turning {
            empties: None,
            fills: None,
        },
    }
}
