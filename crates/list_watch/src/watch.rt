ghost use Rattle.std.specs.Prelude.{◌≡◌, ◌+◌, ◌≤◌, ◌<◌, ◌++◌, ◌∷◌, [], if◌then◌else◌, IfOk, OnOk, option_map, find, length, filter};
ghost use Rattle.std.specs.List.{list_any};
ghost use Rattle.std.specs.Vec.{vec_len, vec_capacity};
ghost use Rattle.cf_types.specs.Forms.{IsCaller};
ghost use Rattle.cf_types.specs.Gains.{Gains};
ghost use Rattle.list_watch.specs.Monitors.{is_at, is_for, monitored_at, AreMonitors};
ghost use Rattle.list_watch.specs.Rows.{monitors_of, bit_of, row_turned, rows_turned, rows_with, rows_without, rows_of_others};
ghost use Rattle.list_watch.specs.Ends.{differs, is_turned, turn_changes, rows_put};

use crate::ends::{Ends, end};
use crate::monitors::{Monitor, Watched};
use cf_types::{BitChange, ConnId, Effects, NoMemory};
use std::alloc::Global;
use std::marker::Model;

/// The monitors of a list structure, one at most of a connector at an index, and one at most of a
/// connector for a header. Contracts see them in the order in which they were made, with the bits
/// that were told, how many bits a vector has, and for how many more monitors there is room.
#[derive(Drop)]
pub struct Watch {
    rows: Vec<Watched>,
    len: u32,
}

impl Model for Watch {
    ghost use Rattle.list_watch.specs.WatchView.{WatchView, watch_view, IsKept};

    ghost Value = { WatchView };

    ghost view = { watch_view };

    ghost invariant = { IsKept };
}

// Whether a bit stands.
fn is_lit(rows: &[Watched], conn: ConnId, index: u32) -> bool
    ensures { result ≡ bit_of rows.now conn index }
{
    rows.iter().any(|row| row.monitor.conn == conn && row.monitor.index == index && row.full)
}

// Tells the connectors that monitor a header whether it has records.
fn tell(rows: &[Watched], header: u32, full: bool, out: &mut Effects)
    requires { length (filter (is_turned header full) rows.now) ≤ out.old.bits.room }
    ensures bits { out.new.bits.items ≡ out.old.bits.items ++ turn_changes header full rows.now }
    ensures room { out.new.bits.room + length (filter (is_turned header full) rows.now) ≡
        out.old.bits.room }
    ensures mail { out.new.mail ≡ out.old.mail }
{
    for row in rows {
        if row.monitor.header == header && row.full != full {
            out.bits.push(BitChange {
                conn: row.monitor.conn,
                index: row.monitor.index,
                bit: full,
            });
        }
    }
}

// A monitor of a header takes its bit.
fn turn(row: &mut Watched, header: u32, full: bool)
    ensures { row.new ≡ row_turned header full row.old }
{
    if row.monitor.header == header {
        row.full = full;
    }
}

// All monitors of a header take its bit.
fn turn_all(rows: &mut Vec<Watched>, header: u32, full: bool)
    ensures rows { rows.new.items ≡ rows_turned header full rows.old.items }
    ensures len { vec_len rows.new ≡ vec_len rows.old }
    ensures capacity { vec_capacity rows.new ≡ vec_capacity rows.old }
{
    for row in rows.iter_mut() {
        turn(row, header, full);
    }
}

// Tells of a bit where it stood otherwise.
fn say(stood: bool, conn: ConnId, index: u32, bit: bool, out: &mut Effects)
    requires { 1 ≤ out.old.bits.room }
    ensures bits { out.new.bits.items ≡ (if differs stood bit
        then out.old.bits.items ++ record { conn = conn; index = index; bit = bit } ∷ []
        else out.old.bits.items) }
    ensures room { out.old.bits.room ≤ out.new.bits.room + 1 }
    ensures mail { out.new.mail ≡ out.old.mail }
{
    if stood != bit {
        out.bits.push(BitChange { conn, index, bit });
    }
}

// The header that a connector monitors at an index.
fn header_at(rows: &[Watched], conn: ConnId, index: u32) -> Option<u32>
    ensures { result ≡ option_map (λ row. row.monitor.header)
        (find (λ row. is_at conn index row.monitor) rows.now) }
{
    rows.iter()
        .find(|row| row.monitor.conn == conn && row.monitor.index == index)
        .map(|row| row.monitor.header)
}

// Puts a monitor in place of what stands at its index.
fn put(rows: &mut Vec<Watched>, new: Watched, out: &mut Effects)
    requires place { vec_len rows.old < vec_capacity rows.old }
    requires room { 1 ≤ out.old.bits.room }
    ensures rows { rows.new.items ≡ rows_put new rows.old.items }
    ensures bits { Gains (bit_of rows.old.items) (bit_of rows.new.items) out.old.bits.items
        out.new.bits.items }
    ensures room { out.old.bits.room ≤ out.new.bits.room + 1 }
    ensures mail { out.new.mail ≡ out.old.mail }
    ensures more { vec_len rows.new ≤ vec_len rows.old + 1 }
    ensures capacity { vec_capacity rows.old ≤ vec_capacity rows.new }
{
    let Monitor { conn, index, .. } = new.monitor;
    say(is_lit(rows, conn, index), conn, index, new.full, out);
    rows.retain(|row| !(row.monitor.conn == conn && row.monitor.index == index));
    rows.push_reserved(new);
}

impl Watch {
    /// No monitors, for structures of so many connections and of vectors of so many bits. It takes
    /// no memory yet. The number of connections plays no part: monitors are for any caller.
    pub fn new(alloc: Global, _conns: u8, len: u32) -> Result<Watch, NoMemory>
        ensures rows { IfOk result (λ watch. watch.rows ≡ []) }
        ensures len { IfOk result (λ watch. watch.len ≡ len) }
    {
        Ok(Watch {
            rows: Vec::new(alloc),
            len,
        })
    }

    /// The same monitors once more.
    pub fn copy(&self, alloc: Global) -> Result<Watch, NoMemory>
        ensures rows { IfOk result (λ copy. copy.rows ≡ self.now.rows) }
        ensures len { IfOk result (λ copy. copy.len ≡ self.now.len) }
    {
        let rows = Vec::from_slice(alloc, self.rows.as_slice())?;
        Ok(Watch {
            rows,
            len: self.len,
        })
    }

    /// The monitors, in the order in which they were made.
    pub fn items(&self) -> &[Watched]
        ensures items { result.now ≡ self.now.rows }
        ensures monitors { AreMonitors (monitors_of self.now.rows) }
        ensures few { length self.now.rows < 4294967296 }
    {
        self.rows.as_slice()
    }

    /// The header that a connector monitors at an index.
    pub fn at(&self, conn: ConnId, index: u32) -> Option<u32>
        ensures { result ≡ monitored_at (monitors_of self.now.rows) conn index }
    {
        header_at(&self.rows, conn, index)
    }

    /// Whether the bit of a connector's vector at an index stands.
    pub fn stands(&self, conn: ConnId, index: u32) -> bool
        ensures { result ≡ bit_of self.now.rows conn index }
    {
        is_lit(&self.rows, conn, index)
    }

    /// Takes room for one more monitor, and room in the effects for what one command tells. Want of
    /// memory changes nothing.
    pub fn room(&mut self, out: &mut Effects) -> Result<(), NoMemory>
        ensures rows { self.new.rows ≡ self.old.rows }
        ensures len { self.new.len ≡ self.old.len }
        ensures place { OnOk result (1 ≤ self.new.room) }
        ensures bits { OnOk result (length self.new.rows + length self.new.rows + 2 ≤
            out.new.bits.room) }
        ensures told { out.new.bits.items ≡ out.old.bits.items }
        ensures mail { out.new.mail ≡ out.old.mail }
    {
        if self.rows.len() >= u32::MAX as usize {
            return Err(NoMemory::beyond_counts());
        }
        self.rows.reserve(1)?;
        let count = self.rows.len() * 2 + 2;
        out.bits.reserve(count)
    }

    /// A connector monitors a header at an index: its monitor at that index, and its monitor of
    /// that header at another one, end. `full` is whether the header has records. At most two bits
    /// change.
    pub fn set(&mut self, conn: ConnId, index: u32, header: u32, full: bool, out: &mut Effects)
        requires caller { IsCaller conn }
        requires index { index < self.old.len }
        requires place { 1 ≤ self.old.room }
        requires room { 2 ≤ out.old.bits.room }
        ensures rows { self.new.rows ≡ rows_with conn index header full self.old.rows }
        ensures len { self.new.len ≡ self.old.len }
        ensures bits { Gains (bit_of self.old.rows) (bit_of self.new.rows) out.old.bits.items
            out.new.bits.items }
        ensures mail { out.new.mail ≡ out.old.mail }
    {
        end(
            &mut self.rows,
            Ends::Elsewhere {
                conn,
                index,
                header,
            },
            out,
        );
        let monitor = Monitor {
            conn,
            index,
            header,
        };
        put(&mut self.rows, Watched { monitor, full }, out);
    }

    /// Ends a connector's monitor of a header, and tells whether there was one. Its bit is cleared.
    #[tactic(auto, using(crate::proofs::MonitorLaws::fewer))]
    pub fn clear(&mut self, conn: ConnId, header: u32, out: &mut Effects) -> bool
        requires { length self.old.rows ≤ out.old.bits.room }
        ensures found { result ≡ list_any (λ row. is_for conn header row.monitor) self.old.rows }
        ensures rows { self.new.rows ≡ rows_without conn header self.old.rows }
        ensures len { self.new.len ≡ self.old.len }
        ensures bits { Gains (bit_of self.old.rows) (bit_of self.new.rows) out.old.bits.items
            out.new.bits.items }
        ensures mail { out.new.mail ≡ out.old.mail }
    {
        let found = self.rows.iter().any(|row| row.monitor.conn == conn
            && row.monitor.header == header);
        end(&mut self.rows, Ends::Header { conn, header }, out);
        found
    }

    /// A header has records from now on, or has none: the bits of its monitors become so.
    #[tactic(auto, using(crate::proofs::MonitorLaws::fewer, crate::proofs::BitLaws::gains_turned))]
    pub fn turned(&mut self, header: u32, full: bool, out: &mut Effects)
        requires { length self.old.rows ≤ out.old.bits.room }
        ensures rows { self.new.rows ≡ rows_turned header full self.old.rows }
        ensures len { self.new.len ≡ self.old.len }
        ensures bits { Gains (bit_of self.old.rows) (bit_of self.new.rows) out.old.bits.items
            out.new.bits.items }
        ensures mail { out.new.mail ≡ out.old.mail }
        ensures room { out.old.bits.room ≤ out.new.bits.room + length self.old.rows }
        ensures monitors { AreMonitors (monitors_of self.old.rows) }
    {
        tell(&self.rows, header, full, out);
        turn_all(&mut self.rows, header, full);
    }

    /// The same, where the bits are nobody's yet: nothing is told.
    pub fn settle(&mut self, header: u32, full: bool)
        ensures rows { self.new.rows ≡ rows_turned header full self.old.rows }
        ensures len { self.new.len ≡ self.old.len }
    {
        turn_all(&mut self.rows, header, full);
    }

    /// Ends a connector's monitors. The bit of each is cleared.
    #[tactic(auto, using(crate::proofs::MonitorLaws::fewer))]
    pub fn drop_conn(&mut self, conn: ConnId, out: &mut Effects)
        requires { length self.old.rows ≤ out.old.bits.room }
        ensures rows { self.new.rows ≡ rows_of_others conn self.old.rows }
        ensures len { self.new.len ≡ self.old.len }
        ensures bits { Gains (bit_of self.old.rows) (bit_of self.new.rows) out.old.bits.items
            out.new.bits.items }
        ensures mail { out.new.mail ≡ out.old.mail }
    {
        end(&mut self.rows, Ends::Conn { conn }, out);
    }

    /// Takes monitors in place of its own, and tells nothing.
    pub fn restore(&mut self, rows: Vec<Watched>)
        requires monitors { AreMonitors (monitors_of rows.items) }
        requires few { vec_len rows < 4294967296 }
        ensures rows { self.new.rows ≡ rows.items }
        ensures len { self.new.len ≡ self.old.len }
    {
        self.rows = rows;
    }

    /// Ends all monitors, and tells nothing.
    pub fn forget(&mut self)
        ensures rows { self.new.rows ≡ [] }
        ensures len { self.new.len ≡ self.old.len }
    {
        self.rows.clear();
    }
}
