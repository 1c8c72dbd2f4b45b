//! The end of monitors, and what is told of it.
ghost use Rattle.std.specs.Prelude.{◌≡◌, ◌+◌, ◌≤◌, ◌++◌, length, filter};
ghost use Rattle.std.specs.Vec.{vec_len, vec_capacity};
ghost use Rattle.cf_types.specs.Gains.{Gains};
ghost use Rattle.list_watch.specs.Monitors.{AreMonitors};
ghost use Rattle.list_watch.specs.Rows.{monitors_of, bit_of};
ghost use Rattle.list_watch.specs.Ends.{is_ended, is_cleared, rows_ended, clear_changes};

use crate::monitors::Watched;
use cf_types::{BitChange, ConnId, Effects};

/// Which monitors end: a connector's of a header, but not at this index; a connector's of a header;
/// or all of a connector's.
#[derive(Clone, Copy)]
pub(crate) enum Ends {
    Elsewhere {
        conn: ConnId,
        index: u32,
        header: u32,
    },
    Header {
        conn: ConnId,
        header: u32,
    },
    Conn {
        conn: ConnId,
    },
}

impl Ends {
    // Whether a monitor ends.
    fn ends(&self, row: &Watched) -> bool
        ensures { result ≡ is_ended self.now row.now }
    {
        let monitor = row.monitor;
        match self {
            Ends::Elsewhere {
                conn,
                index,
                header,
            } => { monitor.conn == *conn && monitor.header == *header && monitor.index != *index }
            Ends::Header { conn, header } => monitor.conn == *conn && monitor.header == *header,
            Ends::Conn { conn } => monitor.conn == *conn,
        }
    }
}

// Clears the bits of the monitors that end.
fn tell(rows: &[Watched], ends: Ends, out: &mut Effects)
    requires { length (filter (is_cleared ends) rows.now) ≤ out.old.bits.room }
    ensures bits { out.new.bits.items ≡ out.old.bits.items ++ clear_changes ends rows.now }
    ensures room { out.new.bits.room + length (filter (is_cleared ends) rows.now) ≡
        out.old.bits.room }
    ensures mail { out.new.mail ≡ out.old.mail }
{
    for row in rows {
        if row.full && ends.ends(row) {
            out.bits.push(BitChange {
                conn: row.monitor.conn,
                index: row.monitor.index,
                bit: false,
            });
        }
    }
}

/// Ends monitors, and clears their bits.
pub(crate) fn end(rows: &mut Vec<Watched>, ends: Ends, out: &mut Effects)
    requires apart { AreMonitors (monitors_of rows.old.items) }
    requires room { length (filter (is_cleared ends) rows.old.items) ≤ out.old.bits.room }
    ensures rows { rows.new.items ≡ rows_ended ends rows.old.items }
    ensures bits { Gains (bit_of rows.old.items) (bit_of rows.new.items) out.old.bits.items
        out.new.bits.items }
    ensures room { out.new.bits.room + length (filter (is_cleared ends) rows.old.items) ≡
        out.old.bits.room }
    ensures mail { out.new.mail ≡ out.old.mail }
    ensures fewer { vec_len rows.new + length (filter (is_ended ends) rows.old.items) ≡ vec_len
        rows.old }
    ensures capacity { vec_capacity rows.new ≡ vec_capacity rows.old }
{
    tell(rows, ends, out);
    rows.retain(|row| !ends.ends(row));
}
