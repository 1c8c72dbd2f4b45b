//! The end of registrations, and what is told of it.
ghost use Rattle.std.specs.Prelude.{◌≡◌, ◌≤◌, [], IsTrue, length};
ghost use Rattle.std.specs.List.{list_all};
ghost use Rattle.cache_regs.specs.declared.registrations.Registration.{Registration};
ghost use Rattle.cache_regs.specs.Registrations.{is_at, is_for, is_of, ends_with_name, stands};
ghost use Rattle.cf_types.specs.Gains.{Gains};
ghost use Rattle.cache_regs.specs.Registry.{is_callers, is_within};
ghost use Rattle.cache_regs.specs.Ends.{is_elsewhere, spares, ends_of, FitsEnds, HasEnded};

use crate::maps::Maps;
use cf_types::limits::CALLERS;
use cf_types::{BitChange, ConnId, Effects, Name16};

/// Whether a connector is the one that is spared.
pub(crate) fn is_spared(spare: Option<ConnId>, conn: ConnId) -> bool
    ensures { result ≡ spares spare conn }
{
    match spare {
        Some(spared) => conn == spared,
        None => false,
    }
}

// Ends the registration at a place, if there is one.
fn end_at(maps: &mut Maps, conn: ConnId, index: u32, out: &mut Effects)
    requires { FitsEnds (is_at conn index) maps.old.regs out.old.bits.room }
    ensures ended { HasEnded (is_at conn index) maps.old.regs maps.new.regs
        out.old.bits.items out.new.bits.items out.old.bits.room out.new.bits.room }
    ensures mail { out.new.mail ≡ out.old.mail }
    ensures place { maps.old.room ≤ maps.new.room }
{
    if maps.take(conn, index) {
        out.bits.push(BitChange {
            conn,
            index,
            bit: false,
        });
    }
}

// Ends a connector's registration for a name, if there is one.
fn end_for(maps: &mut Maps, conn: ConnId, name: &Name16, out: &mut Effects)
    requires { FitsEnds (is_for conn name.now) maps.old.regs out.old.bits.room }
    ensures ended { HasEnded (is_for conn name.now) maps.old.regs maps.new.regs
        out.old.bits.items out.new.bits.items out.old.bits.room out.new.bits.room }
    ensures mail { out.new.mail ≡ out.old.mail }
    ensures place { maps.old.room ≤ maps.new.room }
{
    if let Some(index) = maps.index_of(conn, name) {
        end_at(maps, conn, index, out);
    }
}

/// Ends a connector's registration for a name, where it isn't at this index.
pub(crate) fn end_elsewhere(
    maps: &mut Maps,
    conn: ConnId,
    index: u32,
    name: &Name16,
    out: &mut Effects,
)
    requires { FitsEnds (is_elsewhere conn index name.now) maps.old.regs out.old.bits.room }
    ensures ended { HasEnded (is_elsewhere conn index name.now) maps.old.regs maps.new.regs
        out.old.bits.items out.new.bits.items out.old.bits.room out.new.bits.room }
    ensures mail { out.new.mail ≡ out.old.mail }
    ensures place { maps.old.room ≤ maps.new.room }
{
    if let Some(at) = maps.index_of(conn, name) {
        if at != index {
            end_at(maps, conn, at, out);
        }
    }
}

// Ends a connector's registration for a name, if it isn't spared.
fn end_unspared(
    maps: &mut Maps,
    conn: ConnId,
    name: &Name16,
    spare: Option<ConnId>,
    out: &mut Effects,
)
    requires { FitsEnds (ends_of name.now spare conn) maps.old.regs out.old.bits.room }
    ensures ended { HasEnded (ends_of name.now spare conn) maps.old.regs maps.new.regs
        out.old.bits.items out.new.bits.items out.old.bits.room out.new.bits.room }
    ensures mail { out.new.mail ≡ out.old.mail }
    ensures place { maps.old.room ≤ maps.new.room }
{
    if !is_spared(spare, conn) {
        end_for(maps, conn, name, out);
    }
}

/// Ends the registrations for a name, but those of the connector that is spared.
pub(crate) fn end_name(maps: &mut Maps, name: &Name16, spare: Option<ConnId>, out: &mut Effects)
    requires callers { IsTrue (list_all is_callers maps.old.regs) }
    requires room { FitsEnds (ends_with_name name.now spare) maps.old.regs out.old.bits.room }
    ensures ended { HasEnded (ends_with_name name.now spare) maps.old.regs maps.new.regs
        out.old.bits.items out.new.bits.items out.old.bits.room out.new.bits.room }
    ensures mail { out.new.mail ≡ out.old.mail }
    ensures place { maps.old.room ≤ maps.new.room }
{
    for conn in 0..CALLERS {
        end_unspared(maps, ConnId(conn), name, spare, out);
    }
}

/// Ends the registrations of a connector, at the indexes below a length.
pub(crate) fn end_conn(maps: &mut Maps, len: u32, conn: ConnId, out: &mut Effects)
    requires within { IsTrue (list_all (is_within len) maps.old.regs) }
    requires room { FitsEnds (is_of conn) maps.old.regs out.old.bits.room }
    ensures ended { HasEnded (is_of conn) maps.old.regs maps.new.regs
        out.old.bits.items out.new.bits.items out.old.bits.room out.new.bits.room }
    ensures mail { out.new.mail ≡ out.old.mail }
    ensures place { maps.old.room ≤ maps.new.room }
{
    for index in 0..len {
        end_at(maps, conn, index, out);
    }
}

/// Ends all registrations.
pub(crate) fn end_all(maps: &mut Maps, out: &mut Effects)
    requires { length maps.old.regs ≤ out.old.bits.room }
    ensures regs { maps.new.regs ≡ [] }
    ensures bits { Gains (stands maps.old.regs) (stands maps.new.regs) out.old.bits.items
        out.new.bits.items }
    ensures mail { out.new.mail ≡ out.old.mail }
    ensures place { maps.old.room ≤ maps.new.room }
{
    while let Some((conn, index)) = maps.some_place() {
        end_at(maps, conn, index, out);
    }
}
