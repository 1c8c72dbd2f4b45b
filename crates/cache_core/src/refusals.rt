//! Causes of refusals that commands share.
ghost use Rattle.std.specs.Prelude.{◌≡◌};
ghost use Rattle.std.specs.Result.{result_err};
ghost use Rattle.cache_model.specs.Rows.{is_held_by, row_of};
ghost use Rattle.cache_model.specs.Refusals.{gives_up, use_refusal, index_refusal, storage_refusal, class_refusal, castout_refusal, registration_refusal, change_refusal, entry_refusal, holder_refusal, held_refusal, held_by_other_refusal, not_held_refusal, unchanged_refusal};

use cache_model::Holder;
use cache_model::registrations::Regs;
use cache_rows::{Row, Rows};
use cf_types::limits::{CASTOUT_CLASSES, STORAGE_CLASSES};
use cf_types::{ConnId, Name16, Refusal};

/// What judging a command comes to: why it is refused, if it is.
pub(crate) type Judged = Result<(), Refusal>;

// Whether the caller gives up a name.
fn gives_up(old: Option<Name16>, name: &Name16) -> bool
    ensures { result ≡ gives_up old name.now }
{
    match old {
        Some(old) => old == *name,
        None => false,
    }
}

// The index is in use for another name than the one asked and the one given up.
fn use_refusal(held: Option<Name16>, name: &Name16, old: Option<Name16>) -> Judged
    ensures { result_err result ≡ use_refusal held name.now old }
{
    match held {
        Some(held) => {
            if held == *name || gives_up(old, &held) {
                Ok(())
            } else {
                Err(Refusal::IndexInUse { name: held })
            }
        }
        None => Ok(()),
    }
}

/// The index rule.
pub(crate) fn index_refusal(
    vector: u32,
    regs: &Regs,
    conn: ConnId,
    name: &Name16,
    index: u32,
    old: Option<Name16>,
) -> Judged
    ensures { result_err result ≡ index_refusal vector regs.now.regs conn name.now index old }
{
    if vector <= index {
        return Err(Refusal::BadIndex { index, len: vector });
    }
    use_refusal(regs.at(conn, index), name, old)
}

/// The storage class is one of 1 to 8.
pub(crate) fn storage_refusal(stg: u32) -> Judged
    ensures { result_err result ≡ storage_refusal stg }
{
    if 1 <= stg && stg <= STORAGE_CLASSES {
        Ok(())
    } else {
        Err(Refusal::BadClass { class: stg })
    }
}

/// The castout class is one of 1 to 16.
pub(crate) fn class_refusal(class: u32) -> Judged
    ensures { result_err result ≡ class_refusal class }
{
    if 1 <= class && class <= CASTOUT_CLASSES {
        Ok(())
    } else {
        Err(Refusal::BadClass { class })
    }
}

/// The same where there is a class.
pub(crate) fn castout_refusal(class: Option<u32>) -> Judged
    ensures { result_err result ≡ castout_refusal class }
{
    match class {
        Some(class) => class_refusal(class),
        None => Ok(()),
    }
}

/// Where it is asked for, only a caller that is registered for the name may write.
pub(crate) fn registration_refusal(
    regs: &Regs,
    conn: ConnId,
    name: &Name16,
    when_reg: bool,
) -> Judged
    ensures { result_err result ≡ registration_refusal regs.now.regs conn name.now when_reg }
{
    if when_reg && !regs.is_registered(conn, name) {
        return Err(Refusal::NotRegistered);
    }
    Ok(())
}

// Whether the row of a name is changed.
fn is_changed_row(row: Option<Row<'_>>) -> bool
    ensures { result ≡ is_changed_row row.entry }
{
    match row {
        Some(row) => row.class().is_some(),
        None => false,
    }
}

ghost use Rattle.cache_model.specs.Refusals.{is_changed_row};

/// A changed row isn't written as unchanged.
pub(crate) fn change_refusal(rows: &Rows, name: &Name16, class: Option<u32>) -> Judged
    ensures { result_err result ≡ change_refusal rows.now.rows name.now class }
{
    if class.is_none() && is_changed_row(rows.row(name)) {
        return Err(Refusal::IsChanged);
    }
    Ok(())
}

/// The name has no row.
pub(crate) fn entry_refusal(rows: &Rows, name: &Name16) -> Judged
    ensures { result_err result ≡ entry_refusal (row_of name.now rows.now.rows) }
{
    match rows.row(name) {
        Some(_) => Ok(()),
        None => Err(Refusal::NoEntry),
    }
}

// The row is held by anyone.
fn holder_refusal(holder: Option<Holder>) -> Judged
    ensures { result_err result ≡ holder_refusal holder }
{
    match holder {
        Some(holder) => Err(Refusal::CastoutHeld { by: holder.conn }),
        None => Ok(()),
    }
}

// Whether a connector holds the castout lock.
fn is_held_by(conn: ConnId, holder: Option<Holder>) -> bool
    ensures { result ≡ is_held_by conn holder }
{
    match holder {
        Some(holder) => holder.conn == conn,
        None => false,
    }
}

/// The row of the name is held by anyone.
pub(crate) fn held_refusal(rows: &Rows, name: &Name16) -> Judged
    ensures { result_err result ≡ held_refusal (row_of name.now rows.now.rows) }
{
    match rows.row(name) {
        Some(row) => holder_refusal(row.holder()),
        None => Ok(()),
    }
}

// A row is held by another than the connector.
fn other_refusal(conn: ConnId, holder: Option<Holder>) -> Judged
    ensures { result_err result ≡ (if is_held_by conn holder then None else holder_refusal holder) }
{
    if is_held_by(conn, holder) {
        Ok(())
    } else {
        holder_refusal(holder)
    }
}

/// The row of the name is held by another than the connector.
pub(crate) fn held_by_other_refusal(rows: &Rows, conn: ConnId, name: &Name16) -> Judged
    ensures { result_err result ≡ held_by_other_refusal conn (row_of name.now rows.now.rows) }
{
    match rows.row(name) {
        Some(row) => other_refusal(conn, row.holder()),
        None => Ok(()),
    }
}

ghost use Rattle.std.specs.Prelude.{if◌then◌else◌, Some, None};
ghost use Rattle.cf_types.specs.declared.refusals.Refusal.TheVariants.{NotHeld};

// A row isn't held by the connector.
fn no_hold_refusal(conn: ConnId, holder: Option<Holder>) -> Judged
    ensures { result_err result ≡ (if is_held_by conn holder then None else Some NotHeld) }
{
    if is_held_by(conn, holder) {
        Ok(())
    } else {
        Err(Refusal::NotHeld)
    }
}

/// The row of the name isn't held by the connector.
pub(crate) fn not_held_refusal(rows: &Rows, conn: ConnId, name: &Name16) -> Judged
    ensures { result_err result ≡ not_held_refusal conn (row_of name.now rows.now.rows) }
{
    match rows.row(name) {
        Some(row) => no_hold_refusal(conn, row.holder()),
        None => Ok(()),
    }
}

/// The row of the name is unchanged.
pub(crate) fn unchanged_refusal(rows: &Rows, name: &Name16) -> Judged
    ensures { result_err result ≡ unchanged_refusal (row_of name.now rows.now.rows) }
{
    match rows.row(name) {
        Some(row) => {
            if row.class().is_some() {
                Ok(())
            } else {
                Err(Refusal::NotChanged)
            }
        }
        None => Ok(()),
    }
}
