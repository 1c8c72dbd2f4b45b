//! What commands do to the row of a name.
ghost use Rattle.std.specs.Prelude.{◌≡◌, ◌≤◌, [], ◌∷◌, Some};
ghost use Rattle.cache_model.specs.Rows.{elements_in, row_or_new, rows_replaced};
ghost use Rattle.cache_model.specs.Contents.{rows_spared};
ghost use Rattle.cache_model.specs.Commands.Write as write;
ghost use Rattle.cache_model.specs.Commands.Castout as castout;
ghost use Rattle.cache_model.specs.Commands.Unlock as unlock;
ghost use Rattle.cache_rows.specs.Listed.{rows_but};
ghost use Rattle.cache_rows.specs.Stored.{label_of, label_written, label_unlocked};

use crate::label::{Label, is_rewritten};
use crate::rows::Rows;
use cache_model::Holder;
use cf_types::{Adjunct, Body, ConnId, Name16};

// With new class and adjunct; where the row is held it is rewritten.
fn written(label: Label, class: Option<u32>, adj: Option<Adjunct>) -> Label
    ensures { result ≡ label_written class adj label }
{
    Label {
        adj,
        class,
        holder: label.holder.map(|holder| Holder {
            rewritten: true,
            ..holder
        }),
        ..label
    }
}

// Of a row that is held no more: unchanged, unless it was written.
fn unlocked(label: Label) -> Label
    ensures { result ≡ label_unlocked label }
{
    let class = if is_rewritten(label.holder) {
        label.class
    } else {
        None
    };
    Label {
        class,
        holder: None,
        ..label
    }
}

impl Rows {
    // What the directory says of a name: that of its row, or of a new one of this storage class.
    #[tactic(auto, using(cache_model::proofs::RowLaws::found_named))]
    fn label_or_new(&self, name: &Name16, stg: u32) -> Label
        ensures label { result ≡ label_of (row_or_new name.now stg self.now.rows) }
        ensures named { result.name ≡ name.now }
    {
        match self.row(name) {
            Some(row) => row.label(),
            None => Label::new(name, stg),
        }
    }

    // Ends the row of a name, unless that is the one that is spared.
    #[tactic(auto, using(crate::proofs::ChangeLaws::spared_told))]
    fn end_other(&mut self, name: &Name16, spared: &Name16)
        ensures rows { self.new.rows ≡ rows_but spared.now (name.now ∷ []) self.old.rows }
        ensures room { self.old.room ≤ self.new.room }
        ensures entries { self.new.entries ≡ self.old.entries }
        ensures elements { self.new.elements ≡ self.old.elements }
    {
        if *name != *spared {
            self.remove(name);
        }
    }

    // Ends the rows of these names, but for that of the one that is spared.
    fn end_others(&mut self, names: &[Name16], spared: &Name16)
        ensures rows { self.new.rows ≡ rows_but spared.now names.now self.old.rows }
        ensures room { self.old.room ≤ self.new.room }
        ensures entries { self.new.entries ≡ self.old.entries }
        ensures elements { self.new.elements ≡ self.old.elements }
    {
        for name in names {
            self.end_other(name, spared);
        }
    }

    /// Ends the rows of the names that are gone. The row of a name, or a new one of this storage
    /// class, becomes the most recently used where it is unchanged.
    pub fn read(&mut self, gone: &[Name16], name: &Name16, stg: u32)
        requires { 1 ≤ self.old.room }
        ensures rows { self.new.rows
            ≡ rows_replaced (row_or_new name.now stg self.old.rows)
            (rows_spared gone.now self.old.rows) }
        ensures entries { self.new.entries ≡ self.old.entries }
        ensures elements { self.new.elements ≡ self.old.elements }
    {
        self.end_others(gone, name);
        if !self.touch(name) {
            self.set(&Label::new(name, stg));
        }
    }

    /// Ends the rows of the names that are gone. The row of a name, or a new one of this storage
    /// class, takes data, adjunct and class; where it is held it is rewritten. There are elements
    /// for the data once the rows that are gone and the name's own data have given back theirs.
    #[tactic(auto, using(crate::proofs::ChangeLaws::written_same))]
    pub fn write(
        &mut self,
        gone: &[Name16],
        name: &Name16,
        body: &Body,
        class: Option<u32>,
        adj: Option<Adjunct>,
        stg: u32,
    )
        requires room { 1 ≤ self.old.room }
        requires fits { elements_in (rows_replaced
            (write.row_with body.now class adj (row_or_new name.now stg self.old.rows))
            (rows_spared gone.now self.old.rows)) ≤ self.old.elements }
        ensures rows { self.new.rows
            ≡ rows_replaced (write.row_with body.now class adj
            (row_or_new name.now stg self.old.rows)) (rows_spared gone.now self.old.rows) }
        ensures entries { self.new.entries ≡ self.old.entries }
        ensures elements { self.new.elements ≡ self.old.elements }
    {
        let old = self.label_or_new(name, stg);
        let label = written(old, class, adj);
        self.end_others(gone, name);
        self.store(&label, body);
    }

    /// A connector holds the castout lock of a row from now on.
    #[tactic(auto, using(crate::proofs::ChangeLaws::relabeled_same))]
    pub fn hold(&mut self, by: ConnId, name: &Name16)
        requires { 1 ≤ self.old.room }
        ensures rows { self.new.rows
            ≡ rows_replaced (castout.row_with_hold by (row_or_new name.now 1 self.old.rows))
            self.old.rows }
        ensures entries { self.new.entries ≡ self.old.entries }
        ensures elements { self.new.elements ≡ self.old.elements }
    {
        let label = self.label_or_new(name, 1);
        self.set(&Label {
            holder: Some(Holder {
                conn: by,
                rewritten: false,
            }),
            ..label
        });
    }

    /// The castout lock of a row is held no more. The row is unchanged then, unless it was written
    /// since.
    #[tactic(auto, using(crate::proofs::ChangeLaws::relabeled_same))]
    pub fn unlock(&mut self, name: &Name16)
        requires { 1 ≤ self.old.room }
        ensures rows { self.new.rows
            ≡ rows_replaced (unlock.row_without_hold (row_or_new name.now 1 self.old.rows))
            self.old.rows }
        ensures entries { self.new.entries ≡ self.old.entries }
        ensures elements { self.new.elements ≡ self.old.elements }
    {
        let old = self.label_or_new(name, 1);
        let label = unlocked(old);
        self.set(&label);
    }
}
