//! Notes of what passes know.
ghost use Rattle.std.specs.Prelude.{◌≡◌, ◌≤◌, max};

use crate::note::Note;
use crate::pass::Pass;
use crate::plays::Tell;
use crate::vectors::Vectors;

impl<D> Vectors<D> {
    /// A note of the numbers that the pass has.
    #[tactic(auto, using(crate::proofs::Tables::id_of, crate::proofs::Steps::splits_note))]
    pub fn tell(&self, pass: &mut Pass<D>) -> Note<D>
        requires { pass.old.table ≡ self.now }
        ensures note { result ≡ record {
          table = pass.old.table;
          known = pass.old.known;
          sure = pass.old.sure;
        } }
        ensures pass { pass.new ≡ pass.old }
        ensures ordered { result.sure ≤ result.known }
    {
        Note {
            known: pass.known,
            sure: pass.sure,
            seat: self.table.shared.split_seat::<Tell>(&mut pass.seat),
        }
    }

    /// A second note with the same numbers.
    #[tactic(auto, using(crate::proofs::Tables::id_of, crate::proofs::Steps::splits_note))]
    pub fn copy_note(&self, note: &mut Note<D>) -> Note<D>
        requires { note.old.table ≡ self.now }
        ensures copy { result ≡ note.old }
        ensures note { note.new ≡ note.old }
        ensures ordered { result.sure ≤ result.known }
    {
        Note {
            known: note.known,
            sure: note.sure,
            seat: self.table.shared.split_seat::<Tell>(&mut note.seat),
        }
    }

    /// Tells a note to the pass, whose numbers are then each the larger of both. It answers the
    /// number of a call that the pass has now seen complete.
    #[tactic(auto, using(crate::proofs::Tables::id_of, crate::proofs::Steps::joins_note))]
    pub fn told(&self, pass: &mut Pass<D>, note: Note<D>) -> u32
        requires pass { pass.old.table ≡ self.now }
        requires note { note.table ≡ self.now }
        ensures pass { pass.new ≡ record pass.old {
          known = max pass.old.known note.known;
          sure = max pass.old.sure note.sure;
        } }
        ensures sure { result ≡ pass.new.sure }
        ensures ordered { pass.new.sure ≤ pass.new.known }
    {
        pass.known = pass.known.max(note.known);
        pass.sure = pass.sure.max(note.sure);
        self.table
            .shared
            .join_seat::<Tell>(&mut pass.seat, note.into_seat());
        pass.sure
    }
}
