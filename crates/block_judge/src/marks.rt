ghost use Rattle.std.specs.Prelude.{◌≡◌, ◌↔◌, ◌∷◌, [], Some, true};
ghost use Rattle.engine_api.specs.Points.{AreMarksOf};
ghost use Rattle.block_judge.specs.Fits.{facility_told};
ghost use Rattle.struct_machine.specs.Turns.{asks_in};

use cf_types::CfId;
use engine_api::{Entry, What};
use struct_machine::Asked;

/// The facility of a mark; none where the entry is a call.
pub(crate) fn facility<C, R>(entry: &Entry<C, R>) -> Option<CfId>
    ensures { result ≡ facility_told entry.now.what }
{
    match &entry.what {
        What::Call(_) => None,
        What::Lost(cf) => Some(*cf),
    }
}

// Whether a facility is the one that is named.
fn is_named(at: Option<CfId>, cf: CfId) -> bool
    ensures { (result ≡ true) ↔ (at ≡ Some cf) }
{
    match at {
        Some(other) => other.0 == cf.0,
        None => false,
    }
}

/// Whether a call that asks these links may have one mark, of this facility.
pub(crate) fn may_mark(asked: Asked, cf: CfId) -> bool
    ensures { (result ≡ true) ↔ AreMarksOf (asks_in asked) (cf ∷ []) }
{
    if is_named(asked.first, cf) {
        return true;
    }
    is_named(asked.second, cf)
}

/// Whether a call that asks these links may have two marks, of this facility and of the other one
/// behind it.
pub(crate) fn may_mark_both(asked: Asked, cf: CfId, other: CfId) -> bool
    ensures { (result ≡ true) ↔ AreMarksOf (asks_in asked) (cf ∷ other ∷ []) }
{
    if asked.stops || !is_named(asked.first, cf) {
        return false;
    }
    is_named(asked.second, other)
}
