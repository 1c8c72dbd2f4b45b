//! Capacities, and how near they are to others.
ghost use Rattle.std.specs.Prelude.{◌≡◌, ◌∷◌};
ghost use Rattle.cf_types.specs.Forms.{IsCapacity};
ghost use Rattle.engine_api.specs.Instances.{units_of};
ghost use Rattle.engine_api.specs.Meaning.{first_refusal};
ghost use Rattle.engine_api.specs.Shell.{if_small, if_too_small};
ghost use Rattle.alter_model.specs.Meaning.{toward, caps_toward, is_same, if_beyond, target_at as left_at};

use cf_types::{Caps, Kind, Refusal};

/// Why a capacity is too small for what there is.
pub fn small(need: u32, have: u32) -> Option<Refusal>
    ensures { result ≡ if_small need have }
{
    if have < need {
        Some(Refusal::TooSmall { need, have })
    } else {
        None
    }
}

/// The same of both numbers, the entries first; of a lock structure the elements alone.
pub fn too_small(kind: &Kind, need: Caps, caps: Caps) -> Option<Refusal>
    ensures { result ≡ first_refusal (if_too_small kind.now need caps) }
{
    match kind {
        Kind::Cache | Kind::List { .. } => match small(need.entries, caps.entries) {
            Some(refusal) => Some(refusal),
            None => small(need.elements, caps.elements),
        },
        Kind::Lock => small(need.elements, caps.elements),
    }
}

/// Why a target takes too many units.
pub fn beyond(target: Caps, base: Caps) -> Option<Refusal>
    requires { IsCapacity base }
    ensures { result ≡ if_beyond (units_of target) (units_of base) }
{
    let units = base.entries + base.elements;
    if u64::from(units) < u64::from(target.entries) + u64::from(target.elements) {
        Some(Refusal::BeyondUnits {
            asked: target.entries.saturating_add(target.elements),
            units,
        })
    } else {
        None
    }
}

/// Why a target isn't set.
pub fn start_refusal(kind: &Kind, need: Caps, base: Caps, target: Caps) -> Option<Refusal>
    requires { IsCapacity base }
    ensures { result ≡ first_refusal (if_beyond (units_of target) (units_of base) ∷
        if_too_small kind.now need target) }
{
    match beyond(target, base) {
        Some(refusal) => Some(refusal),
        None => too_small(kind, need, target),
    }
}

/// What is left of a target at these limits.
pub fn target_at(limits: Caps, target: Caps) -> Option<Caps>
    ensures { result ≡ left_at limits target }
{
    if same(limits, target) {
        None
    } else {
        Some(target)
    }
}

/// A number nearer to another, by `n` at most.
pub fn nearer(n: u32, from: u32, to: u32) -> u32
    ensures { result ≡ toward n from to }
{
    if to.saturating_sub(from) <= n && from.saturating_sub(to) <= n {
        to
    } else if from < to {
        from + n
    } else {
        from - n
    }
}

/// A capacity nearer to another, by `n` at most in each number.
pub fn caps_nearer(n: u32, from: Caps, to: Caps) -> Caps
    ensures { result ≡ caps_toward n from to }
{
    Caps {
        entries: nearer(n, from.entries, to.entries),
        elements: nearer(n, from.elements, to.elements),
    }
}

/// Whether two capacities are the same.
pub fn same(caps: Caps, other: Caps) -> bool
    ensures { result ≡ is_same caps other }
{
    caps.entries == other.entries && caps.elements == other.elements
}
