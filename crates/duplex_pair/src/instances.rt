//! Instances that end.
ghost use Rattle.std.specs.Prelude.{◌≡◌, ◌||◌, Some, true, false, option_map, if◌then◌else◌};
ghost use Rattle.engine_api.specs.Instances.{is_at};
ghost use Rattle.duplex_pair.specs.Pairs.{facility_of, elsewhere, first_left, second_left};

use crate::lost::Lost;
use crate::placed::Placed;
use cf_types::CfId;

// Where an instance stands.
pub(crate) fn place_of<E>(instance: &Option<Placed<E>>) -> Option<CfId>
    ensures { result ≡ facility_of instance.now }
{
    match instance {
        Some(placed) => Some(placed.at),
        None => None,
    }
}

// The engine of an instance.
pub(crate) fn engine_in<E: Drop>(instance: Option<Placed<E>>) -> Option<E>
    ensures { result ≡ option_map (λ p. p.engine) instance }
{
    match instance {
        Some(placed) => Some(placed.engine),
        None => None,
    }
}

// An instance that is lost is dropped, and the secondary takes the place of a primary that is.
pub(crate) fn drop_lost<E: Drop>(
    primary: &mut Option<Placed<E>>,
    secondary: &mut Option<Placed<E>>,
    lost: Lost,
)
    ensures primary { primary.new ≡ first_left (elsewhere lost.first primary.old)
        (elsewhere lost.second secondary.old) }
    ensures secondary { secondary.new ≡ second_left (elsewhere lost.first primary.old)
        (elsewhere lost.second secondary.old) }
{
    drop_in(primary, lost.first);
    drop_in(secondary, lost.second);
    if primary.is_none() {
        *primary = secondary.take();
    }
}

// Takes the instance in a facility out of the two. Where the other is left, that one is the
// primary.
pub(crate) fn take_at<E: Drop>(
    primary: &mut Option<Placed<E>>,
    secondary: &mut Option<Placed<E>>,
    cf: CfId,
) -> E
    requires there { (is_at cf (facility_of primary.old)
        || is_at cf (facility_of secondary.old)) ≡ true }
    requires apart { is_at cf (facility_of primary.old) ≡ true
        → is_at cf (facility_of secondary.old) ≡ false }
    ensures handed { Some result ≡ option_map (λ p. p.engine)
        (if is_at cf (facility_of primary.old) then primary.old else secondary.old) }
    ensures primary { primary.new ≡ first_left (elsewhere (Some cf) primary.old)
        (elsewhere (Some cf) secondary.old) }
    ensures secondary { secondary.new ≡ second_left (elsewhere (Some cf) primary.old)
        (elsewhere (Some cf) secondary.old) }
{
    let taken = if is_there(primary, cf) {
        primary.take()
    } else {
        secondary.take()
    };
    if primary.is_none() {
        *primary = secondary.take();
    }
    match taken {
        Some(placed) => placed.engine,
        None => unreachable!(),
    }
}

// Drops an instance that stands in the facility that is named.
fn drop_in<E: Drop>(instance: &mut Option<Placed<E>>, cf: Option<CfId>)
    ensures { instance.new ≡ elsewhere cf instance.old }
{
    if let Some(cf) = cf {
        if is_there(instance, cf) {
            *instance = None;
        }
    }
}

// The instance stands in the facility.
fn is_there<E>(instance: &Option<Placed<E>>, cf: CfId) -> bool
    ensures { result ≡ is_at cf (facility_of instance.now) }
{
    match instance {
        Some(placed) => placed.at.0 == cf.0,
        None => false,
    }
}
