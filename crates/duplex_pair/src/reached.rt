//! Links that are asked, by their facilities.
ghost use Rattle.std.specs.Prelude.{◌≡◌, ◌≢◌, IfSome, Some};
ghost use Rattle.cf_types.specs.declared.numbers.CfId.{CfId};
ghost use Rattle.cf_types.specs.Forms.{IsFacility};
ghost use Rattle.cf_link.specs.Asks.{IsAsked, IsAskedWhere};
ghost use Rattle.engine_api.specs.Instances.{is_at};
ghost use Rattle.duplex_pair.specs.Pairs.{facility_of};
ghost use Rattle.cf_link.specs.Links.{link_at};

use crate::placed::Placed;
use cf_link::{Down, Link, Links};
use cf_types::CfId;

// Asks the link of an instance, where one stands. The facility is told where the instance is lost.
pub(crate) fn ask_instance<E, L: Link>(
    links: &mut Links<L>,
    instance: &Option<Placed<E>>,
) -> Option<CfId>
    requires place { IfSome (facility_of instance.now) IsFacility }
    ensures lost { IfSome result (λ cf. facility_of instance.now ≡ Some cf) }
    ensures links { (cf : CfId) → IsFacility cf → IsAskedWhere L.calls L.downs L.faults
        (is_at cf (facility_of instance.now)) (is_at cf result)
        (link_at links.old cf) (link_at links.new cf) }
{
    match instance {
        Some(placed) if is_down(links, placed.at) => Some(placed.at),
        _ => None,
    }
}

// Asks the link to a facility.
pub(crate) fn is_down<L: Link>(links: &mut Links<L>, cf: CfId) -> bool
    requires place { IsFacility cf }
    ensures asked { IsAsked L.calls L.downs L.faults result
        (link_at links.old cf) (link_at links.new cf) }
    ensures others { (other : CfId) → IsFacility other → other.0 ≢ cf.0
        → link_at links.new other ≡ link_at links.old other }
{
    match cf.0 {
        1 => answers_down(&mut links.one),
        2 => answers_down(&mut links.two),
        3 => answers_down(&mut links.three),
        _ => answers_down(&mut links.four),
    }
}

// Asks a link.
fn answers_down<L: Link>(link: &mut L) -> bool
    ensures { IsAsked L.calls L.downs L.faults result link.old link.new }
{
    match link.ask() {
        Ok(()) => false,
        Err(Down) => true,
    }
}
