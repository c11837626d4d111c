// What a split reads of its source and of its branches, and what it offers them.
ghost use Rattle.std.specs.Prelude.{◌≡◌, ◌<◌};
ghost use Rattle.std.specs.List.{list_all};
ghost use Rattle.lanes.specs.Lanes.{max_lanes, count_of, per_lane};
ghost use Rattle.lanes.specs.Wide.{lane};
ghost use Rattle.lanes.specs.Split.{strobe_past};
ghost use Rattle.lanes.specs.Offers.{no_offer, offer_when};

use super::strobes::{STROBES, weight};
use super::{Lanes, MAX_LANES, NO_OFFER, Offer, Wide};
use signals::Payload;

// Whether a strobe past the lanes is set, valid or not.
pub(crate) fn has_strobe_past(lanes: Lanes, wide: Wide) -> bool
    ensures { result ≡ strobe_past (count_of lanes) wide }
{
    u32::from(wide.strb) >= weight(lanes.count())
}

pub(crate) fn all_ready(used: &[bool]) -> bool
    ensures { result ≡ list_all (λ ready. ready) used.now }
{
    used.iter().all(|ready| *ready)
}

// Lane i of a wide payload. By the index, which says where its strobes lie too.
#[tactic(auto, using(crate::proofs::Digits::pow_pos))]
fn lane(wide: Wide, i: usize) -> Payload
    requires { i < max_lanes }
    ensures { result ≡ lane wide i }
{
    Payload {
        data: wide.data[i],
        strb: (u32::from(wide.strb) / weight(i) % STROBES) as u8,
    }
}

// What branch i is offered.
fn offer(offered: bool, wide: Wide, i: usize) -> Offer
    requires { i < max_lanes }
    ensures { result ≡ offer_when offered (lane wide i) }
{
    if offered {
        Offer {
            valid: true,
            payload: lane(wide, i),
        }
    } else {
        NO_OFFER
    }
}

// Each branch's lane, to all of them or to none.
pub(crate) fn offers(lanes: Lanes, offered: bool, wide: Wide) -> [Offer; MAX_LANES]
    ensures { result ≡ per_lane (count_of lanes) no_offer (λ i. offer_when offered (lane wide i)) }
{
    let mut offers = [NO_OFFER; MAX_LANES];
    for i in 0..lanes.count() {
        offers[i] = offer(offered, wide, i);
    }
    offers
}
