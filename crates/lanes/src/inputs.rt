// What a merge reads of its inputs, and the ready that it gives them.
ghost use Rattle.std.specs.Prelude.{◌≡◌, ◌≤◌, true, false, length};
ghost use Rattle.std.specs.List.{list_all};
ghost use Rattle.signals.specs.Payloads.{legal_strb};
ghost use Rattle.lanes.specs.Lanes.{max_lanes, count_of, per_lane};
ghost use Rattle.lanes.specs.Wide.{strobes_below, together};
ghost use Rattle.lanes.specs.Merge.{payload_at};

use super::strobes::weight;
use super::{Lanes, MAX_LANES, Offer, Wide};
use signals::MAX_STRB;
use std::array::from_fn;

// Whether each strobe is legal, valid or not.
pub(crate) fn has_legal_strobes(used: &[Offer]) -> bool
    ensures { result ≡ list_all (λ input. legal_strb input.payload) used.now }
{
    used.iter().all(|input| input.payload.strb <= MAX_STRB)
}

pub(crate) fn all_valid(used: &[Offer]) -> bool
    ensures { result ≡ list_all (λ input. input.valid) used.now }
{
    used.iter().all(|input| input.valid)
}

// Their data, side by side.
fn words(used: &[Offer]) -> [u32; MAX_LANES]
    ensures { result ≡ per_lane (length used.now) 0 (λ i. (payload_at used.now i).«data») }
{
    from_fn(|i| used.get(i).map_or(0, |input| input.payload.data))
}

// Their strobes, side by side.
#[tactic(auto, using(crate::proofs::Used::strobes_few))]
fn strobes(used: &[Offer]) -> u16
    requires few { length used.now ≤ max_lanes }
    requires legal { list_all (λ input. legal_strb input.payload) used.now ≡ true }
    ensures { result ≡ strobes_below (payload_at used.now) (length used.now) }
{
    let mut strobes = 0;
    for (i, input) in used.iter().enumerate() {
        strobes += u32::from(input.payload.strb) * weight(i);
    }
    strobes as u16
}

// The wide payload that they make.
pub(crate) fn together(used: &[Offer]) -> Wide
    requires few { length used.now ≤ max_lanes }
    requires legal { list_all (λ input. legal_strb input.payload) used.now ≡ true }
    ensures { result ≡ together (length used.now) (payload_at used.now) }
{
    Wide {
        data: words(used),
        strb: strobes(used),
    }
}

// The same ready to each of them.
pub(crate) fn given(lanes: Lanes, ready: bool) -> [bool; MAX_LANES]
    ensures { result ≡ per_lane (count_of lanes) false (λ i. ready) }
{
    from_fn(|i| i < lanes.count() && ready)
}
