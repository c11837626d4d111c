// Merge and split: two or four 32-bit streams made into one wide stream, and a wide stream taken apart again.
//
// Writes out request T-01. Both are functions of one cycle and keep no state.
#![tactic(auto)]

mod branches; // branches.rt: what a split reads, and what it offers
mod inputs; // inputs.rt: what a merge reads of its inputs
mod strobes; // strobes.rt: where the strobes of a lane lie

ghost use Rattle.std.specs.Prelude.{◌≡◌, ◌≤◌};
ghost use Rattle.lanes.specs.Lanes.{max_lanes, count_of, Counted};
ghost use Rattle.lanes.specs.Merge as ofMerge;
ghost use Rattle.lanes.specs.Split as ofSplit;
ghost use Rattle.lanes.specs.Answers.{answer_of};

use branches::{all_ready, has_strobe_past, offers};
use inputs::{all_valid, given, has_legal_strobes, together};
use signals::{Payload, Refusal, ZEROS};

// The most lanes of a wide stream.
pub const MAX_LANES: usize = 4;

// What a stream's source offers in one cycle. Valid stands beside the payload, two wires, both of which C hands over: an input may show
// any payload with valid 0, and its strobes are looked at even then (`legal_strobes`). Only what a split offers has zeros there.
#[repr(C)]
#[derive(Clone, Copy)]
pub struct Offer {
    pub valid: bool,
    pub payload: Payload,
}

// What a wide stream carries in one cycle: a word for each lane, lane 0 first, and four strobe bits for each, those of lane 0 lowest.
// An array of four and a number of 16 bits are C's layout: with two lanes the last two words are not used.
#[repr(C)]
#[derive(Clone, Copy)]
pub struct Wide {
    pub data: [u32; MAX_LANES],
    pub strb: u16,
}

// What is offered, and what is shown, when valid is 0: constants, which a `Default` would not be.
const NO_OFFER: Offer = Offer {
    valid: false,
    payload: ZEROS,
};

const NOTHING: Wide = Wide {
    data: [0; MAX_LANES],
    strb: 0,
};

// What a merge shows its output, and the ready that it gives each input. valid beside the wide word, with zeros where it is 0, as a split
// is given both (`Cycle` of `specs/Wired.antt`).
#[derive(Clone, Copy)]
pub struct MergeCycle {
    pub valid: bool,
    pub wide: Wide,
    pub readies: [bool; MAX_LANES],
}

// The ready that a split gives its source, and what it offers each branch.
#[derive(Clone, Copy)]
pub struct SplitCycle {
    pub ready: bool,
    pub branches: [Offer; MAX_LANES],
}

// What stands where a merge is refused: every output is 0.
pub const NO_MERGE: MergeCycle = MergeCycle {
    valid: false,
    wide: NOTHING,
    readies: [false; MAX_LANES],
};

// What stands where a split is refused: every output is 0.
pub const NO_SPLIT: SplitCycle = SplitCycle {
    ready: false,
    branches: [NO_OFFER; MAX_LANES],
};

// How many lanes a wide stream has.
#[derive(Clone, Copy, Debug, PartialEq, Eq)]
enum Lanes {
    Two,
    Four,
}

impl TryFrom<u8> for Lanes {
    type Error = Refusal;

    ghost try_from_gives = { Counted };

    fn try_from(lanes: u8) -> Result<Lanes, Refusal> {
        match lanes {
            2 => Ok(Lanes::Two),
            4 => Ok(Lanes::Four),
            _ => Err(Refusal::BadCount),
        }
    }
}

impl Lanes {
    fn count(self) -> usize
        ensures value { result ≡ count_of self }
        ensures few { result ≤ max_lanes }
    {
        match self {
            Lanes::Two => 2,
            Lanes::Four => 4,
        }
    }
}

// One cycle of a merge. Only the first `lanes` inputs are read: a number beside four inputs, as C gives them, so that another number than
// 2 and 4 is refused with 5 (`grounds` of `ofMerge.answer`).
#[tactic(auto, unfolding(crate::specs::Merge::answer), using(crate::proofs::Used::inputs_used))]
pub fn merge(lanes: u8, inputs: [Offer; MAX_LANES], ready: bool) -> Result<MergeCycle, Refusal>
    ensures { answer_of ofMerge.zeros result ≡ ofMerge.answer lanes inputs ready }
{
    let lanes = Lanes::try_from(lanes)?;
    let used = &inputs[..lanes.count()];
    if !has_legal_strobes(used) {
        return Err(Refusal::IllegalBits);
    }
    let valid = all_valid(used);
    Ok(MergeCycle {
        valid,
        wide: if valid { together(used) } else { NOTHING },
        readies: given(lanes, ready && valid),
    })
}

// One cycle of a split. Only the first `lanes` words and readies are read: a number beside four of each, as C gives them, so that another
// number than 2 and 4 is refused with 5 (`grounds` of `ofSplit.answer`).
#[tactic(auto, unfolding(crate::specs::Split::answer), using(crate::proofs::Used::all_first))]
pub fn split(
    lanes: u8,
    valid: bool,
    wide: Wide,
    readies: [bool; MAX_LANES],
) -> Result<SplitCycle, Refusal>
    ensures { answer_of ofSplit.zeros result ≡ ofSplit.answer lanes valid wide readies }
{
    let lanes = Lanes::try_from(lanes)?;
    if has_strobe_past(lanes, wide) {
        return Err(Refusal::IllegalBits);
    }
    let ready = all_ready(&readies[..lanes.count()]);
    Ok(SplitCycle {
        ready,
        branches: offers(lanes, valid && ready, wide),
    })
}
