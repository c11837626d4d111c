// Merge and split of wide streams.
ghost use Rattle.std.specs.Prelude.{◌≡◌};
ghost use Rattle.lanes.specs.Merge as ofMerge;
ghost use Rattle.lanes.specs.Split as ofSplit;
ghost use Rattle.exports.specs.Lanes.{merge_numbers, split_numbers};

use lanes::{MAX_LANES, MergeCycle, NO_MERGE, NO_SPLIT, Offer, Wide};

// What each input offers. An exported function takes no array, so it is in a struct, and one that is handed to C has no type parameter.
#[repr(C)]
#[derive(Clone, Copy)]
pub struct Inputs {
    pub each: [Offer; MAX_LANES],
}

// Which branches are ready, in a struct of their own for the same reasons.
#[repr(C)]
#[derive(Clone, Copy)]
pub struct Readies {
    pub each: [bool; MAX_LANES],
}

// What a merge shows its output, and the ready that it gives each input: `MergeCycle` with a refusal, flat, as C reads it.
#[repr(C)]
#[derive(Clone, Copy)]
pub struct MergeStep {
    pub refusal: u8,
    pub valid: bool,
    pub wide: Wide,
    pub readies: [bool; MAX_LANES],
}

// The ready that a split gives its source, and what it offers each branch: `SplitCycle` with a refusal, flat, as C reads it.
#[repr(C)]
#[derive(Clone, Copy)]
pub struct SplitStep {
    pub refusal: u8,
    pub ready: bool,
    pub branches: [Offer; MAX_LANES],
}

#[unsafe(no_mangle)]
pub extern "C" fn floealder_merge(lanes: u8, inputs: Inputs, ready: bool) -> MergeStep
    ensures { result ≡ merge_numbers (ofMerge.answer lanes inputs.each ready) }
{
    let answer = lanes::merge(lanes, inputs.each, ready);
    let MergeCycle {
        valid,
        wide,
        readies,
    } = answer.unwrap_or(NO_MERGE);
    MergeStep {
        refusal: crate::refusal(&answer),
        valid,
        wide,
        readies,
    }
}

#[unsafe(no_mangle)]
pub extern "C" fn floealder_split(lanes: u8, valid: bool, wide: Wide, readies: Readies) -> SplitStep
    ensures { result ≡ split_numbers (ofSplit.answer lanes valid wide readies.each) }
{
    let answer = lanes::split(lanes, valid, wide, readies.each);
    let refusal = crate::refusal(&answer);
    // A match, as for a step.
    match answer {
        Ok(cycle) => {
            let branches = cycle.branches;
            SplitStep {
                refusal,
                ready: cycle.ready,
                branches,
            }
        }
        Err(_) => {
            let branches = NO_SPLIT.branches;
            SplitStep {
                refusal,
                ready: NO_SPLIT.ready,
                branches,
            }
        }
    }
}
