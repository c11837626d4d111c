// Where the strobes of a lane lie in a wide stream's strb.
ghost use Rattle.std.specs.Prelude.{◌≡◌, ◌≤◌, ◌^◌};
ghost use Rattle.lanes.specs.Lanes.{max_lanes};

use super::MAX_LANES;

// How many values the four strobes of a lane have.
pub(crate) const STROBES: u32 = 16;

// What the lowest strobe of each lane counts for in strb, and last what one past four lanes would. A table, since `pow` is a loop.
const WEIGHTS: [u32; MAX_LANES + 1] = [1, 16, 256, 4096, 65536];

pub(crate) fn weight(i: usize) -> u32
    requires { i ≤ max_lanes }
    ensures { result ≡ 16 ^ i }
{
    WEIGHTS[i]
}
