// When a held payload is delivered, found in one pass over the FIFOs.
//
// The first payload of a FIFO waits for all those ahead, or goes through each FIFO ahead if that takes longer; each later one follows a
// cycle after the one before.
ghost use Rattle.std.specs.Prelude.{◌≡◌, true};
ghost use Rattle.chain.specs.Calls.{is_well};
ghost use Rattle.chain.specs.Promises.{value, Times};

use super::Chain;
use signals::Refusal;

impl Chain {
    // When payload i is delivered, held payloads being numbered from the outlet, 0 first, to a sink that is ready in this cycle and in
    // every later one, with no clear; 0 means this very cycle. What is offered meanwhile does not alter it.
    pub fn delivery_time(self, i: usize) -> Result<usize, Refusal>
        ensures { Times self i result }
    {
        if !self.is_well() {
            return Err(Refusal::BadState);
        }
        self.time_of(i)
    }

    // The walk goes from the outlet to the mouth: `ahead` FIFOs have been passed, payload i is payload `left` of those held behind them,
    // and the first of these goes after `busy` cycles at the soonest.
    fn time_of(&self, i: usize) -> Result<usize, Refusal>
        requires { is_well (value self.now) ≡ true }
        ensures { Times self.now i result }
    {
        let mut left = i;
        let mut busy = 0;
        for (ahead, fifo) in self.fifos[..self.count].iter().rev().enumerate() {
            let held = fifo.held();
            let first = busy.max(ahead);
            if left < held {
                return Ok(first + left);
            }
            busy = first + held;
            left -= held;
        }
        Err(Refusal::OutOfRange)
    }
}
