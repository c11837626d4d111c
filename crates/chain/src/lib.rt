// One to sixteen FIFOs in a row, a cycle or a trace at a time.
//
// Writes out the line of "The stage and the line" of document 01, with requests T-06, T-08, T-09 and T-12. The crate sees of a FIFO its
// value and its promise (`Queue` and `Promises` of `fifo`), and nothing of how it is kept. Demand 3, and what the delivery time means,
// stand in the crate `demand3`.
#![tactic(auto)]

mod form;
mod laid;
mod stage;
mod time;
mod trace;

ghost use Rattle.std.specs.Prelude.{◌≡◌, [], ◌∷◌};
ghost use Rattle.fifo.specs.Queue.{plain, empty};
ghost use Rattle.places.specs.Listing.{places_of};
ghost use Rattle.chain.specs.Calls.{well};
ghost use Rattle.chain.specs.Promises.{value, Made, Promised, step_done, run_done};

use fifo::{Fifo, Place};
use places::{MAX_FIFOS, Places, is_legal_count};
use signals::{Cycle, MAX_STRB, Refusal, Stepped};
use stage::walk;
use trace::Trace;

// A chain of FIFOs, document 01's line: the first `count` of them, the mouth's first. The C interface lays it out so.
#[repr(C)]
#[derive(Clone, Copy)]
pub struct Chain {
    pub count: usize,
    pub fifos: [Fifo; MAX_FIFOS],
}

impl Chain {
    // A chain of empty FIFOs, the mouth's place first.
    pub fn new(places: &[Place]) -> Result<Chain, Refusal>
        ensures { Made places.now result }
    {
        Chain::at(Places::read(places))
    }

    // The same by value, for a caller who has no list to lend. Places past the count are not looked at, and a count above sixteen is
    // refused as a count of 0 is.
    pub fn at(places: Places) -> Result<Chain, Refusal>
        ensures { Made (places_of places) result }
    {
        Chain::at_each(places.listed.get(..places.count).unwrap_or(&[]))
    }

    // An empty FIFO at each place that is listed.
    fn at_each(places: &[Place]) -> Result<Chain, Refusal>
        ensures { Made places.now result }
    {
        if !is_legal_count(places.len()) {
            return Err(Refusal::BadCount);
        }
        let mut fifos = [Fifo::smallest(); MAX_FIFOS];
        // By index: tried by `try_from_fn`, whose promise is of some state of its closure: which places were read stays open. It and an
        // array's `try_map` took over three times as long to make sixteen. After `iter_mut` in a `zip` the prover knows nothing of what was
        // written.
        for (i, place) in places.iter().enumerate() {
            fifos[i] = Fifo::new(*place)?;
        }
        Ok(Chain {
            count: places.len(),
            fifos,
        })
    }

    // What a caller has where a new chain was refused: one empty plain FIFO of depth 2.
    #[tactic(auto, unfolding(crate::specs::Promises::value))]
    pub fn shortest() -> Chain
        ensures { value result ≡ well (empty (plain 2) ∷ []) }
    {
        Chain {
            count: 1,
            fifos: [Fifo::smallest(); MAX_FIFOS],
        }
    }

    // One cycle of a chain that has its form; the held strobes are looked at first. The FIFOs step by value, since for one cycle laying
    // them out does not pay. The mouth is ready as its FIFO is, and not in a clear.
    pub fn step(self, cycle: Cycle) -> Result<Stepped<Chain>, Refusal>
        ensures { Promised self (step_done self cycle result) }
    {
        if !self.is_well() {
            return Err(Refusal::BadState);
        }
        if MAX_STRB < cycle.payload.strb {
            return Err(Refusal::IllegalBits);
        }
        let Chain { count, mut fifos } = self;
        let ready = !cycle.clear & fifos[0].is_ready();
        let shown = walk(&mut fifos[..count], cycle);
        Ok(Stepped {
            ready,
            valid: shown.valid,
            payload: shown.payload,
            next: Chain { count, fifos },
        })
    }

    // A cycle for each entry of the recorded offer, which may be a clear, and of the sink's readies. The outlet's trace goes into
    // the two outputs, whose entries past its length stay. Five slices, since C lends five to `floealder_chain_run`; the sink's readies
    // are bytes 0 and 1, as C lends them, and others are refused with 2 (`run_grounds`).
    pub fn run(
        self,
        control: &[u8],
        data: &[u32],
        sink: &[u8],
        out_control: &mut [u8],
        out_data: &mut [u32],
    ) -> Result<Chain, Refusal>
        ensures { Promised self (run_done self control.now «data».now sink.now out_control.old out_data.old result out_control.new out_data.new) }
    {
        let trace = Trace {
            control,
            data,
            sink,
        };
        self.refusal(trace, out_control, out_data)?;
        Ok(self.traced(trace, out_control, out_data))
    }
}
