// A chain's FIFOs in memory of a run, whose cycles copy no slot but the one that a payload joins.
ghost use Rattle.std.specs.Prelude.{◌≡◌, true, map, take};
ghost use Rattle.fifo.specs.Queue as queue;
ghost use Rattle.fifo.specs.Promises.{value as fifo_value};
ghost use Rattle.places.specs.Listing.{legal_count};
ghost use Rattle.chain.specs.Calls.{is_well};
ghost use Rattle.chain.specs.Promises.{value, line_of};
ghost use Rattle.chain.specs.Cycling.{part_value};

use super::Chain;
use super::stage::Stage;
use fifo::{Fifo, MAX_DEPTH, Pointers, SMALLEST};
use places::MAX_FIFOS;
use signals::Cycle;

// A FIFO with memory of its own, enough for the deepest, since there is no heap. Words and strobes are two arrays, as `Fifo::laid_in` and
// `Pointers::step` are lent them in two slices (`StepsIn`).
#[derive(Clone, Copy)]
pub(crate) struct Part {
    pointers: Pointers,
    words: [u32; MAX_DEPTH],
    strbs: [u8; MAX_DEPTH],
}

// The part of no FIFO.
pub(crate) const UNUSED: Part = Part {
    pointers: Pointers {
        place: SMALLEST,
        count: 0,
        oldest: 0,
    },
    words: [0; MAX_DEPTH],
    strbs: [0; MAX_DEPTH],
};

impl Part {
    // Lays a FIFO that has its form in this part.
    fn lay(&mut self, fifo: Fifo)
        requires { queue.is_well (fifo_value fifo) ≡ true }
        ensures { part_value self.new ≡ fifo_value fifo }
    {
        self.pointers = fifo.laid_in(&mut self.words, &mut self.strbs);
    }

    // The FIFO that lies in a part.
    fn gathered(&self) -> Fifo
        ensures { fifo_value result ≡ part_value self.now }
    {
        self.pointers.gathered(&self.words, &self.strbs)
    }
}

impl Stage for Part {
    ghost value_of = { part_value };

    fn is_ready(&self) -> bool {
        self.pointers.is_ready()
    }

    fn step(&mut self, cycle: Cycle) -> Cycle {
        match self.pointers.step(&mut self.words, &mut self.strbs, cycle) {
            Ok(stepped) => {
                self.pointers = stepped.next;
                Cycle {
                    valid: stepped.valid,
                    payload: stepped.payload,
                    ..cycle
                }
            }
            Err(_) => cycle,
        }
    }
}

impl Chain {
    // Lays the used FIFOs, each in a part.
    pub(crate) fn lay_out(&self, parts: &mut [Part; MAX_FIFOS])
        requires { is_well (value self.now) ≡ true }
        ensures { line_of (map part_value (take self.now.count parts.new)) ≡ value self.now }
    {
        // By index: `from_fn` would make a second array and copy it, and after `parts.iter_mut().zip(..)` the prover knows nothing of what
        // was written.
        for (j, fifo) in self.fifos[..self.count].iter().enumerate() {
            parts[j].lay(*fifo);
        }
    }

    // Puts the used FIFOs back as they lie in the parts.
    pub(crate) fn gather(&mut self, parts: &[Part; MAX_FIFOS])
        requires { legal_count self.old.count ≡ true }
        ensures { value self.new ≡ line_of (map part_value (take self.old.count parts.now)) }
    {
        // By index, as in `lay_out`: `from_fn` would make a second array and copy it, and `self.fifos.iter_mut().zip(..)` was tried.
        for (j, part) in parts[..self.count].iter().enumerate() {
            self.fifos[j] = part.gathered();
        }
    }
}
