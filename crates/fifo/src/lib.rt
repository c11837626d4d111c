// One FIFO of payloads, a cycle at a time.
//
// Writes out the FIFO of "The stage and the line" of document 01, with requests T-06 and T-08. The value of a FIFO is its place, which is
// its depth and its kind, and its payloads, the oldest first (`specs/Queue.antt`); the ring that holds them (`specs/Ring.antt`) is nobody
// else's affair. The same FIFO may lie in lent memory (`memory.rt`).
#![tactic(auto)]

mod capacity;
mod memory;
mod ring;

ghost use Rattle.std.specs.Prelude.{◌≡◌, true, [], ◌∷◌, length, Ok};
ghost use Rattle.fifo.specs.Queue.{is_well, ready_of, queue_in, when, well, empty, plain, cycle_of};
ghost use Rattle.fifo.specs.Ring.{value, trusted, queue_of, in_range};
ghost use Rattle.fifo.specs.Promises.{Made, Steps, answered};

use ring::wrap;
use signals::{Cycle, MAX_STRB, Payload, Refusal, Stepped, ZEROS};

// The deepest FIFO.
pub const MAX_DEPTH: usize = 64;

// A place in a chain: the depth of the FIFO there, and whether it is early-stall or plain. The kind is a flag, since C hands places over
// (`floealder_fifo_new`), and a struct that is exported has no enum.
#[repr(C)]
#[derive(Clone, Copy)]
pub struct Place {
    pub depth: usize,
    pub early_stall: bool,
}

// The place of the one FIFO that stands where a new FIFO or chain was refused.
pub const SMALLEST: Place = Place {
    depth: 2,
    early_stall: false,
};

// A FIFO, document 01's stage. `count` payloads lie in the slots from `oldest` on, around the end at the depth of its place. C writes
// its fields, so its form is tested and not an invariant.
#[repr(C)]
#[derive(Clone, Copy)]
pub struct Fifo {
    pub place: Place,
    pub count: usize,
    pub oldest: usize,
    pub slots: [Payload; MAX_DEPTH],
}

// A FIFO but for its slots, which lie in lent memory. `Fifo` has these fields flat, as C lays it out.
#[derive(Clone, Copy)]
pub struct Pointers {
    pub place: Place,
    pub count: usize,
    pub oldest: usize,
}

impl Fifo {
    // An empty FIFO.
    pub fn new(place: Place) -> Result<Fifo, Refusal>
        ensures { Made place result }
    {
        if !place.is_legal() {
            return Err(Refusal::BadDepth);
        }
        Ok(Fifo::empty(place))
    }

    // What a caller has where a new FIFO was refused: an empty one, plain, of depth 2.
    pub fn smallest() -> Fifo
        ensures { value result ≡ well (empty (plain 2)) }
    {
        Fifo::empty(SMALLEST)
    }

    // Whether a FIFO has its form, held strobes included.
    pub fn is_well(self) -> bool
        ensures { result ≡ is_well (value self) }
    {
        if !self.is_in_range() {
            return false;
        }
        // By a loop: tried as `all` over the range, and search did not prove that its closure may be called at each turn. Its place goes on
        // from slot to slot: made anew from the count, the look at 63 strobes took a quarter longer.
        let mut at = self.oldest;
        for _i in 0..self.count {
            let held = self.slots[at];
            if MAX_STRB < held.strb {
                return false;
            }
            at = wrap(self.place.depth, at + 1);
        }
        true
    }

    // Whether a FIFO whose held strobes are trusted is ready to its source.
    pub fn is_ready(self) -> bool
        ensures { result ≡ ready_of (trusted self) }
    {
        self.is_in_range() & self.pointers().is_ready()
    }

    // How many payloads a FIFO holds whose held strobes are trusted; none where its numbers are not in range.
    pub fn held(self) -> usize
        ensures { result ≡ length (queue_in (trusted self)).held }
    {
        if self.is_in_range() { self.count } else { 0 }
    }

    // One cycle of a FIFO that has its form; the held strobes are looked at first.
    pub fn step(self, cycle: Cycle) -> Result<Stepped<Fifo>, Refusal>
        ensures { Steps value self cycle.valid cycle.payload cycle.sink cycle.clear result }
    {
        if !self.is_well() {
            return Err(Refusal::BadState);
        }
        self.step_trusted(cycle)
    }

    // One cycle of a FIFO whose held strobes are trusted: what is tested of its form takes constant time.
    pub fn step_trusted(self, cycle: Cycle) -> Result<Stepped<Fifo>, Refusal>
        ensures { Steps trusted self cycle.valid cycle.payload cycle.sink cycle.clear result }
    {
        if !self.is_in_range() {
            return Err(Refusal::BadState);
        }
        if MAX_STRB < cycle.payload.strb {
            return Err(Refusal::IllegalBits);
        }
        Ok(self.cycle(cycle))
    }

    // One cycle, nothing being refused. The slots are copied out once and back once.
    // A trait for the two kinds of slots, with its clauses and two instances, would be longer than the lines shared with `Pointers::step`.
    fn cycle(self, given: Cycle) -> Stepped<Fifo>
        requires { in_range self ≡ true }
        ensures { answered trusted self (Ok result)
            ≡ cycle_of (queue_of self) (when given.valid (given.payload ∷ [])) given.sink given.clear }
    {
        let pointers = self.pointers();
        let mut slots = self.slots;
        let shown = pointers.shown(given.clear);
        let payload = match shown {
            Some(at) => slots[at],
            None => ZEROS,
        };
        let turn = pointers.turn(given);
        if let Some(at) = turn.joined {
            slots[at] = given.payload;
        }
        // valid beside the payload, as the definitions read them (`answered`): zeros where it is 0.
        Stepped {
            ready: turn.ready,
            valid: shown.is_some(),
            payload,
            next: turn.next.with_slots(slots),
        }
    }
}
