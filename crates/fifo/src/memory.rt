// A FIFO in lent memory, for a caller that steps it often: a step writes the one slot that a payload joins, and copies no other.
//
// Slot i is word i with strobe i (`specs/Memory.antt`). A caller lays a FIFO in the memory, steps its pointers there, and gathers it again.
// The two slices stay two parameters: a struct of them would have to promise with each call that it holds the same slices as before.
// Nor are they one slice of payloads: the public calls take two slices, of words and of strobes, and `StepsIn` speaks of both.
ghost use Rattle.std.specs.Prelude.{◌≡◌, ◌&&◌};
ghost use Rattle.fifo.specs.Ring.{trusted, numbers_in_range};
ghost use Rattle.fifo.specs.Memory.{has_slots, trusted_in};
ghost use Rattle.fifo.specs.Promises.{LaysIn, StepsIn};

use super::{Fifo, MAX_DEPTH, Place, Pointers};
use signals::{Cycle, MAX_STRB, Payload, Refusal, Stepped, ZEROS};
use std::array::from_fn;

// The pointers of no FIFO. No `Option`: `LaysIn` promises pointers for every FIFO, and these stand for none.
const NOWHERE: Pointers = Pointers {
    place: Place {
        depth: 0,
        early_stall: false,
    },
    count: 0,
    oldest: 0,
};

impl Fifo {
    // Lays a FIFO in lent memory, whose slots past its depth stay. The held strobes are not looked at. Where its numbers are not in range
    // or there is too little memory, the pointers stand for no FIFO, and nothing is written.
    pub fn laid_in(self, words: &mut [u32], strbs: &mut [u8]) -> Pointers
        ensures { LaysIn self words.old strbs.old result words.new strbs.new }
    {
        let pointers = self.pointers();
        if !pointers.fits(words, strbs) {
            return NOWHERE;
        }
        let slots = &self.slots[..self.place.depth];
        // By index: a proof knows nothing of what a `zip` of two `iter_mut` leaves.
        for (i, slot) in slots.iter().enumerate() {
            words[i] = slot.data;
            strbs[i] = slot.strb;
        }
        pointers
    }
}

impl Pointers {
    // Whether a FIFO with these numbers fits in memory: they are in range, and the memory has a slot for each place of the ring.
    fn fits(self, words: &[u32], strbs: &[u8]) -> bool
        ensures { result ≡ (numbers_in_range self && has_slots self.place.depth words.now strbs.now) }
    {
        let depth = self.place.depth;
        self.is_in_range() & ((depth <= words.len()) & (depth <= strbs.len()))
    }

    // The FIFO that lies in lent memory. Where there is none, its depth is 0.
    // No `Option`: the promise is for all pointers (`trusted result ≡ trusted_in self ..`), those that stand for no FIFO too.
    pub fn gathered(self, words: &[u32], strbs: &[u8]) -> Fifo
        ensures { trusted result ≡ trusted_in self words.now strbs.now }
    {
        if !self.fits(words, strbs) {
            return NOWHERE.with_slots([ZEROS; MAX_DEPTH]);
        }
        let slots = from_fn(|i| {
            if i < self.place.depth {
                Payload {
                    data: words[i],
                    strb: strbs[i],
                }
            } else {
                ZEROS
            }
        });
        self.with_slots(slots)
    }

    // One cycle of a FIFO in lent memory, whose held strobes are trusted: what is tested of its form takes constant time.
    // A trait for the two kinds of slots, with its clauses and two instances, would be longer than the lines shared with `Fifo::cycle`.
    pub fn step(
        self,
        words: &mut [u32],
        strbs: &mut [u8],
        cycle: Cycle,
    ) -> Result<Stepped<Pointers>, Refusal>
        ensures { StepsIn self words.old strbs.old cycle.valid cycle.payload cycle.sink cycle.clear result words.new strbs.new }
    {
        if !self.fits(words, strbs) {
            return Err(Refusal::BadState);
        }
        if MAX_STRB < cycle.payload.strb {
            return Err(Refusal::IllegalBits);
        }
        let shown = self.shown(cycle.clear);
        let payload = match shown {
            Some(at) => Payload {
                data: words[at],
                strb: strbs[at],
            },
            None => ZEROS,
        };
        let turn = self.turn(cycle);
        if let Some(at) = turn.joined {
            words[at] = cycle.payload.data;
            strbs[at] = cycle.payload.strb;
        }
        // valid beside the payload, as the definitions read them (`answered`): zeros where it is 0.
        Ok(Stepped {
            ready: turn.ready,
            valid: shown.is_some(),
            payload,
            next: turn.next,
        })
    }
}
