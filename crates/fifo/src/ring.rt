// The ring of a FIFO: its form, where its payloads lie, and how the oldest leaves.
//
// A place in the ring is found by a comparison, and no held payload is moved.
ghost use Rattle.std.specs.Prelude.{◌≡◌, true, List};
ghost use Rattle.signals.specs.declared.Payload.{Payload};
ghost use Rattle.fifo.specs.Queue.{legal_place, well, empty};
ghost use Rattle.fifo.specs.Ring.{ready_in, wrapped, pointers_of, fifo_with, trusted, queue_of, numbers_in_range, in_range};
ghost use Rattle.fifo.specs.Turn.{popped, Shows, Turns};

use super::{Fifo, MAX_DEPTH, Place, Pointers};
use signals::{Cycle, Payload, ZEROS};

// What a cycle does to the numbers: whether it is ready, the slot that the payload offered joins, and the numbers after it.
#[derive(Clone, Copy)]
pub(crate) struct Turn {
    pub(crate) ready: bool,
    pub(crate) joined: Option<usize>,
    pub(crate) next: Pointers,
}

// The slot at a place that has passed the end of the ring at most once: the one that a remainder would give, found by a comparison.
#[tactic(auto, unfolding(crate::specs::Ring::wrapped))]
pub(crate) fn wrap(depth: usize, place: usize) -> usize
    ensures { result ≡ wrapped depth place }
{
    let inside = place < depth;
    if inside { place } else { place - depth }
}

impl Fifo {
    // A FIFO that holds nothing, at a legal place.
    pub(crate) fn empty(place: Place) -> Fifo
        requires { legal_place place ≡ true }
        ensures { trusted result ≡ well (empty place) }
    {
        Fifo {
            place,
            count: 0,
            oldest: 0,
            slots: [ZEROS; MAX_DEPTH],
        }
    }

    // The FIFO but for its slots: a part of it, and so no `From`.
    pub(crate) fn pointers(self) -> Pointers
        ensures { result ≡ pointers_of self }
    {
        Pointers {
            place: self.place,
            count: self.count,
            oldest: self.oldest,
        }
    }

    // Whether its numbers are in range: its form but for the held strobes.
    pub(crate) fn is_in_range(self) -> bool
        ensures { result ≡ in_range self }
    {
        self.pointers().is_in_range()
    }
}

// What the numbers say is said whatever the slots hold. That they are in range is asked by `requires`: a type with the fact would be a
// second `Pointers`, made from the public one at each call and made back into it in the answer (`Turn.next`, and what a step hands back).
impl Pointers {
    // The FIFO with these numbers and slots.
    pub(crate) fn with_slots(self, slots: [Payload; MAX_DEPTH]) -> Fifo
        ensures { result ≡ fifo_with self slots }
    {
        Fifo {
            place: self.place,
            count: self.count,
            oldest: self.oldest,
            slots,
        }
    }

    // Whether the numbers are in range.
    pub(crate) fn is_in_range(self) -> bool
        ensures { result ≡ numbers_in_range self }
    {
        let depth = self.place.depth;
        let most = self.place.capacity();
        self.place.is_legal() & ((self.oldest < depth) & (self.count <= most))
    }

    // Whether it is ready to its source: fewer than the capacity are held. The numbers are not tested for their range.
    pub fn is_ready(self) -> bool
        ensures { result ≡ ready_in self }
    {
        self.count < self.place.capacity()
    }

    // Where the payloads lie after the oldest has left, which it does when the sink is ready.
    fn popped(self, sink: bool) -> Pointers
        requires { numbers_in_range self ≡ true }
        ensures in_range { numbers_in_range result ≡ true }
        ensures value { (slots : List Payload) → trusted (fifo_with result slots) ≡ well (popped (queue_of (fifo_with self slots)) sink) }
    {
        if sink & (0 < self.count) {
            return Pointers {
                count: self.count - 1,
                oldest: wrap(self.place.depth, self.oldest + 1),
                ..self
            };
        }
        self
    }

    // The slot that a cycle shows: the oldest payload's, unless none is held or it is a clear.
    pub(crate) fn shown(self, clear: bool) -> Option<usize>
        requires { numbers_in_range self ≡ true }
        ensures { Shows self clear result }
    {
        (!clear & (0 < self.count)).then_some(self.oldest)
    }

    // One cycle, nothing being refused, wherever the slots lie: the caller has read the slot that is shown, and writes the one that is
    // joined. A trait for the two kinds of slots would be longer than the lines that `Fifo::cycle` and `Pointers::step` share.
    pub(crate) fn turn(self, given: Cycle) -> Turn
        requires { numbers_in_range self ≡ true }
        ensures { Turns self given.valid given.payload given.sink given.clear result }
    {
        if given.clear {
            return Turn {
                ready: false,
                joined: None,
                next: Pointers { count: 0, ..self },
            };
        }
        let ready = self.is_ready();
        let mut next = self.popped(given.sink);
        let mut joined = None;
        if given.valid & ready {
            joined = Some(wrap(next.place.depth, next.oldest + next.count));
            next.count += 1;
        }
        Turn {
            ready,
            joined,
            next,
        }
    }
}
