// The places of a chain: how many there may be, and how they are read off a lent list.
//
// Writes out the number of stages of "The stage and the line" of document 01, with requests T-06 and T-08.
#![tactic(auto)]

ghost use Rattle.std.specs.Prelude.{◌≡◌};
ghost use Rattle.places.specs.Listing.{legal_count, Lists};

use fifo::{Place, SMALLEST};

// The longest chain.
pub const MAX_FIFOS: usize = 16;

// The places of a chain, the mouth's first: the first `count` of them. A count beside an array, since it is a list by value, of at most
// sixteen, and no crate here takes memory from a heap.
#[derive(Clone, Copy)]
pub struct Places {
    pub count: usize,
    pub listed: [Place; MAX_FIFOS],
}

// One to the longest.
pub fn is_legal_count(count: usize) -> bool
    ensures { result ≡ legal_count count }
{
    (1..=MAX_FIFOS).contains(&count)
}

impl Places {
    // The places of a lent list, in its order. A count of 0 stands for a number that is refused, and there is no `Result`: `Lists`
    // (`read_off`) promises places for every list.
    pub fn read(places: &[Place]) -> Places
        ensures { Lists places.now result }
    {
        let lent = if is_legal_count(places.len()) {
            places
        } else {
            &[]
        };
        let mut listed = [SMALLEST; MAX_FIFOS];
        listed[..lent.len()].copy_from_slice(lent);
        Places {
            count: lent.len(),
            listed,
        }
    }
}
