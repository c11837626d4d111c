// The form of a chain: a legal count, and used FIFOs that have their form.
//
// Private functions ask for it by `requires`: a type with that fact would be made from the chain for one call, right after the test, and
// taken apart in it: a third name beside `Chain` and its value.
ghost use Rattle.std.specs.Prelude.{◌≡◌, length};
ghost use Rattle.places.specs.Listing.{max_fifos};
ghost use Rattle.chain.specs.Calls.{is_well};
ghost use Rattle.chain.specs.Promises.{value};

use super::Chain;
use places::is_legal_count;

impl Chain {
    // Whether a chain has its form, held strobes included. The length of its array is told too, which is not known of a chain by value.
    pub(crate) fn is_well(&self) -> bool
        ensures value { result ≡ is_well (value self.now) }
        ensures wide { length self.now.fifos ≡ max_fifos }
    {
        is_legal_count(self.count) && self.fifos[..self.count].iter().all(|fifo| fifo.is_well())
    }
}
