// The iterations of a generator whose address is among others.
ghost use Rattle.std.specs.Prelude.{◌≡◌, ◌++◌, ◌≤◌, ◌^◌, length, drop};
ghost use Rattle.signals.specs.Sequences.{entries_below};
ghost use Rattle.address_at.specs.ByNumber.{address_of};
ghost use Rattle.address_at.specs.Overlap.{is_among, met_below};

use crate::legal::Legal;

// How many addresses are looked at together.
const BLOCK: usize = 64;

// Whether an address is among others. Every one is looked at, so that this becomes vector code: for 64 others it took 14 nanoseconds, and
// with `any` 40.
fn is_among(address: u32, others: &[u32]) -> bool
    ensures { result ≡ is_among others.now address }
{
    let mut found = false;
    for other in others {
        found |= *other == address;
    }
    found
}

// The same, block by block, so that the search ends with the block in which the address is found. By `contains`, which has blocks of its
// own, an overlap of 4,096 iterations and 4,096 took a fifth longer.
fn is_found(address: u32, others: &[u32]) -> bool
    ensures { result ≡ is_among others.now address }
{
    let (blocks, rest) = others.as_chunks::<BLOCK>();
    for block in blocks {
        if is_among(address, block) {
            return true;
        }
    }
    is_among(address, rest)
}

impl Legal {
    // Writes the address of each iteration to its place.
    pub(crate) fn write_all(self, out: &mut [u32])
        requires { length out.old ≤ 2 ^ 32 }
        ensures { out.new ≡ entries_below (address_of self.settings) (length out.old) }
    {
        for (i, word) in out.iter_mut().enumerate() {
            *word = self.address(i as u32);
        }
    }

    // Writes the iterations whose address is among others, in rising order, and answers how many there are.
    pub(crate) fn list(self, others: &[u32], out: &mut [u32]) -> usize
        requires { self.settings.total ≤ length out.old }
        ensures count { result ≡ length (met_below (address_of self.settings) others.now self.settings.total) }
        ensures written { out.new ≡ met_below (address_of self.settings) others.now self.settings.total ++ drop result out.old }
    {
        let mut count = 0;
        // The place is counted by hand: a proof knows nothing of what a `zip` with `iter_mut` leaves.
        for i in 0..self.settings.total {
            if is_found(self.address(i), others) {
                out[count] = i;
                count += 1;
            }
        }
        count
    }
}
