// How many a FIFO holds at a place, and which places are legal.
ghost use Rattle.std.specs.Prelude.{◌≡◌};
ghost use Rattle.fifo.specs.Queue.{capacity, min_depth, legal_place};

use super::{MAX_DEPTH, Place};

impl Place {
    // The most that a FIFO holds there: its depth, or one less where it is early-stall.
    pub(crate) fn capacity(self) -> usize
        ensures { result ≡ capacity self }
    {
        self.depth.saturating_sub(usize::from(self.early_stall))
    }

    // The least depth of its kind.
    fn min_depth(self) -> usize
        ensures { result ≡ min_depth self }
    {
        if self.early_stall { 4 } else { 2 }
    }

    // Even, from the least depth of its kind to the deepest.
    pub(crate) fn is_legal(self) -> bool
        ensures { result ≡ legal_place self }
    {
        let depth = self.depth;
        (self.min_depth() <= depth) & ((depth <= MAX_DEPTH) & (depth / 2 * 2 == depth))
    }
}
