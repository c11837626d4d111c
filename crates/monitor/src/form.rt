// The tests of refusal 6: whether bursts can have left a record. It is C's, and has numbers, which are compared as numbers.
ghost use Rattle.std.specs.Prelude.{cond, ◌≡◌, leb, ltb};
ghost use Rattle.monitor.specs.Record.{in_range, in_place, handshakes_and_clears, clean_form, broken_after_stall, broken_by_seq, broken_form, legal};

use crate::Monitor;
use signals::{BROKEN, CLEAN, MAX_STRB, ZEROS};
use stream_checker::Rule;
use stream_checker::watch::COUNTERS;

impl Monitor {
    // A strobe has four bits, and a counter sixteen.
    fn in_range(self) -> bool
        ensures { result ≡ in_range self }
    {
        (self.payload.strb <= MAX_STRB) & (self.due < COUNTERS)
    }

    // Nothing stands beside a flag that is off, and no counter where seq is off.
    fn in_place(self) -> bool
        ensures { result ≡ in_place self }
    {
        (self.stalled | (self.payload == ZEROS))
            & ((self.counted | (self.due == 0)) & (self.seq | !self.counted))
    }

    // The handshakes and the clears together, which may be more than 32 bits hold.
    fn handshakes_and_clears(self) -> usize
        ensures { result ≡ handshakes_and_clears self }
    {
        self.handshakes as usize + self.clears as usize
    }

    // The handshakes, the clears, and one more cycle if the last stalled, are among those seen.
    fn counts_seen(self) -> bool
        ensures { result ≡ cond self.stalled (ltb (handshakes_and_clears self) self.cycles) (leb (handshakes_and_clears self) self.cycles) }
    {
        let cycles = self.cycles as usize;
        if self.stalled {
            self.handshakes_and_clears() < cycles
        } else {
            self.handshakes_and_clears() <= cycles
        }
    }

    fn clean_form(self) -> bool
        ensures { result ≡ clean_form self }
    {
        ((self.rule == 0) & (self.cycle == 0))
            & (self.counts_seen() & (!self.counted | (0 < self.handshakes)))
    }

    // Rules 4 and 2 are broken after a stall, which is neither a handshake nor a clear.
    fn broken_after_stall(self) -> bool
        ensures { result ≡ broken_after_stall self }
    {
        ((self.rule == u8::from(Rule::Held)) | (self.rule == u8::from(Rule::Stable)))
            & (self.handshakes_and_clears() < self.cycle as usize)
    }

    // Rule seq is broken after a handshake with a counter.
    fn broken_by_seq(self) -> bool
        ensures { result ≡ broken_by_seq self }
    {
        (self.rule == u8::from(Rule::Seq))
            & (self.seq
                & ((0 < self.handshakes) & (self.handshakes_and_clears() <= self.cycle as usize)))
    }

    // A cycle that was seen broke a rule, and nothing is kept for the next.
    fn broken_form(self) -> bool
        ensures { result ≡ broken_form self }
    {
        ((self.cycle < self.cycles) & (!self.stalled & !self.counted))
            & (self.broken_after_stall() | self.broken_by_seq())
    }

    pub(crate) fn is_legal(self) -> bool
        ensures { result ≡ legal self }
    {
        (self.in_range() & self.in_place())
            & (((self.verdict == CLEAN) & self.clean_form())
                | ((self.verdict == BROKEN) & self.broken_form()))
    }
}
