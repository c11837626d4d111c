// The stream checker fed in bursts: a small record, lent and updated, that says what the checker says of the whole trace.
//
// Writes out requests T-05 and T-09 over "Stream rules" of document 01. A burst is judged by the loop of `stream_checker`.
#![tactic(auto)]

mod burst; // burst.rt: the record after a burst
mod form; // form.rt: the tests of refusal 6

ghost use Rattle.std.specs.Prelude.{◌≡◌, ◌+◌};
ghost use Rattle.signals.specs.Tables.{first_applying};
ghost use Rattle.monitor.specs.Record.{fresh};
ghost use Rattle.monitor.specs.Bursts.{max_seen, grounds, ground_of, fed_by, left_by, outcome_of};

use signals::stream::any_reserved;
use signals::{CLEAN, Payload, Refusal, ZEROS};

// How many cycles a record may have seen in all.
pub const MAX_SEEN: u32 = u32::MAX;

// A record of a stream that is checked in bursts. Callers lend it and read it; only these calls should write it. C reads it too, so that
// it has numbers and flags in place of enums and options.
#[repr(C)]
#[derive(Clone, Copy, Debug, PartialEq, Eq)]
pub struct Monitor {
    // Whether rule seq is judged.
    pub seq: bool,
    // The cycles seen, also past a breach.
    pub cycles: u32,
    // CLEAN, or BROKEN with the rule's number and the cycle, which are 0 while it is clean.
    pub verdict: u8,
    pub rule: u8,
    pub cycle: u32,
    // The handshakes and the clears before the broken cycle, or in all cycles while it is clean.
    pub handshakes: u32,
    pub clears: u32,
    // Whether the last cycle stalled, and what it showed; zeros otherwise.
    pub stalled: bool,
    pub payload: Payload,
    // Whether a counter was carried since the last clear, with seq on, and the counter that is due next; 0 otherwise.
    pub counted: bool,
    pub due: u32,
}

impl Monitor {
    // A record that has seen nothing; `seq` switches rule seq on, and stays.
    pub fn fresh(seq: bool) -> Monitor
        ensures { result ≡ fresh seq }
    {
        Monitor {
            seq,
            cycles: 0,
            verdict: CLEAN,
            rule: 0,
            cycle: 0,
            handshakes: 0,
            clears: 0,
            stalled: false,
            payload: ZEROS,
            counted: false,
            due: 0,
        }
    }

    // How many cycles more it may see.
    fn room(self) -> usize
        ensures { self.cycles + result ≡ max_seen }
    {
        (MAX_SEEN - self.cycles) as usize
    }

    // The refusals 1, 3, 6 and 2, in this order. A burst's two sequences go apart, as the public calls have them and `judge_cycles` takes
    // them: a struct would be made here only to be taken apart there.
    fn refusal(self, control: &[u8], data: &[u32]) -> Result<(), Refusal>
        ensures { ground_of result ≡ first_applying (grounds self control.now «data».now) }
    {
        if control.len() != data.len() {
            return Err(Refusal::LengthsDiffer);
        }
        if control.len() > self.room() {
            return Err(Refusal::TooLong);
        }
        if !self.is_legal() {
            return Err(Refusal::BadState);
        }
        if any_reserved(control) {
            return Err(Refusal::IllegalBits);
        }
        Ok(())
    }

    // The record after one more burst, for any record and any two sequences.
    pub fn fed(mut self, control: &[u8], data: &[u32]) -> Result<Monitor, Refusal>
        ensures { result ≡ fed_by self control.now «data».now }
    {
        feed(&mut self, control, data)?;
        Ok(self)
    }
}

// The same in place: the record that is lent becomes the one after the burst; refused, it stays as it was.
#[tactic(auto, unfolding(crate::specs::Bursts::fed_by))]
pub fn feed(monitor: &mut Monitor, control: &[u8], data: &[u32]) -> Result<(), Refusal>
    ensures { (monitor.new ≡ left_by monitor.old (fed_by monitor.old control.now «data».now))
        × (result ≡ outcome_of (fed_by monitor.old control.now «data».now)) }
{
    monitor.refusal(control, data)?;
    monitor.take(control, data);
    Ok(())
}
