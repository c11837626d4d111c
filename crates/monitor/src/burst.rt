// The record after a burst that is not refused: the checker's watch is taken from the record, and what it sees is put back.
ghost use Rattle.std.specs.Prelude.{true, ◌≡◌, ◌+◌, ◌≤◌, length};
ghost use Rattle.signals.specs.Payloads.{max_strb};
ghost use Rattle.signals.specs.Stream.{sample_at};
ghost use Rattle.stream_checker.specs.Written.{rule_name};
ghost use Rattle.monitor.specs.Record.{legal};
ghost use Rattle.monitor.specs.Cycle.{after_cycles};
ghost use Rattle.monitor.specs.Bursts.{max_seen};
ghost use Rattle.monitor.specs.Step.{watch_of, payload_kept, with_last, with_breach};

use crate::Monitor;
use signals::stream::payload;
use signals::{BROKEN, Payload, ZEROS};
use stream_checker::watch::{Watch, stalled};
use stream_checker::{Rule, judge_cycles};

// What is kept of the last cycle: its payload if it stalled.
fn payload_kept(watch: Watch) -> Payload
    ensures { result ≡ payload_kept watch }
{
    if stalled(watch.control) {
        payload(watch.control, watch.data)
    } else {
        ZEROS
    }
}

impl Monitor {
    // The last cycle as if it were just seen: valid 1 and ready 0 if it stalled. A byte of two fields: one made of all four, as a run of
    // `chain` makes it, would be no plainer.
    fn last_control(self) -> u8
        requires { self.payload.strb ≤ max_strb }
        ensures { result ≡ (watch_of self).control }
    {
        if self.stalled {
            1 + 16 * self.payload.strb
        } else {
            0
        }
    }

    // What the first cycle of a burst is judged by.
    fn watch(self) -> Watch
        requires { self.payload.strb ≤ max_strb }
        ensures { result ≡ watch_of self }
    {
        Watch {
            control: self.last_control(),
            data: self.payload.data,
            due: self.counted.then_some(self.due),
        }
    }

    // Keeps of the last cycle what the next is judged by.
    fn keep_last(&mut self, watch: Watch)
        ensures { self.new ≡ with_last self.old watch }
    {
        self.stalled = stalled(watch.control);
        self.payload = payload_kept(watch);
        self.counted = watch.due.is_some();
        self.due = watch.due.unwrap_or(0);
    }

    // Keeps a breach, and nothing for the next cycle.
    fn keep_breach(&mut self, rule: Rule, cycle: u32)
        ensures { self.new ≡ with_breach self.old (rule_name rule) cycle }
    {
        self.verdict = BROKEN;
        self.rule = u8::from(rule);
        self.cycle = cycle;
        self.stalled = false;
        self.payload = ZEROS;
        self.counted = false;
        self.due = 0;
    }

    // Takes in a burst.
    pub(crate) fn take(&mut self, control: &[u8], data: &[u32])
        requires same { length control.now ≡ length «data».now }
        requires room { self.old.cycles + length control.now ≤ max_seen }
        requires is_legal { legal self.old ≡ true }
        ensures { self.new ≡ after_cycles self.old (sample_at control.now «data».now) (length control.now) }
    {
        let before = self.cycles;
        self.cycles += control.len() as u32;
        if self.verdict == BROKEN {
            return;
        }
        let seen = judge_cycles(self.watch(), control, data, self.seq);
        self.handshakes += seen.handshakes as u32;
        self.clears += seen.clears as u32;
        match seen.breach {
            None => self.keep_last(seen.watch),
            Some(rule) => self.keep_breach(rule, before + seen.cycles as u32),
        }
    }
}
