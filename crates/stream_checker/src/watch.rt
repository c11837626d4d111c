// What the checker keeps of the cycles that it has seen, and its step over one more.
ghost use Rattle.std.specs.Prelude.{Bool, true, false, ◌&&◌, ◌≡◌};
ghost use Rattle.signals.specs.Payloads.{strobed, same_payload};
ghost use Rattle.signals.specs.Stream.{sample, clear_bit, handshake};
ghost use Rattle.stream_checker.specs.Rules.{stalled, carries_counter, counter, after_counter};
ghost use Rattle.signals.specs.Tables.{first_applying};
ghost use Rattle.stream_checker.specs.Step.{before, start, breaks_seq_after, rules_of, rule_in, next};

use crate::Rule;
use signals::stream::{clear, payload, ready, strb, valid};

// The counter is the low 16 bits of data: there are so many counters, and 0 follows the last.
pub const COUNTERS: u32 = 65536;

// What the next cycle is judged by.
#[derive(Clone, Copy, Debug, PartialEq, Eq)]
pub struct Watch {
    // The cycle before.
    pub control: u8,
    pub data: u32,
    // The counter that is due next, if one was carried since the last clear, where rule seq is judged.
    pub due: Option<u32>,
}

pub(crate) fn handshake(control: u8) -> bool
    ensures { result ≡ handshake (sample control 0) }
{
    !clear(control) & (valid(control) & ready(control))
}

// Whether bytes 0 and 1 of a word, which hold its counter, are both strobed.
fn counter_strobed(strb: u8) -> bool
    ensures { result ≡ (strobed strb 0 && strobed strb 1) }
{
    strb % 4 == 3
}

// Whether a cycle carries a counter.
fn carries_counter(control: u8) -> bool
    ensures { result ≡ carries_counter (sample control 0) }
{
    handshake(control) & counter_strobed(strb(control))
}

// Whether a cycle lays a duty on the next.
pub fn stalled(control: u8) -> bool
    ensures { result ≡ stalled (sample control 0) }
{
    !clear(control) & (valid(control) & !ready(control))
}

// The counter that follows the one in a word.
fn due_after(data: u32) -> u32
    ensures { result ≡ after_counter (counter (sample 0 «data»)) }
{
    (data % COUNTERS + 1) % COUNTERS
}

// A cycle's two entries go through these apart, as a trace lends them and as the public fields of `Watch` and the definition `next` have
// them.
// `seq` goes beside them and is no field of `Watch`: `judge_cycles` promises for any watch and any `seq`, and would be given it twice.
impl Watch {
    // Before the first cycle nothing is stalled and no counter was carried.
    pub fn start() -> Watch
        ensures { result ≡ start }
    {
        Watch {
            control: 0,
            data: 0,
            due: None,
        }
    }

    // Whether a cycle shows the payload of the cycle before.
    fn same_payload(self, control: u8, data: u32) -> bool
        ensures { result ≡ same_payload (sample control «data»).payload (before self).payload }
    {
        payload(control, data) == payload(self.control, self.data)
    }

    // Whether a cycle breaks rule seq.
    fn breaks_seq(self, control: u8, data: u32) -> bool
        ensures { result ≡ breaks_seq_after self (sample control «data») }
    {
        self.due
            .is_some_and(|due| carries_counter(control) & (data % COUNTERS != due))
    }

    // The first rule in order that the next cycle breaks, where it is judged.
    pub(crate) fn breach(self, control: u8, data: u32, seq: bool) -> Option<Rule>
        ensures { rule_in result ≡ first_applying (rules_of self (sample control «data») seq) }
    {
        let stalled = stalled(self.control);
        if stalled && !valid(control) {
            Some(Rule::Held)
        } else if stalled && !self.same_payload(control, data) {
            Some(Rule::Stable)
        } else if seq & self.breaks_seq(control, data) {
            Some(Rule::Seq)
        } else {
            None
        }
    }

    // The watch after a clear cycle, which drops the counter.
    pub(crate) fn cleared(self, control: u8, data: u32) -> Watch
        requires { clear_bit control ≡ true }
        ensures { (seq_on : Bool) → result ≡ next seq_on self control «data» }
    {
        Watch {
            control,
            data,
            due: None,
        }
    }

    // The watch after any other cycle; counters are kept where rule seq is judged.
    pub(crate) fn next(self, control: u8, data: u32, seq: bool) -> Watch
        requires { clear_bit control ≡ false }
        ensures { result ≡ next seq self control «data» }
    {
        let due = if seq & carries_counter(control) {
            Some(due_after(data))
        } else {
            self.due
        };
        Watch { control, data, due }
    }
}
