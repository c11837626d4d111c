// The checker of HWPE-Stream traces: which cycle breaks a rule first, and which rule.
//
// Writes out "Stream rules" of document 01, with requests T-04 and T-09. It is document 01's judge of HWPE-Stream traces.
#![tactic(auto)]

pub mod watch;

ghost use Rattle.std.specs.Prelude.{cond, ◌≡◌, ◌+◌, ◌<◌, ◌≤◌, ◌^◌, length, Ok};
ghost use Rattle.signals.specs.Numbers.{rule_number};
ghost use Rattle.signals.specs.Refusals.{refusal_of, max_cycles};
ghost use Rattle.signals.specs.Stream.{sample_at};
ghost use Rattle.signals.specs.Tables.{first_applying};
ghost use Rattle.stream_checker.specs.Verdicts.{grounds, answer_below, check_stream};
ghost use Rattle.stream_checker.specs.Written.{rule_name, written};
ghost use Rattle.stream_checker.specs.Step.{common_length, sight_below, sight_of, SoFar, Leads};

use signals::stream::{any_reserved, clear};
use signals::{Breach, MAX_CYCLES, Refusal, SEQ};
use watch::{Watch, handshake};

// The rules, by what each asks. `specs/Written.antt` gives each its name in document 01.
#[derive(Clone, Copy, Debug, PartialEq, Eq)]
pub enum Rule {
    // Rule 4: a valid that is not taken stays.
    Held,
    // Rule 2: what is not taken does not change.
    Stable,
    // Rule seq: the counters follow one another.
    Seq,
}

// The rule's number where a call answers no enum.
impl From<Rule> for u8 {
    ghost from_gives = { λ rule number. number ≡ rule_number (rule_name rule) };

    fn from(rule: Rule) -> u8 {
        match rule {
            Rule::Held => 4,
            Rule::Stable => 2,
            Rule::Seq => SEQ,
        }
    }
}

impl Rule {
    // The same by the name that it had first: a public function stays, with its promise.
    pub fn number(self) -> u8
        ensures { result ≡ rule_number (rule_name self) }
    {
        u8::from(self)
    }
}

// What is seen of further cycles: as many as come before the first breach, or all.
#[derive(Clone, Copy)]
pub struct Seen {
    // The rule that the cycle behind them breaks, if there is a breach.
    pub breach: Option<Rule>,
    pub cycles: usize,
    // The handshakes and the clears among them.
    pub handshakes: usize,
    pub clears: usize,
    // What the next cycle is judged by.
    pub watch: Watch,
}

// What is found in a trace that is not refused: the first breach, and the handshakes and the clears before it, or in all cycles.
#[derive(Clone, Copy)]
pub struct Checked {
    pub breach: Option<Breach<Rule>>,
    pub handshakes: u32,
    pub clears: u32,
}

// A trace as it is lent, its two sequences side by side as the C interface has them, and by what it is judged. Its cycles are those that
// both sequences have.
#[derive(Clone, Copy)]
struct Trace<'a> {
    control: &'a [u8],
    data: &'a [u32],
    // Rule seq is judged.
    seq: bool,
}

impl Trace<'_> {
    // The refusals 1, 3 and 2, in this order.
    fn refusal(self) -> Result<(), Refusal>
        ensures { refusal_of result ≡ first_applying (grounds self.entry.control.now self.entry.«data».now) }
    {
        if self.control.len() != self.data.len() {
            return Err(Refusal::LengthsDiffer);
        }
        if self.control.len() > MAX_CYCLES {
            return Err(Refusal::TooLong);
        }
        if any_reserved(self.control) {
            return Err(Refusal::IllegalBits);
        }
        Ok(())
    }

    // The number of cycles.
    fn cycles(self) -> usize
        ensures { result ≡ common_length self.entry.control.now self.entry.«data».now }
    {
        self.control.len().min(self.data.len())
    }

    // Judges further cycles, up to and with the next clear cycle, or up to the first breach: the one loop for a trace and for a burst. It
    // is left at a clear cycle: with those inside, as was tried, it went through a fifth to two thirds fewer cycles in a second. It goes
    // by places: a zip is no plainer, since a stretch begins at a place and ends at one.
    fn judge_stretch(self, seen: Seen) -> Seen
        requires inside { seen.cycles < common_length self.control.now self.«data».now }
        requires counted { (seen.handshakes ≤ seen.cycles) × (seen.clears ≤ seen.cycles) }
        ensures { let t = self.entry in (w : Watch) → SoFar w t.control.now t.«data».now t.seq seen.cycles seen.handshakes seen.clears seen.watch
            → Leads w t.control.now t.«data».now t.seq seen.cycles (common_length t.control.now t.«data».now) result }
    {
        // Field by field: taken whole, as was tried, the loop also carries the bytes between the fields, and takes longer.
        let mut watch = Watch {
            control: seen.watch.control,
            data: seen.watch.data,
            due: seen.watch.due,
        };
        let mut handshakes = seen.handshakes;
        for cycles in seen.cycles..self.cycles() {
            let control = self.control[cycles];
            let data = self.data[cycles];
            if clear(control) {
                return Seen {
                    breach: None,
                    cycles: cycles + 1,
                    handshakes,
                    clears: seen.clears + 1,
                    watch: watch.cleared(control, data),
                };
            }
            if let Some(rule) = watch.breach(control, data, self.seq) {
                return Seen {
                    breach: Some(rule),
                    cycles,
                    handshakes,
                    clears: seen.clears,
                    watch,
                };
            }
            handshakes += usize::from(handshake(control));
            watch = watch.next(control, data, self.seq);
        }
        Seen {
            breach: None,
            cycles: self.cycles(),
            handshakes,
            clears: seen.clears,
            watch,
        }
    }

    // The same up to the first breach, or to the end. Each turn is a stretch of as many cycles as it takes, so that no range counts them.
    fn judge_all(self, watch: Watch) -> Seen
        ensures { let t = self.entry in
            sight_of result ≡ sight_below watch t.control.now t.«data».now t.seq (common_length t.control.now t.«data».now) }
    {
        let mut seen = Seen {
            breach: None,
            cycles: 0,
            handshakes: 0,
            clears: 0,
            watch,
        };
        while seen.cycles < self.cycles() {
            seen = self.judge_stretch(seen);
            if seen.breach.is_some() {
                return seen;
            }
        }
        seen
    }

    // What is found from the start on, in a trace that is not refused.
    fn judge(self) -> Checked
        requires same { length self.control.now ≡ length self.«data».now }
        requires short { length self.control.now ≤ max_cycles }
        ensures { let t = self.entry in
            written (Ok result) ≡ answer_below t.seq (sample_at t.control.now t.«data».now) (length t.control.now) }
    {
        let seen = judge_cycles(Watch::start(), self.control, self.data, self.seq);
        let cycle = seen.cycles as u32;
        Checked {
            breach: seen.breach.map(|rule| Breach { rule, cycle }),
            handshakes: seen.handshakes as u32,
            clears: seen.clears as u32,
        }
    }
}

// Judges further cycles, as many as both sequences have, up to the first breach.
pub fn judge_cycles(watch: Watch, control: &[u8], data: &[u32], seq: bool) -> Seen
    ensures { sight_of result ≡ sight_below watch control.now «data».now seq (common_length control.now «data».now) }
{
    Trace { control, data, seq }.judge_all(watch)
}

// What is found in a stream's trace, for any two sequences; `seq` switches rule seq on.
#[tactic(auto, unfolding(crate::specs::Verdicts::check_stream))]
pub fn check_stream(control: &[u8], data: &[u32], seq: bool) -> Result<Checked, Refusal>
    ensures { written result ≡ check_stream control.now «data».now seq }
{
    let trace = Trace { control, data, seq };
    trace.refusal()?;
    Ok(trace.judge())
}
