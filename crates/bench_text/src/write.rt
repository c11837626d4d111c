// Writes the lines of a report.
//
// `specs/Report.antt` has the lines.
ghost use Rattle.std.specs.Prelude.{◌≡◌, ◌+◌, ◌≤◌, ◌%◌, ◌++◌, [], length, nat_le, Ok, Err};
ghost use Rattle.std.specs.List.{prefix_len};
ghost use Rattle.stream_checker.specs.Written.{written, rule_name};
ghost use Rattle.trace_text.specs.Digits.{digit_byte, fixed, without_zeros, decimal};
ghost use Rattle.bench_text.specs.Report as spec;
ghost use Rattle.bench_text.specs.Report.{seven_lines, lines, rule_bytes};

use signals::Refusal;
use std::marker::Model;
use stream_checker::{Checked, Rule};

// Room for seven lines whose numbers have five digits each.
const ROOM: usize = 91;

// A report, as far as it is written: a room and how much of it is used, as nothing here takes memory from a heap. It is seen as the list of
// its bytes. The kit's `ArrayString` would be no plainer: it asks for room as `put` does, and holds text, where the promise is of bytes.
#[derive(Drop)]
pub struct Report {
    room: [u8; ROOM],
    count: usize,
}

impl Model for Report {
    ghost use Rattle.std.specs.Prelude.{◌≤◌, List, ℕ, take};
    ghost use Rattle.bench_text.specs.declared.write.TheConstants.{ROOM};

    ghost Value = { List ℕ };

    ghost view = { λ r. take r.count r.room };

    ghost invariant = { λ r. r.count ≤ ROOM };
}

impl Report {
    fn new() -> Self
        ensures { result ≡ [] }
    {
        Report {
            room: [0; ROOM],
            count: 0,
        }
    }

    // The bytes that are written.
    pub fn bytes(&self) -> &[u8]
        ensures { result.now ≡ self.now }
    {
        &self.room[..self.count]
    }

    // Given bytes, after the others.
    // Each asks for room: one that could fail would have an answer that no caller has a use for.
    fn put(&mut self, given: &[u8])
        requires { length self.old + length given.now ≤ ROOM }
        ensures { self.new ≡ self.old ++ given.now }
    {
        let end = self.count + given.len();
        self.room[self.count..end].copy_from_slice(given);
        self.count = end;
    }

    // A line of a key and its value.
    fn line(&mut self, key: &[u8], value: &[u8])
        requires { length self.old + length key.now + length value.now + 1 ≤ ROOM }
        ensures written { self.new ≡ self.old ++ spec.line key.now value.now }
        ensures long { length self.new ≡ length self.old + length key.now + length value.now + 1 }
    {
        self.put(key);
        self.put(value);
        self.put(b"\n");
    }

    // A line of a key and a number.
    #[tactic(auto, unfolding(trace_text::specs::Digits::decimal))]
    fn number_line(&mut self, key: &[u8], n: usize)
        requires { length self.old + length key.now + 6 ≤ ROOM }
        ensures written { self.new ≡ self.old ++ spec.line key.now (decimal n) }
        ensures long { length self.new ≤ length self.old + length key.now + 6 }
    {
        self.line(key, significant(&five_digits(n)));
    }
}

// The byte of a number's lowest decimal digit.
fn figure(n: usize) -> u8
    ensures { result ≡ digit_byte (n % 10) }
{
    b'0' + (n % 10) as u8
}

// A number's lowest five decimal digits. By hand, in no more lines: what std prints of a number is the report's only below 100,000, and
// each count would have to bring that bound along from the checker.
fn five_digits(n: usize) -> [u8; 5]
    ensures { result ≡ fixed 10 5 n }
{
    let tens = n / 10;
    let hundreds = tens / 10;
    let thousands = hundreds / 10;
    let high = thousands / 10;
    [
        figure(high),
        figure(thousands),
        figure(hundreds),
        figure(tens),
        figure(n),
    ]
}

// How many zeros come before the first other digit.
fn leading_zeros(digits: &[u8]) -> usize
    ensures { result ≡ prefix_len (λ d. nat_le d 48) digits.now }
{
    digits.iter().take_while(|digit| **digit <= b'0').count()
}

// Digits without leading zeros, of which the last stays.
#[tactic(auto, using(crate::proofs::Digits::zeros_cut))]
fn significant(digits: &[u8]) -> &[u8]
    requires { 1 ≤ length digits.now }
    ensures { result.now ≡ without_zeros digits.now }
{
    let first = leading_zeros(digits).min(digits.len() - 1);
    &digits[first..]
}

// The bytes of a rule's name, of which a line is made: `Display` would write them to a formatter.
#[tactic(auto, unfolding(trace_text::specs::Digits::decimal))]
fn rule_bytes(rule: Rule) -> &'static [u8]
    ensures { result.now ≡ rule_bytes (rule_name rule) }
{
    match rule {
        Rule::Held => b"4",
        Rule::Stable => b"2",
        Rule::Seq => b"seq",
    }
}

// What the seven lines of a report say.
#[derive(Clone, Copy)]
struct Said<'a> {
    kind: &'a [u8],
    cycles: usize,
    verdict: &'a [u8],
    rule: &'a [u8],
    at: u32,
    handshakes: u32,
    clears: u32,
}

// The seven lines of a report.
fn seven_lines(said: Said) -> Report
    requires { (length said.kind.now ≤ 6) × (length said.verdict.now ≤ 7) × (length said.rule.now ≤ 5) }
    ensures { result ≡ seven_lines said.entry.kind.now said.entry.cycles said.entry.verdict.now said.entry.rule.now said.entry.at said.entry.handshakes said.entry.clears }
{
    let mut report = Report::new();
    report.line(b"kind=", said.kind);
    report.number_line(b"cycles=", said.cycles);
    report.line(b"verdict=", said.verdict);
    report.line(b"rule=", said.rule);
    report.number_line(b"at=", said.at as usize);
    report.number_line(b"handshakes=", said.handshakes as usize);
    report.number_line(b"clears=", said.clears as usize);
    report
}

// The report of a refusal.
#[tactic(auto, unfolding(trace_text::specs::Digits::decimal))]
pub fn refused_report(why: Refusal) -> Report
    ensures { result ≡ lines 0 (written (Err why)) }
{
    let digits = five_digits(usize::from(u8::from(why)));
    seven_lines(Said {
        kind: b"none",
        cycles: 0,
        verdict: b"refused",
        rule: significant(&digits),
        at: 0,
        handshakes: 0,
        clears: 0,
    })
}

// The report of what is found in a trace of so many cycles.
#[tactic(auto, unfolding(trace_text::specs::Digits::decimal))]
pub fn checked_report(cycles: usize, checked: Checked) -> Report
    ensures { result ≡ lines cycles (written (Ok checked)) }
{
    let clean = Said {
        kind: b"stream",
        cycles,
        verdict: b"clean",
        rule: b"0",
        at: 0,
        handshakes: checked.handshakes,
        clears: checked.clears,
    };
    match checked.breach {
        None => seven_lines(clean),
        Some(breach) => seven_lines(Said {
            verdict: b"broken",
            rule: rule_bytes(breach.rule),
            at: breach.cycle,
            ..clean
        }),
    }
}
