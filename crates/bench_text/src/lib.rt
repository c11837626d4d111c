// From the bytes of a bench text to the bytes of its report.
//
// Writes out the report of "Bench text" of document 01, with request T-09, over the trace that `trace_text` reads. `specs/Report.antt`
// is the form of a report.
#![tactic(auto)]

mod write;

ghost use Rattle.std.specs.Prelude.{◌≡◌, MatchResult, Ok, Err};
ghost use Rattle.stream_checker.specs.Written.{written};
ghost use Rattle.bench_text.specs.Report.{max_text, max_report, lines, report_of, Reports};

use signals::Refusal;
use stream_checker::{Checked, check_stream};
use trace_text::{MAX_ANNOUNCED, Parsed, parse};
use write::{Report, checked_report, refused_report};

// How many bytes of a text decide any answer: one more than the longest legal text has.
pub const MAX_TEXT: usize = 53281;

// The most bytes that a report has.
pub const MAX_REPORT: usize = 84;

// The two as functions too: the length of an array is no call, so that each is a constant, and a public function that promises that it is
// the definitions'.
pub fn max_text() -> usize
    ensures { result ≡ max_text }
{
    MAX_TEXT
}

pub fn max_report() -> usize
    ensures { result ≡ max_report }
{
    MAX_REPORT
}

// How many cycles a text announces, and what is found in its trace. Two arrays with room for the longest, as `parse` is lent two.
#[tactic(auto, unfolding(crate::specs::Report::report_of))]
fn checked(text: &[u8]) -> Result<(usize, Checked), Refusal>
    ensures { MatchResult result
        (λ read. report_of text.now ≡ lines read.0 (written (Ok read.1)))
        (λ why. report_of text.now ≡ lines 0 (written (Err why))) }
{
    let mut control = [0; MAX_ANNOUNCED];
    let mut words = [0; MAX_ANNOUNCED];
    let Parsed { seq, cycles } = parse(text, &mut control, &mut words)?;
    let found = check_stream(&control[..cycles], &words[..cycles], seq)?;
    Ok((cycles, found))
}

// The report of a text.
fn made(text: &[u8]) -> Report
    ensures { result ≡ report_of text.now }
{
    match checked(text) {
        Ok((cycles, found)) => checked_report(cycles, found),
        Err(why) => refused_report(why),
    }
}

// Writes the report of a text at the start of `out`, and answers how many bytes it has. An output that is too short is left as it was.
pub fn report(text: &[u8], out: &mut [u8]) -> Result<usize, Refusal>
    ensures { Reports text.now out.old result out.new }
{
    let report = made(text);
    let bytes = report.bytes();
    let count = bytes.len();
    if out.len() < count {
        return Err(Refusal::OutputTooShort);
    }
    out[..count].copy_from_slice(bytes);
    Ok(count)
}
