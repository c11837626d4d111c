// The bench program: a bench text on standard input, its report on standard output. Where either fails, one line on standard error.
//
// It reads as much as decides any answer, into arrays with room for the most: nothing here takes memory from a heap. Every decision is in
// `bench_text`.
#![tactic(auto)]

use bench_text::{MAX_REPORT, MAX_TEXT, report};
use stdio::{read_input, write_report};

#[tactic(auto, using(bench_text::proofs::NumbersFit::reports_fit_lem))]
fn main(rt: HostRuntime) {
    let mut text = [0u8; MAX_TEXT];
    let Some(size) = read_input(&rt, &mut text, b"bench: standard input") else {
        return;
    };
    let mut out = [0u8; MAX_REPORT];
    // Every report fits (`ReportsFit`), so none is refused.
    let count = report(&text[..size], &mut out).unwrap();
    let _ = write_report(&rt, &out[..count], b"bench: standard output");
}
