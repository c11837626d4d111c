// The calls of the tool for programs in Rust or C, on numbers, slices and structs in C's layout.
//
// An exported function takes and returns no enum, so an answer has document 01's numbers in its place. Where a call can be refused the
// refusal's number is the answer's first field, 0 for a call that is accepted. `specs/` says how.
#![tactic(auto)]

mod addresses; // addresses.rt: the address of an iteration, and those that two generators share
mod buffers; // buffers.rt: mux, address generator, strobe plan and bench text
mod checkers; // checkers.rt: the verdicts on traces
mod fields; // fields.rt: the control bytes
mod fifos; // fifos.rt: a FIFO, and a chain of them
mod monitors; // monitors.rt: a stream checked in bursts
mod realigners; // realigners.rt: source and sink realign
mod wide; // wide.rt: merge and split

ghost use Rattle.std.specs.Prelude.{◌≡◌};
ghost use Rattle.signals.specs.Refusals.{refusal_of};
ghost use Rattle.exports.specs.Numbers.{or_zero};

use signals::Refusal;

// The number of a refusal, or 0 where there is none.
fn refusal<T>(answer: &Result<T, Refusal>) -> u8
    ensures { result ≡ or_zero (refusal_of answer.now) }
{
    match answer {
        Ok(_) => 0,
        Err(why) => u8::from(*why),
    }
}
