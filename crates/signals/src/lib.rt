// The signals of HWPE traces as they are recorded, and the refusals that every call of the tool shares.
//
// Writes out "Traces as recorded" and "Refusal numbers" of document 01. `stream` and `memory` read the two control bytes.
#![tactic(auto)]

pub mod memory;
pub mod stream;

ghost use Rattle.std.specs.Prelude.{◌≡◌};
ghost use Rattle.signals.specs.Payloads.{max_strb};
ghost use Rattle.signals.specs.Refusals.{number_of, max_cycles};

use std::error::Error;
use std::fmt;

// How many cycles a trace may hold.
pub const MAX_CYCLES: usize = 65536;

// The largest strobe of a 32-bit word: a bit for each byte. A test of a strobe is one comparison with it, and so no function.
pub const MAX_STRB: u8 = 15;

// The verdicts' numbers, where a call for C answers no enum: 0 is none, for a trace that is refused.
pub const NONE: u8 = 0;

pub const CLEAN: u8 = 1;

pub const BROKEN: u8 = 2;

// The numbers of rules seq and align, which have none in document 01.
pub const SEQ: u8 = 100;

pub const ALIGN: u8 = 101;

// The two limits as functions too: the length of an array is no call, so that each is a constant, and a public function that promises
// that it is the definitions'.
pub fn max_cycles() -> usize
    ensures { result ≡ max_cycles }
{
    MAX_CYCLES
}

pub fn max_strb() -> u8
    ensures { result ≡ max_strb }
{
    MAX_STRB
}

// What a stream carries in one cycle: a word, and a strobe bit for each of its bytes.
#[repr(C)]
#[derive(Clone, Copy, Debug, PartialEq, Eq)]
pub struct Payload {
    pub data: u32,
    pub strb: u8,
}

// What is shown when valid is 0: a constant, which a `Default` would not be.
pub const ZEROS: Payload = Payload { data: 0, strb: 0 };

// What a step is given: what the source offers, whether the sink is ready, and whether this is a clear. valid beside the payload and no
// `Option`: they are wires of their own, and an illegal strobe is refused with valid 0 too (`step_grounds` of `fifo`).
#[derive(Clone, Copy, Debug, PartialEq, Eq)]
pub struct Cycle {
    pub valid: bool,
    pub payload: Payload,
    pub sink: bool,
    pub clear: bool,
}

// What a step shows, and the state after it. valid beside the payload, with zeros where it is 0, as the definitions read them
// (`answered` of `fifo`, `stepping` of `chain`).
#[derive(Clone, Copy)]
pub struct Stepped<S> {
    pub ready: bool,
    pub valid: bool,
    pub payload: Payload,
    pub next: S,
}

// The first breach of a trace: the rule that is broken, and the cycle.
#[derive(Clone, Copy)]
pub struct Breach<R> {
    pub rule: R,
    pub cycle: u32,
}

// What is wrong with a refused input. `specs/Refusals.antt` gives each its number.
#[derive(Clone, Copy, Debug, PartialEq, Eq)]
pub enum Refusal {
    LengthsDiffer,
    IllegalBits,
    TooLong,
    BadDepth,
    BadCount,
    BadState,
    OutputTooShort,
    OutOfRange,
    BadText,
    BadMask,
    OverwritesItself,
    NotThePlan,
}

// The refusal's number in document 01.
impl From<Refusal> for u8 {
    ghost from_gives = { λ why number. number ≡ number_of why };

    fn from(why: Refusal) -> u8 {
        match why {
            Refusal::LengthsDiffer => 1,
            Refusal::IllegalBits => 2,
            Refusal::TooLong => 3,
            Refusal::BadDepth => 4,
            Refusal::BadCount => 5,
            Refusal::BadState => 6,
            Refusal::OutputTooShort => 7,
            Refusal::OutOfRange => 8,
            Refusal::BadText => 9,
            Refusal::BadMask => 10,
            Refusal::OverwritesItself => 11,
            Refusal::NotThePlan => 12,
        }
    }
}

impl Refusal {
    // The same by the name that it had first: a public function stays, with its promise.
    pub fn number(self) -> u8
        ensures { result ≡ number_of self }
    {
        u8::from(self)
    }
}

// A refusal is printed by its number.
impl fmt::Display for Refusal {
    fn fmt<W: fmt::Write>(&self, f: &mut fmt::Formatter<W>) -> fmt::Result {
        write!(f, "{}", u8::from(*self))
    }
}

impl Error for Refusal {}
