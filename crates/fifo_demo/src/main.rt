// Runs the FIFO: new ones at legal and illegal places, then a plain one of depth 4 that is filled, drained, wrapped, cleared and
// refused, and an early-stall one of depth 4 that is filled and drained. Each call is printed on a line: what it was given, and what
// it answered.
#![tactic(auto)]

use fifo::{Fifo, Place};
use signals::{Cycle, Payload, Refusal, Stepped, ZEROS};
use std::{fmt, io};

// The two kinds of place, plain and early-stall, of depth 4: two names, where each call would have a flag.
const PLAIN: Place = Place {
    depth: 4,
    early_stall: false,
};

const EARLY: Place = Place {
    depth: 4,
    early_stall: true,
};

// A place as it is printed: its kind only where it is early-stall. run_examples prints it otherwise.
#[derive(Drop)]
struct Shown(Place);

impl fmt::Display for Shown {
    fn fmt<W: fmt::Write>(&self, f: &mut fmt::Formatter<W>) -> fmt::Result {
        if self.0.early_stall {
            write!(f, " early-stall")?;
        }
        write!(f, " depth={}", self.0.depth)
    }
}

// Document 01's number of a refusal, or 0 where nothing is refused. exports has the same for C, and no program calls exports.
fn number<T: Drop>(answer: Result<T, Refusal>) -> u8 {
    answer.err().map_or(0, u8::from)
}

// A new FIFO, or the smallest where the place is refused.
fn new(rt: &impl Print, place: Place) -> io::Result<Fifo> {
    let answer = Fifo::new(place);
    let made = answer.unwrap_or(Fifo::smallest());
    println!(rt;
        "new{} | refusal={}{} held={}",
        Shown(place),
        number(answer),
        Shown(made.place),
        made.count
    )?;
    Ok(made)
}

// One cycle. A refused FIFO shows nothing, and stays as it was.
fn step(rt: &impl Print, f: Fifo, given: Cycle) -> io::Result<Fifo> {
    let answer = f.step(given);
    let shown = answer.unwrap_or(Stepped {
        ready: false,
        valid: false,
        payload: ZEROS,
        next: f,
    });
    let Payload { data, strb } = given.payload;
    print!(rt; "valid={} data={data} strb={strb} ", u8::from(given.valid))?;
    print!(rt;
        "sink={} clear={} | ",
        u8::from(given.sink),
        u8::from(given.clear)
    )?;
    let Payload { data, strb } = shown.payload;
    print!(rt;
        "refusal={} ready={} ",
        number(answer),
        u8::from(shown.ready)
    )?;
    println!(rt;
        "valid={} data={data} strb={strb} held={}",
        u8::from(shown.valid),
        shown.next.count
    )?;
    Ok(shown.next)
}

// A cycle that offers a word with all strobes set.
fn offer(rt: &impl Print, f: Fifo, word: u32, sink: bool) -> io::Result<Fifo> {
    let payload = Payload {
        data: word,
        strb: 15,
    };
    let given = Cycle {
        valid: true,
        payload,
        sink,
        clear: false,
    };
    step(rt, f, given)
}

// So many cycles that offer nothing, the sink ready.
fn drained(rt: &impl Print, mut f: Fifo, cycles: usize) -> io::Result<Fifo> {
    let nothing = Cycle {
        valid: false,
        payload: ZEROS,
        sink: true,
        clear: false,
    };
    for _ in 0..cycles {
        f = step(rt, f, nothing)?;
    }
    Ok(f)
}

// Four are offered, of which four fit into a plain FIFO and three into an early-stall one. What comes next waits, also in the cycle in
// which the full FIFO pops.
fn filled(rt: &impl Print, mut f: Fifo) -> io::Result<Fifo> {
    for word in 11..=15 {
        f = offer(rt, f, word, false)?;
    }
    offer(rt, f, 15, true)
}

// Seven payloads pass through a ring of four.
fn wrapped(rt: &impl Print, mut f: Fifo) -> io::Result<Fifo> {
    for word in 21..=27 {
        f = offer(rt, f, word, (23..=25).contains(&word))?;
    }
    drained(rt, f, 5)
}

// A clear, and the two refusals.
fn refused(rt: &impl Print, f: Fifo) -> io::Result<()> {
    let f = offer(rt, f, 31, false)?;
    let f = offer(rt, f, 32, false)?;
    let mut given = Cycle {
        valid: true,
        payload: Payload { data: 33, strb: 16 },
        sink: true,
        clear: true,
    };
    let f = step(rt, f, given)?;
    given.payload.strb = 15;
    let f = step(rt, f, given)?;
    let f = offer(rt, f, 34, false)?;
    let broken = Fifo { count: 5, ..f };
    given.payload = Payload { data: 35, strb: 16 };
    given.clear = false;
    step(rt, broken, given)?;
    Ok(())
}

fn main(rt: HostRuntime) -> io::Result<()> {
    for depth in [2, 16, 18, 64, 0, 3, 17, 65, 66] {
        new(&rt, Place { depth, ..PLAIN })?;
    }
    for depth in [4, 64, 2, 5, 66] {
        new(&rt, Place { depth, ..EARLY })?;
    }
    let f = new(&rt, PLAIN)?;
    let f = filled(&rt, f)?;
    let f = drained(&rt, f, 4)?;
    let f = wrapped(&rt, f)?;
    refused(&rt, f)?;
    let f = new(&rt, EARLY)?;
    let f = filled(&rt, f)?;
    drained(&rt, f, 4)?;
    Ok(())
}
