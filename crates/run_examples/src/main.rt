// Runs the Run examples of document 01, "Bench examples": the depths of a FIFO and the length of a trace that are accepted; for
// request T-05, bursts longer than a trace; for request T-06, new and handed-in FIFOs and chains at their limits; for request T-08,
// early-stall FIFOs and a mixed chain; for request T-09, a chain's run with a clear in its midst; for request T-12, when held payloads
// are delivered; and, for request T-01, merges and splits of two and of four lanes.
//
// The examples that are claims about the definitions are those of the crate `examples`.
#![tactic(auto)]

mod wide; // wide.rt: merges and splits

ghost use Rattle.std.specs.Prelude.{◌≡◌, false};

use chain::Chain;
use fifo::{Fifo, MAX_DEPTH, Place};
use monitor::{MAX_SEEN, Monitor};
use places::{MAX_FIFOS, Places};
use signals::{Cycle, MAX_CYCLES, Payload, Refusal};
use std::{fmt, io};

// One cycle more than a trace may hold.
const TOO_MANY: usize = MAX_CYCLES + 1;

// One FIFO more than a chain may have.
const TOO_LONG: usize = MAX_FIFOS + 1;

// The cycles of the run with a clear.
const WITH_CLEAR: usize = 7;

// A cycle that offers a word to a FIFO or a chain whose sink is ready.
const OFFER: Cycle = Cycle {
    valid: true,
    payload: Payload { data: 1, strb: 15 },
    sink: true,
    clear: false,
};

// A place as it is printed: its kind only where it is early-stall. fifo_demo prints it otherwise.
#[derive(Drop)]
struct Shown(Place);

impl fmt::Display for Shown {
    fn fmt<W: fmt::Write>(&self, f: &mut fmt::Formatter<W>) -> fmt::Result {
        if self.0.early_stall {
            write!(f, "early-stall ")?;
        }
        write!(f, "depth {}", self.0.depth)
    }
}

// How a call ended.
fn print_end<T: Drop>(rt: &impl Print, answer: Result<T, Refusal>) -> io::Result<()> {
    match answer {
        Ok(_) => println!(rt; ": accepted"),
        Err(why) => println!(rt; ": refused {why}"),
    }
}

// A place by its kind: two names, where one function would take a flag at each of many calls, and the struct as many lines as it has here.
// The clause is for `unwrap` of the chains below, whose places are legal.
fn plain(depth: usize) -> Place
    ensures { result ≡ record { depth = depth; early_stall = false } }
{
    Place {
        depth,
        early_stall: false,
    }
}

fn early_stall(depth: usize) -> Place {
    Place {
        depth,
        early_stall: true,
    }
}

// Asks for a new FIFO.
fn run_new(rt: &impl Print, place: Place) -> io::Result<()> {
    print!(rt; "{}", Shown(place))?;
    print_end(rt, Fifo::new(place))
}

// A FIFO at a place, with so many held. Its strobes are legal.
fn holding(place: Place, held: usize) -> Fifo {
    Fifo {
        place,
        count: held,
        ..Fifo::smallest()
    }
}

// Steps a FIFO that is handed in.
fn run_handed_in(rt: &impl Print, place: Place, held: usize) -> io::Result<()> {
    print!(rt; "handed-in {} holding {held}", Shown(place))?;
    print_end(rt, holding(place, held).step(OFFER))
}

// Asks for a new chain of FIFOs at these places.
fn run_chain(rt: &impl Print, of: &str, places: &[Place]) -> io::Result<()> {
    print!(rt; "FIFOs {}{of}", places.len())?;
    print_end(rt, Chain::new(places))
}

// The same of places by value.
fn run_chain_at(rt: &impl Print, of: &str, places: Places) -> io::Result<()> {
    print!(rt; "FIFOs {}{of}", places.count)?;
    print_end(rt, Chain::at(places))
}

// Steps a chain that is handed in with a number of FIFOs.
fn run_handed_in_chain(rt: &impl Print, count: usize) -> io::Result<()> {
    print!(rt; "handed-in FIFOs {count}")?;
    let deep = Chain::new(&[plain(MAX_DEPTH); MAX_FIFOS]).unwrap();
    let chain = Chain { count, ..deep };
    print_end(rt, chain.step(OFFER))
}

// Has a stream's trace checked.
fn run_stream(rt: &impl Print, control: &[u8], data: &[u32]) -> io::Result<()> {
    print!(rt; "stream cycles {}", control.len())?;
    print_end(rt, stream_checker::check_stream(control, data, false))
}

// Has a memory trace checked.
fn run_memory(rt: &impl Print, control: &[u8], words: &[u32]) -> io::Result<()> {
    print!(rt; "memory cycles {}", control.len())?;
    print_end(rt, mem_checker::check_mem(control, words, words, words))
}

// Feeds a burst to a monitor that has seen so many cycles, none of them a handshake or a stall.
fn run_burst(rt: &impl Print, seen: u32, control: &[u8], data: &[u32]) -> io::Result<()> {
    print!(rt; "seen {seen}, burst cycles {}", control.len())?;
    let monitor = Monitor {
        cycles: seen,
        ..Monitor::fresh(false)
    };
    print_end(rt, monitor.fed(control, data))
}

// A run of two plain FIFOs: two payloads, a clear with a third while the outlet stalls, and a fourth. Prints the outlet's trace, each
// cycle as a line of a bench text has it.
fn run_clear(rt: &impl Print) -> io::Result<()> {
    let control: [u8; WITH_CLEAR] = [0xf1, 0xf1, 0x00, 0xf5, 0xf1, 0x00, 0x00];
    let data: [u32; WITH_CLEAR] = [0x11, 0x12, 0x00, 0x13, 0x14, 0x00, 0x00];
    let sink: [u8; WITH_CLEAR] = [1, 0, 0, 0, 1, 1, 1];
    let mut out_control = [0u8; WITH_CLEAR];
    let mut out_data = [0u32; WITH_CLEAR];
    let chain = Chain::new(&[plain(2); 2]).unwrap();
    print!(rt; "chain cycles {WITH_CLEAR}")?;
    let ran = chain.run(&control, &data, &sink, &mut out_control, &mut out_data);
    print_end(rt, ran)?;
    for (control, data) in out_control.iter().zip(&out_data) {
        println!(rt; "c={control:02x}{data:08x}")?;
    }
    Ok(())
}

// Asks when payload i is delivered of a chain of three FIFOs, plain of depth 2 but for the second, an early-stall one of depth 4, that hold
// so many.
fn run_time(rt: &impl Print, held: [usize; 3], i: usize) -> io::Result<()> {
    let [mouth, middle, end] = held;
    print!(rt; "FIFOs holding {mouth}, {middle}, {end}, payload {i}")?;
    let mut fifos = [Fifo::smallest(); MAX_FIFOS];
    fifos[0] = holding(plain(2), mouth);
    fifos[1] = holding(early_stall(4), middle);
    fifos[2] = holding(plain(2), end);
    let chain = Chain { count: 3, fifos };
    match chain.delivery_time(i) {
        Ok(cycles) => println!(rt; ": delivered after {cycles}"),
        Err(why) => println!(rt; ": refused {why}"),
    }
}

// One payload at the mouth, a full chain, one with a gap, an empty one, and one whose mouth holds too many.
fn run_times(rt: &impl Print) -> io::Result<()> {
    run_time(rt, [1, 0, 0], 0)?;
    for i in [0, 6, 7] {
        run_time(rt, [2, 3, 2], i)?;
    }
    for i in [0, 1, 2] {
        run_time(rt, [2, 0, 1], i)?;
    }
    run_time(rt, [0, 0, 0], 0)?;
    run_time(rt, [3, 0, 0], 0)
}

// FIFOs of legal depths, then of illegal ones: new ones, and ones that are handed in.
fn run_depths(rt: &impl Print) -> io::Result<()> {
    for depth in [2, 16, 18, 64, 0, 3, 17, 65, 66] {
        run_new(rt, plain(depth))?;
    }
    for depth in [18, 64, 17, 65, 66] {
        run_handed_in(rt, plain(depth), 0)?;
    }
    Ok(())
}

// Early-stall FIFOs: the least depth is 4, and one fewer than the depth are held.
fn run_early_stall(rt: &impl Print) -> io::Result<()> {
    for depth in [4, 64, 2, 5, 66] {
        run_new(rt, early_stall(depth))?;
    }
    run_handed_in(rt, early_stall(4), 3)?;
    run_handed_in(rt, early_stall(4), 4)?;
    run_handed_in(rt, plain(4), 4)?;
    run_handed_in(rt, early_stall(2), 0)?;
    run_handed_in(rt, early_stall(2), 1)
}

// Chains at the limits: new ones, and ones that are handed in.
fn run_chains(rt: &impl Print) -> io::Result<()> {
    let deep = [plain(64); TOO_LONG];
    run_chain(rt, " of depth 64", &deep[..MAX_FIFOS])?;
    let mut mixed = [early_stall(4); MAX_FIFOS];
    mixed[0] = plain(2);
    mixed[7] = plain(64);
    mixed[14] = early_stall(64);
    run_chain(rt, ", early-stall but for two", &mixed)?;
    run_chain(rt, " of depth 64", &deep)?;
    run_chain(rt, " of depth 3", &[plain(3); TOO_LONG])?;
    run_chain(rt, "", &deep[..0])?;
    let mut bad = [plain(2); MAX_FIFOS];
    bad[15] = plain(66);
    run_chain(rt, ", the last of depth 66", &bad)?;
    bad[15] = early_stall(2);
    run_chain(rt, ", the last early-stall of depth 2", &bad)?;
    let fifteen = Places {
        count: 15,
        listed: bad,
    };
    run_chain_at(rt, ", the sixteenth not looked at", fifteen)?;
    run_handed_in_chain(rt, 16)?;
    run_handed_in_chain(rt, 17)
}

fn main(rt: HostRuntime) -> io::Result<()> {
    run_depths(&rt)?;
    run_early_stall(&rt)?;
    run_chains(&rt)?;
    let control = [0u8; TOO_MANY];
    let words = [0u32; TOO_MANY];
    run_stream(&rt, &control[..MAX_CYCLES], &words[..MAX_CYCLES])?;
    run_stream(&rt, &control, &words)?;
    run_memory(&rt, &control[..MAX_CYCLES], &words[..MAX_CYCLES])?;
    run_memory(&rt, &control, &words)?;
    run_burst(&rt, 0, &control, &words)?;
    run_burst(&rt, MAX_SEEN - TOO_MANY as u32, &control, &words)?;
    run_burst(&rt, MAX_SEEN - MAX_CYCLES as u32, &control, &words)?;
    run_burst(&rt, MAX_SEEN, &control[..0], &words[..0])?;
    run_clear(&rt)?;
    run_times(&rt)?;
    wide::run_merges(&rt)?;
    wide::run_splits(&rt)
}
