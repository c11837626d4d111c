// Merges and splits of wide streams.
use crate::print_end;
use lanes::{MAX_LANES, NO_MERGE, NO_SPLIT, Offer, Wide};
use signals::Payload;
use std::{fmt, io};

// A wide word as it is printed.
#[derive(Drop)]
struct Words(Wide);

impl fmt::Display for Words {
    fn fmt<W: fmt::Write>(&self, f: &mut fmt::Formatter<W>) -> fmt::Result {
        write!(f, ", words")?;
        for word in &self.0.data {
            write!(f, " {word}")?;
        }
        write!(f, ", strb {}", self.0.strb)
    }
}

// Readies as they are printed.
#[derive(Drop)]
struct Readies([bool; MAX_LANES]);

impl fmt::Display for Readies {
    fn fmt<W: fmt::Write>(&self, f: &mut fmt::Formatter<W>) -> fmt::Result {
        write!(f, ", readies")?;
        for ready in &self.0 {
            write!(f, " {}", u8::from(*ready))?;
        }
        Ok(())
    }
}

// Offers as they are printed: of each its valid, its word and its strobes.
#[derive(Drop)]
struct Offers([Offer; MAX_LANES]);

impl fmt::Display for Offers {
    fn fmt<W: fmt::Write>(&self, f: &mut fmt::Formatter<W>) -> fmt::Result {
        for offer in &self.0 {
            let Payload { data, strb } = offer.payload;
            write!(f, " {}:{data}:{strb}", u8::from(offer.valid))?;
        }
        Ok(())
    }
}

// Merges one cycle.
fn run_merge(
    rt: &impl Print,
    lanes: u8,
    inputs: [Offer; MAX_LANES],
    ready: bool,
) -> io::Result<()> {
    print!(rt;
        "merge of {lanes}, inputs{}, ready {}",
        Offers(inputs),
        u8::from(ready)
    )?;
    let merged = lanes::merge(lanes, inputs, ready);
    print_end(rt, merged)?;
    let shown = merged.unwrap_or(NO_MERGE);
    println!(rt;
        "  valid {}{}{}",
        u8::from(shown.valid),
        Words(shown.wide),
        Readies(shown.readies)
    )
}

// Splits one cycle.
fn run_split(
    rt: &impl Print,
    lanes: u8,
    valid: bool,
    wide: Wide,
    readies: [bool; MAX_LANES],
) -> io::Result<()> {
    print!(rt;
        "split of {lanes}, valid {}{}{}",
        u8::from(valid),
        Words(wide),
        Readies(readies)
    )?;
    let split = lanes::split(lanes, valid, wide, readies);
    print_end(rt, split)?;
    let shown = split.unwrap_or(NO_SPLIT);
    println!(rt;
        "  ready {}, branches{}",
        u8::from(shown.ready),
        Offers(shown.branches)
    )
}

// A valid offer.
fn offer(data: u32, strb: u8) -> Offer {
    Offer {
        valid: true,
        payload: Payload { data, strb },
    }
}

// Taken, not taken, and with an input that is not valid; four lanes; and what is refused.
pub(crate) fn run_merges(rt: &impl Print) -> io::Result<()> {
    let past = offer(9, 255);
    let two = [offer(7, 15), offer(8, 3), past, past];
    run_merge(rt, 2, two, true)?;
    run_merge(rt, 2, two, false)?;
    let mut one = two;
    one[1].valid = false;
    run_merge(rt, 2, one, true)?;
    let four = [two[0], two[1], offer(9, 0), offer(10, 8)];
    run_merge(rt, 4, four, true)?;
    run_merge(rt, 3, two, true)?;
    run_merge(rt, 4, two, true)?;
    one[1].payload.strb = 16;
    run_merge(rt, 2, one, true)
}

// What the merges gave; with a branch that is not ready, and a source that is not valid; and what is refused.
pub(crate) fn run_splits(rt: &impl Print) -> io::Result<()> {
    let two = Wide {
        data: [7, 8, 9, 9],
        strb: 63,
    };
    let four = Wide {
        data: [7, 8, 9, 10],
        strb: 32831,
    };
    run_split(rt, 2, true, two, [true, true, false, false])?;
    run_split(rt, 4, true, four, [true; MAX_LANES])?;
    run_split(rt, 2, true, two, [true, false, true, true])?;
    run_split(rt, 2, false, two, [true, true, false, false])?;
    run_split(rt, 3, true, two, [true; MAX_LANES])?;
    run_split(rt, 2, false, four, [true; MAX_LANES])
}
