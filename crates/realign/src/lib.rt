// Source and sink realign for 32-bit streams: packets that start at any byte address, from words with strobes and back.
//
// Writes out request T-10, over the strobe plan of `strbgen`.
// Address and number go apart, as the C interface gives them.
#![tactic(auto)]

mod shift; // shift.rt: words moved up by bytes

ghost use Rattle.std.specs.Prelude.{◌≡◌, ◌%◌, length};
ghost use Rattle.signals.specs.Sequences.{entries_below};
ghost use Rattle.signals.specs.Tables.{first_applying};
ghost use Rattle.signals.specs.Refusals.{refusal_of};
ghost use Rattle.strbgen.specs.Plan.{word_count};
ghost use Rattle.realign.specs.From.{word_from};
ghost use Rattle.realign.specs.Sink as ofSink;
ghost use Rattle.realign.specs.Source as ofSource;

use shift::move_up;
use signals::Refusal;
use strbgen::MAX_PACKETS;

// What a source is refused with, if it is.
fn source_refusal(
    address: u32,
    n: u32,
    words: &[u32],
    strobes: &[u8],
    room: usize,
) -> Result<(), Refusal>
    ensures { refusal_of result ≡ first_applying (ofSource.grounds (address % 4) n words.now strobes.now room) }
{
    if words.len() != strobes.len() {
        return Err(Refusal::LengthsDiffer);
    }
    if n > MAX_PACKETS {
        return Err(Refusal::TooLong);
    }
    if room < n as usize {
        return Err(Refusal::OutputTooShort);
    }
    if !strbgen::is_plan(address, n, strobes) {
        return Err(Refusal::NotThePlan);
    }
    Ok(())
}

// Fills a buffer with the packets that a plan's words hold. The first word of an unaligned plan makes none; what it leaves over begins
// the first.
fn take(address: u32, words: &[u32], out: &mut [u32])
    requires { length words.now ≡ word_count (address % 4) (length out.old) }
    ensures { out.new ≡ entries_below (word_from (address % 4) words.now) (length out.old) }
{
    if let [first, ..] = words {
        let lead = words.len() - out.len();
        move_up(*first, (4 - address % 4) % 4, &words[lead..], out);
    }
}

// Gives back the n packets that words with a plan's strobes hold, from a byte address on, and answers how many. Words and strobes lie
// side by side, as the C interface lends them.
pub fn realign_source(
    address: u32,
    n: u32,
    words: &[u32],
    strobes: &[u8],
    out: &mut [u32],
) -> Result<usize, Refusal>
    ensures { ofSource.Sources address n words.now strobes.now out.old out.new result }
{
    source_refusal(address, n, words, strobes, out.len())?;
    let count = n as usize;
    take(address, words, &mut out[..count]);
    Ok(count)
}

// Fills a buffer with the plan's words, which hold the packets. An unaligned plan has one word more: what the last packet leaves over.
fn put(address: u32, packets: &[u32], out: &mut [u32])
    requires { length out.old ≡ word_count (address % 4) (length packets.now) }
    ensures { out.new ≡ ofSink.words_of (address % 4) packets.now }
{
    let n = packets.len();
    let left = move_up(0, address % 4, packets, &mut out[..n]);
    if n < out.len() {
        out[n] = left;
    }
}

// Makes the words and strobes of the plan for some packets from a byte address on, and answers how many.
pub fn realign_sink(
    address: u32,
    packets: &[u32],
    out_words: &mut [u32],
    out_strobes: &mut [u8],
) -> Result<usize, Refusal>
    ensures { ofSink.Sinks address packets.now out_words.old out_words.new out_strobes.old out_strobes.new result }
{
    if packets.len() > MAX_PACKETS as usize {
        return Err(Refusal::TooLong);
    }
    let n = packets.len() as u32;
    if out_words.len() < strbgen::plan_words(address, n) {
        return Err(Refusal::OutputTooShort);
    }
    let count = strbgen::strobe_plan(address, n, out_strobes)?;
    put(address, packets, &mut out_words[..count]);
    Ok(count)
}
