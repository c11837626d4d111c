// The strobe plan: which bytes of each word a row of 32-bit packets fills, from a byte address on.
//
// Writes out "Strobe plan" of document 01.
// Address and number go apart, as the C interface gives them.
#![tactic(auto)]

ghost use Rattle.std.specs.Prelude.{◌≡◌, ◌%◌, length};
ghost use Rattle.strbgen.specs.Plan.{word_count, first_strobe, last_strobe, strobes, is_plan, Planned};

use signals::{MAX_STRB, Refusal};

// How many packets a plan may have.
pub const MAX_PACKETS: u32 = 65535;

// The strobes of a plan's first and last word, by the address's remainder by four.
const ENDS: [(u8, u8); 4] = [(15, 15), (14, 1), (12, 3), (8, 7)];

fn ends(address: u32) -> (u8, u8)
    ensures { (result.0 ≡ first_strobe (address % 4)) × (result.1 ≡ last_strobe (address % 4)) }
{
    ENDS[(address % 4) as usize]
}

// How many words n packets take from a byte address on, for any n.
pub fn plan_words(address: u32, n: u32) -> usize
    ensures { result ≡ word_count (address % 4) n }
{
    let n = n as usize;
    if address % 4 == 0 || n == 0 { n } else { n + 1 }
}

// Writes the strobes of a plan of as many words as the buffer holds.
fn fill(address: u32, out: &mut [u8])
    ensures { out.new ≡ strobes (address % 4) (length out.old) }
{
    let words = out.len();
    out.fill(MAX_STRB);
    if words > 0 {
        let (first, last) = ends(address);
        out[words - 1] = last;
        out[0] = first;
    }
}

// Plans n packets from a byte address on: the strobe of each word, from the buffer's start, and the number of words.
pub fn strobe_plan(address: u32, n: u32, out: &mut [u8]) -> Result<usize, Refusal>
    ensures { Planned address n out.old out.new result }
{
    if n > MAX_PACKETS {
        return Err(Refusal::TooLong);
    }
    let words = plan_words(address, n);
    if out.len() < words {
        return Err(Refusal::OutputTooShort);
    }
    fill(address, &mut out[..words]);
    Ok(words)
}

// Whether strobes are those of the plan for n packets from a byte address on. Every one between first and last is looked at, so that
// this becomes vector code: for 65,536 strobes it took 2 microseconds, and with `all` 47.
pub fn is_plan(address: u32, n: u32, given: &[u8]) -> bool
    ensures { result ≡ is_plan (address % 4) n given.now }
{
    if given.len() != plan_words(address, n) {
        return false;
    }
    let (first, last) = ends(address);
    match given {
        [] => true,
        [only] => *only == first,
        [head, between @ .., tail] => {
            let mut same = (*head == first) & (*tail == last);
            for strobe in between {
                same &= *strobe == MAX_STRB;
            }
            same
        }
    }
}
