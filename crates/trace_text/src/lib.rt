// From the bytes of a bench text to its trace. Each function reads one part of the form at the front of a text, and answers with what it
// read and the rest of the text.
//
// Writes out the form of "Bench text" of document 01. `specs/Form.antt` has the form, `specs/Parsing.antt` what `parse` promises, and
// `specs/Parts.antt` what an answer of the other functions means for the form.
#![tactic(auto)]

ghost use Rattle.std.specs.Prelude.{◌≡◌, ◌≤◌, ◌+◌, ◌^◌, length, take};
ghost use Rattle.std.specs.Char.{is_ascii_digit};
ghost use Rattle.std.specs.List.{prefix_len};
ghost use Rattle.trace_text.specs.Digits.{digit_of};
ghost use Rattle.trace_text.specs.Form as form;
ghost use Rattle.trace_text.specs.Parsing.{Parses};
ghost use Rattle.trace_text.specs.Parts.{rest_after, front, found, number_of, columns, columns_read};

use signals::Refusal;

// The longest trace that a text may announce.
pub const MAX_ANNOUNCED: usize = 4096;

// How many digits the announced number may have.
const MAX_DIGITS: usize = 5;

// What a cycle line records. It is public for what is said of the form (`OfForm`), and no public call answers it.
#[derive(Clone, Copy, Debug, PartialEq, Eq)]
pub struct Entry {
    pub control: u8,
    pub word: u32,
}

// What the header of a text says: whether its counter is checked, and how many cycles follow.
#[derive(Clone, Copy, Debug, PartialEq, Eq)]
pub struct Parsed {
    pub seq: bool,
    pub cycles: usize,
}

// Given bytes at the front of a text.
#[tactic(auto, using(crate::proofs::Parts::literal_by))]
fn literal<'a>(text: &'a [u8], given: &[u8]) -> Option<&'a [u8]>
    ensures { form.literal given.now text.now ≡ rest_after result }
{
    text.strip_prefix(given)
}

// The second header line.
fn switch(text: &[u8]) -> Option<(bool, &[u8])>
    ensures { form.switch text.now ≡ front result }
{
    match literal(text, b"seq=on\n") {
        Some(rest) => Some((true, rest)),
        None => Some((false, literal(text, b"seq=off\n")?)),
    }
}

// The digit of a byte in base 10 or 16. By hand: std's `to_digit` takes upper-case letters too, which the form refuses.
fn digit_of(base: u32, byte: u8) -> Option<u32>
    ensures { digit_of base byte ≡ found result }
{
    match byte {
        b'0'..=b'9' => Some(u32::from(byte - b'0')),
        b'a'..=b'f' if 16 <= base => Some(u32::from(byte - b'a' + 10)),
        _ => None,
    }
}

// The number that digits in base 10 or 16 stand for, the highest first, if all are digits. By hand, since `from_str_radix` takes a sign
// and upper-case letters too.
#[tactic(auto, using(crate::proofs::Digits::grown, crate::proofs::Digits::room, crate::proofs::Parts::number_goes_on))]
fn number(base: u32, digits: &[u8]) -> Option<u32>
    requires { (10 ≤ base) × (base ^ length digits.now ≤ 2 ^ 32) }
    ensures { number_of base 0 digits.now ≡ found result }
{
    let mut value = 0;
    for byte in digits {
        let digit = digit_of(base, *byte)?;
        value = value * base + digit;
    }
    Some(value)
}

// How many decimal digits a text begins with. It stops at one more than a number may have: a text is refused there, however many follow.
fn digit_count(text: &[u8]) -> usize
    ensures count { result ≡ prefix_len is_ascii_digit (take (MAX_DIGITS + 1) text.now) }
    ensures few { result ≤ length text.now }
{
    text.iter()
        .take(MAX_DIGITS + 1)
        .take_while(|byte| byte.is_ascii_digit())
        .count()
}

// A number of one to five digits, with no leading zero but 0 itself.
#[tactic(auto, using(crate::proofs::Parts::number_refused))]
fn short_number(text: &[u8]) -> Option<(u32, &[u8])>
    ensures { form.number text.now ≡ front result }
{
    let count = digit_count(text);
    if count == 0 || MAX_DIGITS < count || (text[0] == b'0' && count != 1) {
        return None;
    }
    let (digits, rest) = text.split_at(count);
    Some((number(10, digits)?, rest))
}

// The third header line.
fn announced(text: &[u8]) -> Option<(u32, &[u8])>
    ensures { form.announced text.now ≡ front result }
{
    let rest = literal(text, b"cycles=")?;
    let (cycles, rest) = short_number(rest)?;
    Some((cycles, literal(rest, b"\n")?))
}

// So many hex digits, the highest first.
#[tactic(auto, using(crate::proofs::Parts::hex_is, crate::proofs::Parts::hex_short))]
fn hex(text: &[u8], count: usize) -> Option<(u32, &[u8])>
    requires { 16 ^ count ≤ 2 ^ 32 }
    ensures { form.hex_from 0 count text.now ≡ front result }
{
    let (digits, rest) = text.split_at_checked(count)?;
    Some((number(16, digits)?, rest))
}

// One cycle line.
#[tactic(auto, using(crate::proofs::Spelling::byte_read))]
fn cycle_line(text: &[u8]) -> Option<(Entry, &[u8])>
    ensures { form.cycle_line text.now ≡ front result }
{
    let rest = literal(text, b"c=")?;
    let (control, rest) = hex(rest, 2)?;
    let (word, rest) = hex(rest, 8)?;
    let rest = literal(rest, b"\n")?;
    let control = control as u8;
    Some((Entry { control, word }, rest))
}

// The three header lines.
fn header(text: &[u8]) -> Option<(Parsed, &[u8])>
    ensures { form.header text.now ≡ front result }
{
    let rest = literal(text, b"kind=stream\n")?;
    let (seq, rest) = switch(rest)?;
    let (cycles, rest) = announced(rest)?;
    let cycles = cycles as usize;
    Some((Parsed { seq, cycles }, rest))
}

// So many cycle lines and nothing after them, written into two arrays and not one of entries, as `check_stream` is lent two.
#[tactic(auto, using(crate::proofs::Parts::lines_stop))]
fn cycle_lines(text: &[u8], cycles: usize, control: &mut [u8], words: &mut [u32]) -> Option<()>
    requires { (cycles ≤ length control.old) × (cycles ≤ length words.old) }
    ensures { columns (form.cycle_lines cycles text.now) ≡ columns_read result (take cycles control.new) (take cycles words.new) }
{
    let mut rest = text;
    // By the index: of what is written through a zip of two `iter_mut` a proof knows no element.
    for i in 0..cycles {
        let (entry, after) = cycle_line(rest)?;
        control[i] = entry.control;
        words[i] = entry.word;
        rest = after;
    }
    rest.is_empty().then_some(())
}

// A whole text. The trace is written into two arrays that hold the longest; they are left as they were where the text is refused.
#[tactic(auto, unfolding(crate::specs::Form::reading))]
pub fn parse(
    text: &[u8],
    control: &mut [u8; MAX_ANNOUNCED],
    words: &mut [u32; MAX_ANNOUNCED],
) -> Result<Parsed, Refusal>
    ensures { Parses text.now control.old words.old result control.new words.new }
{
    let (parsed, lines) = header(text).ok_or(Refusal::BadText)?;
    if MAX_ANNOUNCED < parsed.cycles {
        return Err(Refusal::TooLong);
    }
    // Arrays of its own: a text that is refused at its last line leaves the lent ones as they were (`kept` of `Parses`).
    let mut read_control = [0; MAX_ANNOUNCED];
    let mut read_words = [0; MAX_ANNOUNCED];
    cycle_lines(lines, parsed.cycles, &mut read_control, &mut read_words).ok_or(Refusal::BadText)?;
    *control = read_control;
    *words = read_words;
    Ok(parsed)
}
