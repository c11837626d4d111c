// Runs the vectors through `bench_text`: each argument names a bench text, NAME.in, whose report has to be the bytes of NAME.out.
//
// Prints the name of each text whose report differs, and at the end how many texts there are and how many reports differ.
// A file that is missing differs.
#![tactic(auto)]

ghost use Rattle.std.specs.Prelude.{◌≡◌, ◌≤◌, length, IfSome};
ghost use Rattle.std.specs.Io.KnownBytes.{Consumes};
ghost use Rattle.bench_text.specs.Report.{report_of};

use bench_text::MAX_REPORT;
use std::env::FillError;
use std::fs::File;
use std::io::Read;
use std::rt::{Env, Files};
use std::{io, str};

// Room for a name. Each name and each file lies in an array: std's `args` and `read` take memory from a heap, and nothing here does.
const MAX_NAME: usize = 256;

// Room for a vector's report, which is shorter.
const REPORT_ROOM: usize = 4096;

// Room for a bench text: one that fills it is longer than any of the form.
const TEXT_ROOM: usize = 65536;

// Reads into the room until it is full, the reader ends or a read fails, and answers the part that was read. By hand, straight into the
// room: std's `copy` reads pieces of its own, and of what a `Cursor` holds after it a proof knows nothing.
fn fill<'a, R: Read>(reader: &mut R, room: &'a mut [u8]) -> &'a [u8]
    ensures within { length result.now ≤ length room.old }
    ensures read { Consumes (R.remaining reader.old) (R.remaining reader.new) result.now }
{
    let mut filled = 0;
    // Nothing is read past the room: a pipe that stays open would be waited for.
    'pieces: while filled < room.len() {
        match reader.read(&mut room[filled..]) {
            Ok(0) | Err(_) => break,
            Ok(more) => filled += more,
        }
    }
    &room[..filled]
}

// What a file holds, as far as it fits into the room; or there is no such file.
fn load<'a>(rt: &impl Files, path: &[u8], room: &'a mut [u8]) -> Option<&'a [u8]>
    ensures { IfSome result (λ held. length held.now ≤ length room.old) }
{
    // Bytes that are no text name no file.
    let name = str::from_utf8(path).ok()?;
    let mut file = File::open(rt, name).ok()?;
    Some(fill(&mut file, room))
}

// The report of a text. None is refused: each fits into its room (`ReportsFit`).
#[tactic(auto, using(bench_text::proofs::NumbersFit::reports_fit_lem, bench_text::proofs::Reporting::delivered))]
fn report<'a>(text: &[u8], room: &'a mut [u8; MAX_REPORT]) -> &'a [u8]
    ensures { result.now ≡ report_of text.now }
{
    let count = bench_text::report(text, room).unwrap();
    &room[..count]
}

// Whether the report of the text in one file is what another holds. A text that fills its room is longer than any of the form.
fn files_agree(rt: &impl Files, text_path: &[u8], report_path: &[u8]) -> bool {
    let mut text_room = [0u8; TEXT_ROOM];
    let mut made_room = [0u8; MAX_REPORT];
    let mut expected_room = [0u8; REPORT_ROOM];
    let Some(text) = load(rt, text_path, &mut text_room) else {
        return false;
    };
    let made = report(text, &mut made_room);
    load(rt, report_path, &mut expected_room) == Some(made)
}

// Whether a vector agrees: its text's name is NAME.in, and one byte shorter than its report's. One that is too short or too long names no
// vector.
fn vector_agrees(rt: &impl Files, text_path: &[u8]) -> bool {
    let length = text_path.len();
    if !(2..MAX_NAME).contains(&length) {
        return false;
    }
    let mut report_path = [0u8; MAX_NAME];
    report_path[..length].copy_from_slice(text_path);
    report_path[length - 2..length + 1].copy_from_slice(b"out");
    files_agree(rt, text_path, &report_path[..length + 1])
}

// Runs the vector whose text an argument names, and prints the name if the report differs.
fn differs(rt: &(impl Files + Env + Print), i: usize) -> io::Result<bool> {
    let mut room = [0u8; MAX_NAME];
    // An argument that does not fit is an empty name, which differs.
    let length = rt.arg(i, &mut room).unwrap_or(0);
    let path = &room[..length];
    if vector_agrees(rt, path) {
        return Ok(false);
    }
    rt.write_all(path)?;
    println!(rt; " differs")?;
    Ok(true)
}

// How many arguments there are, with the program's name.
fn arg_count(rt: &impl Env) -> usize {
    (0..usize::MAX)
        .take_while(|i| !matches!(rt.arg(*i, &mut []), Err(FillError::NotPresent)))
        .count()
}

fn main(rt: HostRuntime) -> io::Result<()> {
    let arguments = arg_count(&rt);
    let mut differing: u64 = 0;
    for i in 1..arguments {
        if differs(&rt, i)? {
            differing += 1;
        }
    }
    let vectors = arguments.saturating_sub(1);
    println!(rt; "{vectors} vectors, {differing} differ")
}
