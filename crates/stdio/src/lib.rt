// Standard input and output as every program here uses them: the whole input, the whole report, or one line on standard error.
//
// A call that a signal interrupts is made again, and so is, after a pause, one that comes too early. Which bytes a call of the system
// reads or writes no contract can say; `specs/Moving.antt` has what can be promised.
#![tactic(auto)]

ghost use Rattle.std.specs.Prelude.{◌-◌, ◌<◌, ◌≤◌, length, MatchResult};
ghost use Rattle.stdio.specs.Moving.{Fills, Writes};
ghost use Rattle.stdio.specs.Calls.{Moves};

use std::error::Error;
use std::io::{Cursor, ErrorKind, Read, Write};
use std::ops::Range;
use std::rt::Clock;
use std::time::Duration;
use std::{fmt, io, str, thread};

// So many bytes were written, fewer than the report has; then writing failed. An error of its own, which says what its number counts.
#[derive(Clone, Copy, Debug, PartialEq, Eq)]
pub struct Unwritten {
    pub written: usize,
}

impl fmt::Display for Unwritten {
    fn fmt<W: fmt::Write>(&self, f: &mut fmt::Formatter<W>) -> fmt::Result {
        write!(f, "writing failed after {} bytes", self.written)
    }
}

impl Error for Unwritten {}

// A proved loop has to end, and nothing says that an input does. So no more calls are made than a number that no run uses up.
const CALLS: u64 = u64::MAX;

// Room for an error's text, which is shorter.
const MAX_TEXT: usize = 256;

// Bytes as text, for a line on standard error. Those that are no text are escaped.
#[derive(Drop)]
struct Text<'a>(&'a [u8]);

impl fmt::Display for Text<'_> {
    fn fmt<W: fmt::Write>(&self, f: &mut fmt::Formatter<W>) -> fmt::Result {
        for chunk in self.0.utf8_chunks() {
            f.write_str(chunk.valid())?;
            write!(f, "{}", chunk.invalid().escape_ascii())?;
        }
        Ok(())
    }
}

// The system's words for an error, without the number that std puts after them.
fn words(text: &str) -> &str {
    text.split_once(" (os error ")
        .map_or(text, |(words, _)| words)
}

// A stream of the program: the runtime that moves its bytes, and its name for a line on standard error. The name is any bytes, as callers
// may give it: text would ask more of them.
#[derive(Drop)]
struct Stream<'a, R> {
    rt: &'a R,
    what: &'a [u8],
}

impl<R: Eprint + Clock> Stream<'_, R> {
    // A line on standard error: what failed, and why. Where that fails too, nobody is left to be told.
    fn say(&self, why: &str) {
        let _ = eprintln!(self.rt; "{}: {why}", Text(self.what));
    }

    // The line for an error.
    fn fail(&self, error: io::Error) {
        let mut text = Cursor::new([0u8; MAX_TEXT]);
        let _ = write!(text, "{error}");
        let count = (text.position() as usize).min(MAX_TEXT);
        let bytes = text.into_inner();
        self.say(words(str::from_utf8(&bytes[..count]).unwrap_or("")));
    }

    // A thousandth of a second: short for whoever waits, and long enough to leave the processor to others.
    fn pause(&self) {
        thread::sleep(self.rt, Duration::from_millis(1));
    }

    // Whether the call that failed is to be made again: at once where a signal interrupted it, after a pause where it came too early.
    fn is_repeated(&self, error: io::Error) -> bool {
        match error.kind() {
            ErrorKind::Interrupted => true,
            ErrorKind::WouldBlock => {
                self.pause();
                true
            }
            _ => false,
        }
    }

    // How many of these bytes a call moved, by its answer: none where it is to be made again, and no number where it found the end.
    fn moved(&self, answer: io::Result<usize>, bytes: &[u8]) -> io::Result<Option<usize>>
        ensures { Moves result (length bytes.now) }
    {
        match answer {
            Ok(0) => Ok(None),
            Ok(n) => Ok(Some(n.min(bytes.len()))),
            Err(error) => {
                if self.is_repeated(error) {
                    return Ok(Some(0));
                }
                Err(error)
            }
        }
    }

    // Makes calls, each for the range of bytes that are left, until all are moved, one finds the end or one fails. Answers how many bytes
    // are moved, as an error where that is for a failure: a number, since of a read no byte is unwritten.
    fn move_all<F: FnMut(Range<usize>) -> io::Result<Option<usize>>>(
        &self,
        total: usize,
        mut call: F,
    ) -> Result<usize, usize>
        requires callable { F.IsAlwaysCallable call }
        requires moves { (before : F) (range : _) (moved : _) (after : F) → F.step before range moved after → Moves moved (range.end - range.start) }
        ensures { MatchResult result (λ done. done ≤ total) (λ done. done < total) }
    {
        let mut done = 0;
        for _ in 0..CALLS {
            if done >= total {
                return Ok(done);
            }
            match call(done..total) {
                Ok(Some(n)) => done += n,
                Ok(None) => return Ok(done),
                Err(error) => {
                    self.fail(error);
                    return Err(done);
                }
            }
        }
        if done < total {
            self.fail(io::Error::from(ErrorKind::TimedOut));
            return Err(done);
        }
        Ok(done)
    }

    // Reads once.
    fn read_once(&self, input: &mut impl Read, buf: &mut [u8]) -> io::Result<Option<usize>>
        ensures { Moves result (length buf.new) }
    {
        let answer = input.read(buf);
        self.moved(answer, buf)
    }
}

impl<R: Print + Eprint + Clock> Stream<'_, R> {
    // Writes once.
    fn write_once(&self, bytes: &[u8]) -> io::Result<Option<usize>>
        ensures { Moves result (length bytes.now) }
    {
        let answer = self.rt.write_some(bytes);
        self.moved(answer, bytes)
    }
}

// Reads standard input to its end, or until the buffer is full, and counts the bytes (`Fills`). Where that fails, a line on standard error
// says `what`, and why, which leaves no error to answer.
pub fn read_input(
    rt: &(impl io::Input + Eprint + Clock),
    buf: &mut [u8],
    what: &[u8],
) -> Option<usize>
    ensures { Fills result buf.new }
{
    let stream = Stream { rt, what };
    let mut input = rt.reader();
    // `get_mut`, here and below `get`: what calls a closure that may be called with any range needs to know nothing of its buffer.
    stream
        .move_all(buf.len(), |range| match buf.get_mut(range) {
            Some(rest) => stream.read_once(&mut input, rest),
            None => Ok(None),
        })
        .ok()
}

// Writes a report to standard output. Where that fails, a line on standard error says `what`, and why.
pub fn write_report(
    rt: &(impl Print + Eprint + Clock),
    report: &[u8],
    what: &[u8],
) -> Result<(), Unwritten>
    ensures { Writes result (length report.now) }
{
    let stream = Stream { rt, what };
    let written = stream
        .move_all(report.len(), |range| match report.get(range) {
            Some(rest) => stream.write_once(rest),
            None => Ok(None),
        })
        .map_err(|written| Unwritten { written })?;
    if written < report.len() {
        stream.say("takes nothing");
        return Err(Unwritten { written });
    }
    Ok(())
}
