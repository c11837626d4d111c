// The checkers, with a number for each verdict and for the two rules that have none in document 01.
ghost use Rattle.std.specs.Prelude.{◌≡◌, length};
ghost use Rattle.stream_checker.specs.Verdicts.{check_stream};
ghost use Rattle.mem_checker.specs.Rules.{mem, mem_decoupled};
ghost use Rattle.mem_checker.specs.Verdicts.{check_mem};
ghost use Rattle.stream_checker.specs.Written as writtenStream;
ghost use Rattle.mem_checker.specs.Written as writtenMem;
ghost use Rattle.exports.specs.Judged.{Found};
ghost use Rattle.exports.specs.Verdicts.{stream_numbers, mem_numbers};

use signals::{BROKEN, Breach, CLEAN, NONE, Refusal};

// A verdict on a stream's trace, with the handshakes and the clears. Rule and cycle are 0 unless it is broken.
#[repr(C)]
#[derive(Clone, Copy)]
pub struct StreamVerdict {
    pub refusal: u8,
    pub verdict: u8,
    pub rule: u8,
    pub cycle: u32,
    pub handshakes: u32,
    pub clears: u32,
}

// A verdict on a memory trace, and whether a read is still open. No struct for both: one that is handed to C has no type parameter.
#[repr(C)]
#[derive(Clone, Copy)]
pub struct MemVerdict {
    pub refusal: u8,
    pub verdict: u8,
    pub rule: u8,
    pub cycle: u32,
    pub handshakes: u32,
    pub open: bool,
}

// What the two verdicts have in common, in the numbers that both take over. No field of theirs: C reads each of these by its own name.
#[derive(Clone, Copy)]
struct Judged {
    refusal: u8,
    verdict: u8,
    rule: u8,
    cycle: u32,
}

// Clean, or broken with the rule's number and the cycle; or refused.
impl<R: Into<u8>> From<Result<Option<Breach<R>>, Refusal>> for Judged {
    ghost from_gives = { λ answer judged. Found R.converts answer judged };

    fn from(answer: Result<Option<Breach<R>>, Refusal>) -> Judged {
        let refusal = crate::refusal(&answer);
        let (verdict, rule, cycle) = match answer {
            Ok(None) => (CLEAN, 0, 0),
            Ok(Some(Breach { rule, cycle })) => (BROKEN, rule.into(), cycle),
            Err(_) => (NONE, 0, 0),
        };
        Judged {
            refusal,
            verdict,
            rule,
            cycle,
        }
    }
}

// Refused, nothing is counted.
impl From<Result<stream_checker::Checked, Refusal>> for StreamVerdict {
    ghost from_gives = { λ answer verdict. verdict ≡ stream_numbers (writtenStream.written answer) };

    fn from(answer: Result<stream_checker::Checked, Refusal>) -> StreamVerdict {
        let judged = Judged::from(answer.map(|checked| checked.breach));
        StreamVerdict {
            refusal: judged.refusal,
            verdict: judged.verdict,
            rule: judged.rule,
            cycle: judged.cycle,
            handshakes: answer.map_or(0, |checked| checked.handshakes),
            clears: answer.map_or(0, |checked| checked.clears),
        }
    }
}

// Refused, nothing is counted or open.
impl From<Result<mem_checker::Checked, Refusal>> for MemVerdict {
    ghost from_gives = { λ answer verdict. verdict ≡ mem_numbers (writtenMem.written answer) };

    fn from(answer: Result<mem_checker::Checked, Refusal>) -> MemVerdict {
        let judged = Judged::from(answer.map(|checked| checked.breach));
        MemVerdict {
            refusal: judged.refusal,
            verdict: judged.verdict,
            rule: judged.rule,
            cycle: judged.cycle,
            handshakes: answer.map_or(0, |checked| checked.handshakes),
            open: answer.is_ok_and(|checked| checked.open),
        }
    }
}

#[unsafe(no_mangle)]
pub extern "C" fn floealder_check_stream(control: &[u8], data: &[u32], seq: bool) -> StreamVerdict
    ensures { result ≡ stream_numbers (check_stream control.now «data».now seq) }
{
    StreamVerdict::from(stream_checker::check_stream(control, data, seq))
}

#[unsafe(no_mangle)]
pub extern "C" fn floealder_check_mem(
    control: &[u8],
    add: &[u32],
    data: &[u32],
    r_data: &[u32],
) -> MemVerdict
    ensures { result ≡ mem_numbers (check_mem mem control.now add.now (length «data».now) (length r_data.now)) }
{
    MemVerdict::from(mem_checker::check_mem(control, add, data, r_data))
}

// Two calls for the two protocols, by C's names: an exported function has no type parameter.
#[unsafe(no_mangle)]
pub extern "C" fn floealder_check_mem_decoupled(
    control: &[u8],
    add: &[u32],
    data: &[u32],
    r_data: &[u32],
) -> MemVerdict
    ensures { result ≡ mem_numbers (check_mem mem_decoupled control.now add.now (length «data».now) (length r_data.now)) }
{
    MemVerdict::from(mem_checker::check_mem_decoupled(control, add, data, r_data))
}
