// The calls that fill a lent buffer.
ghost use Rattle.std.specs.Prelude.{◌≡◌, ◌++◌, ◌≤◌, length, drop};
ghost use Rattle.addressgen.specs.Stepping.{start};
ghost use Rattle.addressgen.specs.Run.{Generated};
ghost use Rattle.strbgen.specs.Plan.{Planned};
ghost use Rattle.bench_text.specs.Report.{Reports};
ghost use Rattle.exports.specs.Numbers.{InNumbers};
ghost use Rattle.exports.specs.Buffers.{filled_numbers, run_numbers, HandedOn};

use addressgen::{Ran, Settings, State};
use signals::Refusal;

// How many entries were written.
#[repr(C)]
#[derive(Clone, Copy)]
pub struct Filled {
    pub refusal: u8,
    pub count: usize,
}

// Refused, none were.
impl From<Result<usize, Refusal>> for Filled {
    ghost from_gives = { λ answer filled. filled ≡ filled_numbers answer };

    fn from(answer: Result<usize, Refusal>) -> Filled {
        Filled {
            refusal: crate::refusal(&answer),
            count: answer.unwrap_or(0),
        }
    }
}

// A run's iterations, the state after them, and whether that is the end: `Ran` with a refusal, flat, as C reads it.
#[repr(C)]
#[derive(Clone, Copy)]
pub struct AddressRun {
    pub refusal: u8,
    pub count: usize,
    pub state: State,
    pub done: bool,
}

// Copies bytes to the start of a buffer that has room for them. By index and not by `copy_from_slice`, which is a `memmove` between two
// lent slices: the library needs that name from outside for nothing else.
fn copy(bytes: &[u8], out: &mut [u8])
    requires { length bytes.now ≤ length out.old }
    ensures { out.new ≡ bytes.now ++ drop (length bytes.now) out.old }
{
    for (i, byte) in bytes.iter().enumerate() {
        out[i] = *byte;
    }
}

// The length of the part. An exported function returns no reference, so the part is copied; one that does not fit is refused.
#[unsafe(no_mangle)]
pub extern "C" fn floealder_mux_static<'a>(
    t0: &'a [u8],
    t1: &'a [u8],
    select: u8,
    first: usize,
    count: usize,
    out: &mut [u8],
) -> Filled
    ensures { HandedOn t0.entry t1.entry select first count out.old out.new result }
{
    if out.len() < count {
        return Filled::from(Err(Refusal::OutputTooShort));
    }
    let part = mux::mux_static(t0, t1, select, first, count);
    // The empty part is the mux's refusal (`part_at`).
    if part.is_empty() {
        return Filled::from(Err(Refusal::OutOfRange));
    }
    copy(part, out);
    Filled::from(Ok(count))
}

// The generator's state before its first iteration.
#[unsafe(no_mangle)]
pub extern "C" fn floealder_addressgen_start() -> State
    ensures { result ≡ start }
{
    State::start()
}

// Refused, the state is as it was given.
#[unsafe(no_mangle)]
pub extern "C" fn floealder_addressgen_run(
    settings: Settings,
    state: State,
    n: usize,
    out: &mut [u32],
) -> AddressRun
    ensures { InNumbers (λ w. Generated settings state n out.old out.new w) (run_numbers state) result }
{
    let answer = addressgen::run(settings, state, n, out);
    let ran = answer.unwrap_or(Ran {
        count: 0,
        state,
        done: false,
    });
    AddressRun {
        refusal: crate::refusal(&answer),
        count: ran.count,
        state: ran.state,
        done: ran.done,
    }
}

// The words of the plan.
#[unsafe(no_mangle)]
pub extern "C" fn floealder_strobe_plan(address: u32, n: u32, out: &mut [u8]) -> Filled
    ensures { InNumbers (λ w. Planned address n out.old out.new w) filled_numbers result }
{
    Filled::from(strbgen::strobe_plan(address, n, out))
}

// The bytes of the report.
#[unsafe(no_mangle)]
pub extern "C" fn floealder_report(text: &[u8], out: &mut [u8]) -> Filled
    ensures { InNumbers (λ w. Reports text.now out.old w out.new) filled_numbers result }
{
    Filled::from(bench_text::report(text, out))
}
