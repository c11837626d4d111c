// A run over a trace: whether it is refused, and then cycle by cycle.
ghost use Rattle.std.specs.Prelude.{◌≡◌, true, ◌||◌, ◌≤◌, ◌<◌, length, ltb};
ghost use Rattle.signals.specs.Payloads.{max_strb, legal_strb};
ghost use Rattle.signals.specs.Refusals.{refusal_of, any_of};
ghost use Rattle.signals.specs.Stream.{reserved_bit};
ghost use Rattle.signals.specs.Tables.{first_applying};
ghost use Rattle.chain.specs.Calls.{is_well, queues, byte_of, run_grounds};
ghost use Rattle.chain.specs.Promises.{value};
ghost use Rattle.chain.specs.Cycling.{recorded_at, Sized, Traced};

use super::Chain;
use super::laid::UNUSED;
use super::stage::walk;
use places::MAX_FIFOS;
use signals::{Cycle, MAX_CYCLES, Refusal, stream};

// The control byte that records what is shown, with the sink's ready and clear; its reserved bit is 0.
fn control_byte(shown: Cycle) -> u8
    requires { shown.payload.strb ≤ max_strb }
    ensures { result ≡ byte_of shown.valid shown.sink shown.clear shown.payload.strb }
{
    u8::from(shown.valid)
        + 2 * u8::from(shown.sink)
        + 4 * u8::from(shown.clear)
        + 16 * shown.payload.strb
}

// What a run reads, cycle by cycle: the recorded offer, which may be a clear, and the sink's readies.
#[derive(Clone, Copy)]
pub(crate) struct Trace<'a> {
    pub(crate) control: &'a [u8],
    pub(crate) data: &'a [u32],
    pub(crate) sink: &'a [u8],
}

impl Trace<'_> {
    // What one entry of each records.
    fn cycle(self, i: usize) -> Cycle
        requires control_in { i < length self.control.now }
        requires data_in { i < length self.«data».now }
        requires sink_in { i < length self.sink.now }
        ensures value { result ≡ recorded_at self.entry.control.now self.entry.«data».now self.entry.sink.now i }
        ensures legal { legal_strb result.payload ≡ true }
    {
        let control = self.control[i];
        Cycle {
            valid: stream::valid(control),
            payload: stream::payload(control, self.data[i]),
            sink: self.sink[i] == 1,
            clear: stream::clear(control),
        }
    }

    // Whether a control byte has its reserved bit set, or the sink's ready is neither 0 nor 1.
    fn has_illegal_bits(self) -> bool
        ensures { result ≡ (any_of reserved_bit self.entry.control.now || any_of (λ s. ltb 1 s) self.entry.sink.now) }
    {
        stream::any_reserved(self.control) || self.sink.iter().any(|ready| 1 < *ready)
    }
}

impl Chain {
    // The refusals 1, 3, 6, 2 and 7 of a run, in this order. What the outputs hold is not looked at. They go apart, and no struct holds
    // both: they are lent to be looked at here and to be written in `traced`, so that it would take two.
    pub(crate) fn refusal(
        &self,
        trace: Trace,
        out_control: &[u8],
        out_data: &[u32],
    ) -> Result<(), Refusal>
        ensures { refusal_of result ≡ first_applying (run_grounds (is_well (value self.now)) trace.entry.control.now trace.entry.«data».now trace.entry.sink.now out_control.now out_data.now) }
    {
        let cycles = trace.control.len();
        if trace.data.len() != cycles || trace.sink.len() != cycles {
            return Err(Refusal::LengthsDiffer);
        }
        if MAX_CYCLES < cycles {
            return Err(Refusal::TooLong);
        }
        if !self.is_well() {
            return Err(Refusal::BadState);
        }
        if trace.has_illegal_bits() {
            return Err(Refusal::IllegalBits);
        }
        if out_control.len() < cycles || out_data.len() < cycles {
            return Err(Refusal::OutputTooShort);
        }
        Ok(())
    }

    // The cycles of a run that is not refused, in memory of its own.
    pub(crate) fn traced(
        mut self,
        trace: Trace,
        out_control: &mut [u8],
        out_data: &mut [u32],
    ) -> Chain
        requires self_value { is_well (value self) ≡ true }
        requires sized { Sized trace.control.now trace.«data».now trace.sink.now out_control.old out_data.old }
        ensures { Traced (queues (value self)) trace.entry.control.now trace.entry.«data».now trace.entry.sink.now out_control.old out_data.old out_control.new out_data.new (value result) }
    {
        let mut parts = [UNUSED; MAX_FIFOS];
        self.lay_out(&mut parts);
        // By index, since the outputs are longer than the trace or as long, and the prover does not know what `iter_mut` in a `zip` leaves.
        for i in 0..trace.control.len() {
            let shown = walk(&mut parts[..self.count], trace.cycle(i));
            out_control[i] = control_byte(shown);
            out_data[i] = shown.payload.data;
        }
        self.gather(&parts);
        self
    }
}
