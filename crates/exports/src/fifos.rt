// A FIFO, document 01's stage, and a chain of FIFOs, its line.
ghost use Rattle.std.specs.Prelude.{◌≡◌};
ghost use Rattle.fifo.specs.Queue.{is_well};
ghost use Rattle.fifo.specs.Promises.{value, Steps};
ghost use Rattle.chain.specs.Promises.{Promised, step_done, run_done, Times};
ghost use Rattle.exports.specs.Numbers.{InNumbers};
ghost use Rattle.exports.specs.Fifos.{NewFifo, step_numbers};
ghost use Rattle.exports.specs.Chains as chains;
ghost use Rattle.exports.specs.Chains.{NewChain, run_numbers, time_numbers};

use chain::Chain;
use fifo::{Fifo, Place};
use signals::{Cycle, Payload, ZEROS};

// A FIFO at a place.
#[repr(C)]
#[derive(Clone, Copy)]
pub struct FifoNew {
    pub refusal: u8,
    pub fifo: Fifo,
}

// What a step shows, and the FIFO after it.
#[repr(C)]
#[derive(Clone, Copy)]
pub struct FifoStep {
    pub refusal: u8,
    pub ready: bool,
    pub valid: bool,
    pub payload: Payload,
    pub next: Fifo,
}

// A chain at its places. No struct for this and `FifoNew`: one that is handed to C has no type parameter.
#[repr(C)]
#[derive(Clone, Copy)]
pub struct ChainNew {
    pub refusal: u8,
    pub chain: Chain,
}

// What a step shows, and the chain after it. No struct for this and `FifoStep`, for the same reason.
#[repr(C)]
#[derive(Clone, Copy)]
pub struct ChainStep {
    pub refusal: u8,
    pub ready: bool,
    pub valid: bool,
    pub payload: Payload,
    pub next: Chain,
}

// The chain after a run: `ChainNew` but for the name that C reads.
#[repr(C)]
#[derive(Clone, Copy)]
pub struct ChainRun {
    pub refusal: u8,
    pub next: Chain,
}

// After how many cycles a payload is delivered. A number beside a refusal, as `Filled` and `AddressAt` are, by the name that C reads.
#[repr(C)]
#[derive(Clone, Copy)]
pub struct ChainDeliveryTime {
    pub refusal: u8,
    pub cycles: usize,
}

#[unsafe(no_mangle)]
pub extern "C" fn floealder_fifo_new(place: Place) -> FifoNew
    ensures { NewFifo place result }
{
    let made = Fifo::new(place);
    FifoNew {
        refusal: crate::refusal(&made),
        fifo: made.unwrap_or(Fifo::smallest()),
    }
}

// Both steps, this one and a chain's, take a cycle by its four parts, as C calls them: with a struct of these it would be another call.
//
// Both match: `unwrap_or` would copy the state once more, and a chain's step would take a quarter longer.
#[unsafe(no_mangle)]
pub extern "C" fn floealder_fifo_step(
    fifo: Fifo,
    valid: bool,
    payload: Payload,
    sink: bool,
    clear: bool,
) -> FifoStep
    ensures { InNumbers (λ w. Steps value fifo valid payload sink clear w) (step_numbers fifo) result }
{
    let answer = fifo.step(Cycle {
        valid,
        payload,
        sink,
        clear,
    });
    let refusal = crate::refusal(&answer);
    match answer {
        Ok(shown) => FifoStep {
            refusal,
            ready: shown.ready,
            valid: shown.valid,
            payload: shown.payload,
            next: shown.next,
        },
        Err(_) => FifoStep {
            refusal,
            ready: false,
            valid: false,
            payload: ZEROS,
            next: fifo,
        },
    }
}

#[unsafe(no_mangle)]
pub extern "C" fn floealder_fifo_is_well(fifo: Fifo) -> bool
    ensures { result ≡ is_well (value fifo) }
{
    fifo.is_well()
}

#[unsafe(no_mangle)]
pub extern "C" fn floealder_chain_new(places: &[Place]) -> ChainNew
    ensures { NewChain places.now result }
{
    let made = Chain::new(places);
    ChainNew {
        refusal: crate::refusal(&made),
        chain: made.unwrap_or(Chain::shortest()),
    }
}

#[unsafe(no_mangle)]
pub extern "C" fn floealder_chain_step(
    chain: Chain,
    valid: bool,
    payload: Payload,
    sink: bool,
    clear: bool,
) -> ChainStep
    ensures { InNumbers (λ w. Promised chain (step_done chain (record { valid = valid; payload = payload; sink = sink; clear = clear }) w)) (chains.step_numbers chain) result }
{
    let answer = chain.step(Cycle {
        valid,
        payload,
        sink,
        clear,
    });
    let refusal = crate::refusal(&answer);
    match answer {
        Ok(shown) => ChainStep {
            refusal,
            ready: shown.ready,
            valid: shown.valid,
            payload: shown.payload,
            next: shown.next,
        },
        Err(_) => ChainStep {
            refusal,
            ready: false,
            valid: false,
            payload: ZEROS,
            next: chain,
        },
    }
}

#[unsafe(no_mangle)]
pub extern "C" fn floealder_chain_run(
    chain: Chain,
    control: &[u8],
    data: &[u32],
    sink: &[u8],
    out_control: &mut [u8],
    out_data: &mut [u32],
) -> ChainRun
    ensures { InNumbers (λ w. Promised chain (run_done chain control.now «data».now sink.now out_control.old out_data.old w out_control.new out_data.new)) (run_numbers chain) result }
{
    let ran = chain.run(control, data, sink, out_control, out_data);
    ChainRun {
        refusal: crate::refusal(&ran),
        next: ran.unwrap_or(chain),
    }
}

#[unsafe(no_mangle)]
pub extern "C" fn floealder_chain_delivery_time(chain: Chain, i: usize) -> ChainDeliveryTime
    ensures { InNumbers (λ w. Times chain i w) time_numbers result }
{
    let time = chain.delivery_time(i);
    ChainDeliveryTime {
        refusal: crate::refusal(&time),
        cycles: time.unwrap_or(0),
    }
}
