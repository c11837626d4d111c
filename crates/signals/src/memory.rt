// The fields of a memory trace's control byte that are judged.
//
// Each reader is one expression, as its definition is: one over the bit's place would be no plainer.
ghost use Rattle.std.specs.Prelude.{◌≡◌};
ghost use Rattle.signals.specs.Memory.{req_bit, gnt_bit, wen_bit, r_valid_bit};

pub fn req(control: u8) -> bool
    ensures { result ≡ req_bit control }
{
    control % 2 == 1
}

pub fn gnt(control: u8) -> bool
    ensures { result ≡ gnt_bit control }
{
    control / 2 % 2 == 1
}

// Write enable, active low: 1 is a read.
pub fn wen(control: u8) -> bool
    ensures { result ≡ wen_bit control }
{
    control / 4 % 2 == 1
}

pub fn r_valid(control: u8) -> bool
    ensures { result ≡ r_valid_bit control }
{
    control / 8 % 2 == 1
}
