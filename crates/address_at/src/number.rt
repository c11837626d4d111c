// The address of an iteration by quotients and remainders: no loop.
ghost use Rattle.std.specs.Prelude.{◌≡◌, ◌+◌, ◌*◌, ◌%◌, ◌^◌};
ghost use Rattle.address_at.specs.ByNumber.{address_of};

use crate::legal::Legal;

// An address and so many steps of a stride on from it, modulo 2^32.
fn steps_on(address: u32, steps: u32, stride: u32) -> u32
    ensures { result ≡ (address + steps * stride) % 2 ^ 32 }
{
    address.wrapping_add(steps.wrapping_mul(stride))
}

impl Legal {
    // The address of iteration i. The number of its plane is that of its line by d1, so that no product of lengths is needed.
    pub(crate) fn address(self, i: u32) -> u32
        ensures { result ≡ address_of self.settings i }
    {
        let settings = self.settings;
        if !settings.bit0() {
            return steps_on(settings.base, i, settings.s0);
        }
        let along0 = steps_on(settings.base, i % settings.d0, settings.s0);
        let line = i / settings.d0;
        if !settings.bit1() {
            return steps_on(along0, line, settings.s1);
        }
        let along1 = steps_on(along0, line % settings.d1, settings.s1);
        steps_on(along1, line / settings.d1, settings.s2)
    }
}
