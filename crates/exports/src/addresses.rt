// The calls that answer for addresses by their number.
ghost use Rattle.std.specs.Prelude.{◌≡◌};
ghost use Rattle.address_at.specs.ByNumber.{address_of};
ghost use Rattle.address_at.specs.AddressAt.{answer_of, answer_by};
ghost use Rattle.address_at.specs.Overlap.{Lists};
ghost use Rattle.exports.specs.Numbers.{InNumbers};
ghost use Rattle.exports.specs.Addresses.{address_numbers};
ghost use Rattle.exports.specs.Buffers.{filled_numbers};

use crate::buffers::Filled;
use addressgen::Settings;

// The address of one iteration. Not `Filled`, whose number is of another size and has another name in C.
#[repr(C)]
#[derive(Clone, Copy)]
pub struct AddressAt {
    pub refusal: u8,
    pub address: u32,
}

#[unsafe(no_mangle)]
pub extern "C" fn floealder_address_at(settings: Settings, i: u32) -> AddressAt
    ensures { InNumbers (λ w. answer_of w ≡ answer_by address_of settings i) address_numbers result }
{
    let found = address_at::address_at(settings, i);
    AddressAt {
        refusal: crate::refusal(&found),
        address: found.unwrap_or(0),
    }
}

// The iterations of the first generator that are listed.
#[unsafe(no_mangle)]
pub extern "C" fn floealder_overlap(first: Settings, second: Settings, out: &mut [u32]) -> Filled
    ensures { InNumbers (λ w. Lists address_of first second out.old out.new w) filled_numbers result }
{
    Filled::from(address_at::overlap(first, second, out))
}
