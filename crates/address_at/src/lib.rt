// The address of any iteration of the generator straight from its settings, and the addresses that two generators share.
//
// Writes out request T-14, over the settings of `addressgen`.
#![tactic(auto)]

mod legal; // legal.rt: settings that are not refused
mod listing; // listing.rt: the iterations whose address is among others
mod number; // number.rt: the address by quotients and remainders

ghost use Rattle.std.specs.Prelude.{◌≡◌};
ghost use Rattle.address_at.specs.ByNumber.{address_of};
ghost use Rattle.address_at.specs.AddressAt as ofAddress;
ghost use Rattle.address_at.specs.Overlap as ofOverlap;

use addressgen::Settings;
use legal::Legal;
use signals::Refusal;

// How many iterations each generator may have whose addresses are compared.
pub const MAX_ITERATIONS: usize = 4096;

// The address of iteration i, counted from 0.
pub fn address_at(settings: Settings, i: u32) -> Result<u32, Refusal>
    ensures { ofAddress.answer_of result ≡ ofAddress.answer_by address_of settings i }
{
    let legal = Legal::new(settings)?;
    if settings.total <= i {
        return Err(Refusal::OutOfRange);
    }
    Ok(legal.address(i))
}

// Lists, in rising order, the iterations of the first generator whose address the second also yields, and answers how many there are.
pub fn overlap(first: Settings, second: Settings, out: &mut [u32]) -> Result<usize, Refusal>
    ensures { ofOverlap.Lists address_of first second out.old out.new result }
{
    let total = second.total as usize;
    if first.total as usize > MAX_ITERATIONS || total > MAX_ITERATIONS {
        return Err(Refusal::TooLong);
    }
    let first = Legal::new(first)?;
    let second = Legal::new(second)?;
    if out.len() < first.settings.total as usize {
        return Err(Refusal::OutputTooShort);
    }
    // Room for the most, since nothing here takes memory from a heap.
    let mut room = [0; MAX_ITERATIONS];
    let others = &mut room[..total];
    second.write_all(others);
    Ok(first.list(others, out))
}
