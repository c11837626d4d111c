// The checkers of HWPE-Mem and HWPE-MemDecoupled traces: which cycle broke a rule first, and which rule.
//
// Writes out "Memory rules" of document 01. They are document 01's judges of memory traces.
#![tactic(auto)]

mod watch; // watch.rt: what the rules remember of the cycles before
mod protocol; // protocol.rt: what each protocol has for itself
mod cycles; // cycles.rt: the loop that judges a trace, for any protocol

ghost use Rattle.std.specs.Prelude.{◌≡◌, length};
ghost use Rattle.signals.specs.Numbers.{rule_number};
ghost use Rattle.mem_checker.specs.Rules.{mem, mem_decoupled};
ghost use Rattle.mem_checker.specs.Verdicts.{check_mem};
ghost use Rattle.mem_checker.specs.Written.{rule_name, written};

use protocol::{Mem, MemDecoupled, Protocol};
use signals::{ALIGN, Breach, MAX_CYCLES, Refusal};

// The rules, by what each is about. `specs/Written.antt` gives each its name in document 01.
#[derive(Clone, Copy, Debug, PartialEq, Eq)]
pub enum Rule {
    // HWPE-Mem rule 2: a read is answered in the next cycle.
    Response,
    // HWPE-MemDecoupled rule 4: reads and writes are not mixed.
    Direction,
    // Rule align: a request's address is a multiple of 4.
    Align,
}

// The rule's number where a call answers no enum.
impl From<Rule> for u8 {
    ghost from_gives = { λ rule number. number ≡ rule_number (rule_name rule) };

    fn from(rule: Rule) -> u8 {
        match rule {
            Rule::Response => 2,
            Rule::Direction => 4,
            Rule::Align => ALIGN,
        }
    }
}

// The first breach, if there is one, with the handshakes before its cycle, or in all cycles when clean, and whether a read is still open. A
// struct of its own: the stream checker's has clear cycles in place of that.
#[derive(Clone, Copy)]
pub struct Checked {
    pub breach: Option<Breach<Rule>>,
    pub handshakes: u32,
    pub open: bool,
}

// The verdict on an HWPE-Mem trace, for any four sequences: side by side, as the C interface lends them. This call and the next are public
// by their names, so that the generic one stays private with its trait.
pub fn check_mem(
    control: &[u8],
    add: &[u32],
    data: &[u32],
    r_data: &[u32],
) -> Result<Checked, Refusal>
    ensures { written result ≡ check_mem mem control.now add.now (length «data».now) (length r_data.now) }
{
    check::<Mem>(control, add, data, r_data)
}

// The verdict on an HWPE-MemDecoupled trace, for any four sequences.
pub fn check_mem_decoupled(
    control: &[u8],
    add: &[u32],
    data: &[u32],
    r_data: &[u32],
) -> Result<Checked, Refusal>
    ensures { written result ≡ check_mem mem_decoupled control.now add.now (length «data».now) (length r_data.now) }
{
    check::<MemDecoupled>(control, add, data, r_data)
}

// The refusals 1 and 3, then the verdict. Of `data` and `r_data` only the lengths count.
#[tactic(auto, unfolding(crate::specs::Verdicts::check_mem))]
fn check<P: Protocol>(
    control: &[u8],
    add: &[u32],
    data: &[u32],
    r_data: &[u32],
) -> Result<Checked, Refusal>
    ensures { written result ≡ check_mem P.named control.now add.now (length «data».now) (length r_data.now) }
{
    let cycles = control.len();
    if (add.len() != cycles) || (data.len() != cycles) || (r_data.len() != cycles) {
        return Err(Refusal::LengthsDiffer);
    }
    if cycles > MAX_CYCLES {
        return Err(Refusal::TooLong);
    }
    Ok(cycles::judge::<P>(control, add))
}
