// The loop that judges a trace, for any protocol.
ghost use Rattle.std.specs.Prelude.{◌≡◌, ◌≤◌, length, Ok};
ghost use Rattle.signals.specs.Refusals.{max_cycles};
ghost use Rattle.signals.specs.Memory.{access_at};
ghost use Rattle.mem_checker.specs.Written.{written};
ghost use Rattle.mem_checker.specs.Step.{unrefused, broken_at};

use crate::protocol::Protocol;
use crate::watch::{Watch, breaks_align};
use crate::{Checked, Rule};
use signals::Breach;

// The verdict on a trace of legal length, which stops at the first breach.
pub(crate) fn judge<P: Protocol>(control: &[u8], add: &[u32]) -> Checked
    requires same { length add.now ≡ length control.now }
    requires short { length control.now ≤ max_cycles }
    ensures { written (Ok result) ≡ unrefused P.named (access_at control.now add.now) (length control.now) }
{
    let mut watch = Watch::start();
    for (cycle, (control, add)) in control.iter().zip(add).enumerate() {
        if P::breaks(watch, *control) {
            return broken(P::RULE, cycle as u32, watch.handshakes);
        }
        if breaks_align(*control, *add) {
            return broken(Rule::Align, cycle as u32, watch.handshakes);
        }
        watch = watch.next(*control);
    }
    Checked {
        breach: None,
        handshakes: watch.handshakes,
        open: P::READS_STAY_OPEN & watch.reading,
    }
}

fn broken(rule: Rule, cycle: u32, handshakes: u32) -> Checked
    ensures { result ≡ broken_at rule cycle handshakes }
{
    Checked {
        breach: Some(Breach { rule, cycle }),
        handshakes,
        open: false,
    }
}
