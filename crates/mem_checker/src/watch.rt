// What the rules remember of the cycles before, the step over one cycle more, and the rule that both protocols have.
ghost use Rattle.std.specs.Prelude.{◌≡◌, ◌<◌};
ghost use Rattle.signals.specs.Refusals.{max_cycles};
ghost use Rattle.signals.specs.Memory.{access, granted};
ghost use Rattle.mem_checker.specs.Rules.{breaks_align};
ghost use Rattle.mem_checker.specs.Step.{start, next};

use signals::memory::{gnt, req, wen};

#[derive(Clone, Copy)]
pub(crate) struct Watch {
    // The cycle before was a read handshake.
    pub(crate) reading: bool,
    // The wen of the first handshake, if there was one.
    pub(crate) direction: Option<bool>,
    pub(crate) handshakes: u32,
}

impl Watch {
    // No read is to be answered, and there was no handshake.
    pub(crate) fn start() -> Watch
        ensures { result ≡ start }
    {
        Watch {
            reading: false,
            direction: None,
            handshakes: 0,
        }
    }

    // The watch after a cycle more.
    pub(crate) fn next(self, control: u8) -> Watch
        requires { self.handshakes < max_cycles }
        ensures { result ≡ next self (access control 0) }
    {
        if handshake(control) {
            return Watch {
                reading: wen(control),
                direction: Some(self.direction.unwrap_or(wen(control))),
                handshakes: self.handshakes + 1,
            };
        }
        Watch {
            reading: false,
            ..self
        }
    }
}

pub(crate) fn handshake(control: u8) -> bool
    ensures { result ≡ granted (access control 0) }
{
    req(control) & gnt(control)
}

// Whether a cycle breaks rule align, which both protocols have.
pub(crate) fn breaks_align(control: u8, add: u32) -> bool
    ensures { result ≡ breaks_align (access control add) }
{
    req(control) & (add % 4 != 0)
}
