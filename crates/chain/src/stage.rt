// One cycle of FIFOs in a row, by value or in memory of a run.
ghost use Rattle.std.specs.Prelude.{◌≡◌, ◌<◌, true, map, length};
ghost use Rattle.signals.specs.Payloads.{legal_strb};
ghost use Rattle.fifo.specs.Queue.{Queue, Value, well, ready};
ghost use Rattle.fifo.specs.Promises.{value};
ghost use Rattle.chain.specs.Calls.{is_well, queues};
ghost use Rattle.chain.specs.Promises.{line_of};
ghost use Rattle.chain.specs.Cycling.{HandsOn, Shows};

use fifo::Fifo;
use signals::Cycle;

// A FIFO of a row, however its slots are kept.
pub(crate) trait Stage {
    ghost value_of: { Self → Value };

    // Whether one that has its form is ready to what stands before it.
    fn is_ready(&self) -> bool
        ensures { (q : Queue) → value_of self.now ≡ well q → result ≡ ready q };

    // One cycle of one that has its form. What it shows is handed on in place of what was offered. That strobes are legal stands in the
    // clauses: a type for it would be a second `Cycle`, made anew at each turn of the walk.
    fn step(&mut self, cycle: Cycle) -> Cycle
        ensures { (q : Queue) → value_of self.old ≡ well q → legal_strb cycle.payload ≡ true → HandsOn q cycle (value_of self.new) result };
}

// Each of the two kinds has its own match on the answer: by one function for both, which is handed the answer, a run took a fifth longer.
impl Stage for Fifo {
    ghost value_of = { value };

    fn is_ready(&self) -> bool {
        Fifo::is_ready(*self)
    }

    fn step(&mut self, cycle: Cycle) -> Cycle {
        match self.step_trusted(cycle) {
            Ok(stepped) => {
                *self = stepped.next;
                Cycle {
                    valid: stepped.valid,
                    payload: stepped.payload,
                    ..cycle
                }
            }
            Err(_) => cycle,
        }
    }
}

// The walk goes from the mouth to the outlet: a FIFO is offered what the one before it showed, and its sink is the one behind it as it
// was, since the walk has not come to it yet; so the walk goes by index. A clear goes to each. What the last shows is handed on.
pub(crate) fn walk<S: Stage>(stages: &mut [S], cycle: Cycle) -> Cycle
    requires some { 0 < length stages.old }
    requires stages_value { is_well (line_of (map S.value_of stages.old)) ≡ true }
    requires payload_value { legal_strb cycle.payload ≡ true }
    ensures { Shows (queues (line_of (map S.value_of stages.old))) cycle (line_of (map S.value_of stages.new)) result }
{
    let mut shown = cycle;
    for j in 0..stages.len() {
        let sink = if j + 1 < stages.len() {
            stages[j + 1].is_ready()
        } else {
            cycle.sink
        };
        shown = stages[j].step(Cycle { sink, ..shown });
    }
    Cycle {
        sink: cycle.sink,
        ..shown
    }
}
