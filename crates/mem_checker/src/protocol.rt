// What each protocol has for itself: a rule that the other has not, and whether a clean trace may end with a read open.
ghost use Rattle.std.specs.Prelude.{◌≡◌, ℕ, Bool, true, false};
ghost use Rattle.signals.specs.Memory.{Access, access};
ghost use Rattle.mem_checker.specs.declared.watch.Watch.{Watch};
ghost use Rattle.mem_checker.specs.declared.Rule.{Rule};
ghost use Rattle.mem_checker.specs.Rules as ofRules;
ghost use Rattle.mem_checker.specs.Rules.{mem, mem_decoupled};
ghost use Rattle.mem_checker.specs.Step.{breaks_response, breaks_direction};
ghost use Rattle.mem_checker.specs.Laws.{ProtocolLaws, mem_laws, mem_decoupled_laws};

use crate::Rule;
use crate::watch::{Watch, handshake};
use signals::memory::{r_valid, wen};

// A clause names a trait's constant by a ghost member of that name alone, so each of the two constants stands as both; the check proves
// them equal.
pub(crate) trait Protocol {
    // The protocol, as the rules name it.
    ghost named: { ofRules.Protocol };

    // Whether a cycle breaks its own rule, by what the watch keeps of the cycles before.
    ghost breaks: { Watch → Access → Bool };

    ghost RULE: { Rule };

    // Its own rule.
    const RULE: Rule;

    ghost READS_STAY_OPEN: { Bool };

    // Whether a clean trace that ends in a read is open.
    const READS_STAY_OPEN: bool;

    // No address is asked for.
    fn breaks(watch: Watch, control: u8) -> bool
        ensures { (add : ℕ) → result ≡ breaks watch (access control add) };

    // What each `impl` must prove.
    ghost laws: { ProtocolLaws named breaks RULE READS_STAY_OPEN };
}

// HWPE-Mem.
pub(crate) struct Mem;

impl Protocol for Mem {
    ghost named = { mem };

    ghost breaks = { breaks_response };

    ghost RULE = { Rule.Response };

    const RULE: Rule = Rule::Response;

    ghost READS_STAY_OPEN = { true };

    const READS_STAY_OPEN: bool = true;

    ghost laws = { mem_laws };

    // Rule 2: a read handshake stands before this cycle, which has r_valid 0.
    fn breaks(watch: Watch, control: u8) -> bool {
        watch.reading && !r_valid(control)
    }
}

// HWPE-MemDecoupled.
pub(crate) struct MemDecoupled;

impl Protocol for MemDecoupled {
    ghost named = { mem_decoupled };

    ghost breaks = { breaks_direction };

    ghost RULE = { Rule.Direction };

    const RULE: Rule = Rule::Direction;

    ghost READS_STAY_OPEN = { false };

    const READS_STAY_OPEN: bool = false;

    ghost laws = { mem_decoupled_laws };

    // Rule 4: this cycle is a handshake, with another wen than the first.
    fn breaks(watch: Watch, control: u8) -> bool {
        watch
            .direction
            .is_some_and(|first| handshake(control) & (wen(control) != first))
    }
}
