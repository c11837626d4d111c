// A stream's monitor, fed in bursts.
ghost use Rattle.std.specs.Prelude.{◌≡◌};
ghost use Rattle.monitor.specs.Record.{fresh};
ghost use Rattle.monitor.specs.Bursts.{fed_by, left_by};
ghost use Rattle.signals.specs.Refusals.{refusal_of};
ghost use Rattle.exports.specs.Numbers.{or_zero};

use monitor::{Monitor, feed};

#[unsafe(no_mangle)]
pub extern "C" fn floealder_monitor_fresh(seq: bool) -> Monitor
    ensures { result ≡ fresh seq }
{
    Monitor::fresh(seq)
}

// The record that is lent becomes the one after the burst; refused, it stays as it was. The answer is the refusal's number, or 0.
#[unsafe(no_mangle)]
pub extern "C" fn floealder_monitor_feed(record: &mut Monitor, control: &[u8], data: &[u32]) -> u8
    ensures { («record».new ≡ left_by «record».old (fed_by «record».old control.now «data».now))
        × (result ≡ or_zero (refusal_of (fed_by «record».old control.now «data».now))) }
{
    crate::refusal(&feed(record, control, data))
}
