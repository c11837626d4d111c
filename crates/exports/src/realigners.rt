// Packets from words with strobes, and back.
ghost use Rattle.realign.specs.Sink.{Sinks};
ghost use Rattle.realign.specs.Source.{Sources};
ghost use Rattle.exports.specs.Numbers.{InNumbers};
ghost use Rattle.exports.specs.Buffers.{filled_numbers};

use crate::buffers::Filled;

// The packets that words with a plan's strobes hold.
#[unsafe(no_mangle)]
pub extern "C" fn floealder_realign_source(
    address: u32,
    n: u32,
    words: &[u32],
    strobes: &[u8],
    out: &mut [u32],
) -> Filled
    ensures { InNumbers (λ w. Sources address n words.now strobes.now out.old out.new w) filled_numbers result }
{
    Filled::from(realign::realign_source(address, n, words, strobes, out))
}

// The words and strobes of the plan for some packets.
#[unsafe(no_mangle)]
pub extern "C" fn floealder_realign_sink(
    address: u32,
    packets: &[u32],
    out_words: &mut [u32],
    out_strobes: &mut [u8],
) -> Filled
    ensures { InNumbers (λ w. Sinks address packets.now out_words.old out_words.new out_strobes.old out_strobes.new w) filled_numbers result }
{
    Filled::from(realign::realign_sink(address, packets, out_words, out_strobes))
}
