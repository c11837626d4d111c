// Words moved up by bytes: two shifts, and a carry between neighbouring words.
ghost use Rattle.std.specs.Prelude.{◌≡◌, ◌∷◌, ◌+◌, ◌*◌, ◌-◌, ◌/◌, ◌%◌, ◌^◌, ◌<◌, length};
ghost use Rattle.signals.specs.Sequences.{entries_below};
ghost use Rattle.realign.specs.From.{word_from};

// What a word leaves over when it is moved up by some bits: its uppermost ones. By two shifts, since there is none by 32 bits.
pub(crate) fn left_over(word: u32, bits: u32) -> u32
    requires { bits < 32 }
    ensures uppermost { result ≡ word / 2 ^ (32 - bits) }
    ensures small { result < 2 ^ bits }
{
    (word / 2) >> (31 - bits)
}

// What was left over, and behind it a word that is moved up by as many bits.
fn joined(left: u32, word: u32, bits: u32) -> u32
    requires few { bits < 32 }
    requires small { left < 2 ^ bits }
    ensures { result ≡ (left + word * 2 ^ bits) % 2 ^ 32 }
{
    left + (word << bits)
}

// Writes words moved up by some bytes, behind what the word before them leaves over, and answers what the last one leaves over. The
// carry is the word before, and not what it leaves over, so that this becomes vector code.
pub(crate) fn move_up(before: u32, bytes: u32, words: &[u32], out: &mut [u32]) -> u32
    requires few { bytes < 4 }
    requires room { length out.old ≡ length words.now }
    ensures left_over { result ≡ word_from (4 - bytes) (before ∷ words.now) (length words.now) }
    ensures written { out.new ≡ entries_below (word_from (4 - bytes) (before ∷ words.now)) (length words.now) }
{
    let bits = 8 * bytes;
    let mut previous = before;
    // By index: over `enumerate` this is no vector code, and a proof knows nothing of what a `zip` with `iter_mut` leaves.
    for i in 0..words.len() {
        let word = words[i];
        out[i] = joined(left_over(previous, bits), word, bits);
        previous = word;
    }
    left_over(previous, bits)
}
