// The sum of a block.
ghost use Rattle.std.specs.Prelude.{◌≡◌, ◌%◌};
ghost use Rattle.floors.specs.Bytes.{word_sum};

// The remainder by 65,536 of the sum of the 16-bit words of some bytes, each of a low byte and then a high one. A single byte at the end counts as a low byte.
#[tactic(auto, using(crate::proofs::WordSums::words_of))]
pub fn sum_of_words(bytes: &[u8]) -> u16
    ensures { result ≡ word_sum bytes.now % 65536 }
{
    let (words, rest) = bytes.as_chunks::<2>();
    let mut sum = 0u16;
    for word in words {
        sum = sum.wrapping_add(u16::from_le_bytes(*word));
    }
    if let [last] = rest {
        sum = sum.wrapping_add(u16::from(*last));
    }
    sum
}
