// The checksum of words.
ghost use Rattle.std.specs.Prelude.{◌≡◌, take};
ghost use Rattle.stored_texts.specs.Checksum.{mixed, checksum as checksum'};

const FACTOR: u64 = 257;

// The largest prime below 2 to the 32.
const MODULUS: u64 = 4294967291;

fn mix(sum: u32, word: u32) -> u32
    ensures { result ≡ mixed sum word }
{
    ((u64::from(sum) * FACTOR + u64::from(word)) % MODULUS) as u32
}

#[tactic(auto, using(crate::proofs::Laws::summing_start, crate::proofs::Laws::summing_end))]
fn checksum(words: &[u32]) -> u32
    ensures { result ≡ checksum' words.now }
{
    let mut sum = 0;
    for word in words {
        sum = mix(sum, *word);
    }
    sum
}

// The checksum of the first n words.
pub fn checksum_of(words: &[u32], n: usize) -> u32
    ensures { result ≡ checksum' (take n words.now) }
{
    checksum(&words[..n.min(words.len())])
}
