// Big-endian 32-bit words in a lent byte buffer: word i is the bytes 4 i to 4 i + 3.
// `get` and `put` ask for a word that lies in the buffer.
#![tactic(auto)]

ghost use Rattle.std.specs.Prelude.{◌≡◌, ◌+◌, ◌*◌, ◌≤◌, length};
ghost use Rattle.basics.specs.Clearing.{cleared};
ghost use Rattle.words.specs.Words.{word_at, put_word};

// Word i. Like `put` it is no entry point: the callers have bounded the index by the buffer they were lent, and show it.
pub fn get(work: &[u8], i: usize) -> u32
    requires { 4 * i + 4 ≤ length work.now }
    ensures { result ≡ word_at work.now i }
{
    let at = 4 * i;
    let a = u32::from(work[at]);
    let b = u32::from(work[at + 1]);
    let c = u32::from(work[at + 2]);
    let d = u32::from(work[at + 3]);
    ((a * 256 + b) * 256 + c) * 256 + d
}

pub fn put(work: &mut [u8], i: usize, v: u32)
    requires { 4 * i + 4 ≤ length work.old }
    ensures { work.new ≡ put_word work.old i v }
{
    let at = 4 * i;
    work[at] = (v / 256 / 256 / 256 % 256) as u8;
    work[at + 1] = (v / 256 / 256 % 256) as u8;
    work[at + 2] = (v / 256 % 256) as u8;
    work[at + 3] = (v % 256) as u8;
}

// Sets the first n bytes to 0, or all of them if there are fewer.
pub fn clear(work: &mut [u8], n: usize)
    ensures { work.new ≡ cleared n work.old }
{
    let end = n.min(work.len());
    work[..end].fill(0);
}
