// Recordings: header, format and letters (document 01, 'Recordings' and refusal 20).
#![tactic(auto)]

ghost use Rattle.std.specs.Prelude.{◌≡◌, ◌+◌, ◌*◌, ◌-◌, ◌≤◌, ◌<◌, ◌^◌, length};
ghost use Rattle.node.specs.Answer.{says};
ghost use Rattle.recordings.specs.Limits.{max_positions, signal_bits, header_bytes, header_bits, limits as limits'};
ghost use Rattle.recordings.specs.Recording.{field_at, lasso_of, letter_of, header_fits, blank as blank', filled, readable, counted};
ghost use Rattle.recordings.specs.Lasso.{next};
ghost use Rattle.recordings.specs.Promise.{Recorded};

use basics::told;
use bits::get_bit;
use node::refusals::BAD_RECORDING;
use node::{Answer, Refusal};

// A recording has 1 to 2,048 positions.
pub const MAX_POSITIONS: usize = 2048;

// The evaluator takes a signal count of at most 255: the format's limit, as counts are told.
pub const MAX_SIGNALS: u32 = node::MAX_SIGNALS as u32;

// A recording's positions N, loop start L and signal count K.
#[derive(Clone, Copy)]
pub struct Lasso {
    pub n: usize,
    pub l: usize,
    pub k: usize,
}

// The fields of the header, in bits: positions, loop start, signal count.
pub const POSITION_BITS: usize = 12;

pub const START_BITS: usize = 12;

pub const SIGNAL_BITS: usize = 8;

pub const HEADER_BITS: usize = POSITION_BITS + START_BITS + SIGNAL_BITS;

pub const HEADER_BYTES: usize = HEADER_BITS / 8;

// The longest recording.
pub const LONGEST: usize = HEADER_BYTES + (MAX_POSITIONS * node::MAX_SIGNALS + 7) / 8;

// The constants in the order of specs/Limits: what they stand for.
pub fn limits() -> [usize; 8]
    ensures { result ≡ limits' }
{
    [
        MAX_POSITIONS,
        MAX_SIGNALS as usize,
        POSITION_BITS,
        START_BITS,
        SIGNAL_BITS,
        HEADER_BITS,
        HEADER_BYTES,
        LONGEST,
    ]
}

// The number in some bits.
fn field(bytes: &[u8], at: usize, count: usize) -> u32
    requires { (at + count ≤ 8 * length bytes.now) × ((at ≤ header_bits) × (count ≤ 16)) }
    ensures { result ≡ field_at bytes.now at count }
{
    let mut v: u32 = 0;
    for i in 0..count {
        let b = get_bit(bytes, at + i);
        v = v * 2 + u32::from(b);
    }
    v
}

// The header.
pub fn read_lasso(recording: &[u8]) -> Lasso
    requires { header_bytes ≤ length recording.now }
    ensures { result ≡ lasso_of recording.now }
{
    let n = field(recording, 0, POSITION_BITS) as usize;
    let l = field(recording, POSITION_BITS, START_BITS) as usize;
    let k = field(recording, POSITION_BITS + START_BITS, SIGNAL_BITS) as usize;
    Lasso { n, l, k }
}

fn header_fits(lasso: Lasso, signals: u32) -> bool
    ensures { result ≡ header_fits signals lasso }
{
    let known = signals as usize;
    0 < lasso.n && (lasso.n <= MAX_POSITIONS && (lasso.l < lasso.n && lasso.k <= known))
}

// Are the bits from `from` to before `to` all 0?
fn blank(bytes: &[u8], from: usize, to: usize) -> bool
    requires { (to ≤ 8 * length bytes.now) × (to < 2 ^ 32) }
    ensures { result ≡ blank' bytes.now from (to - from) }
{
    for i in from..to {
        if get_bit(bytes, i) {
            return false;
        }
    }
    true
}

// Do the letters, and zero bits to a full byte, make up the rest of the recording?
fn check_letters(recording: &[u8], lasso: Lasso) -> Answer
    requires { (lasso.n ≤ max_positions) × (lasso.k < 2 ^ signal_bits) }
    ensures { says result ≡ filled recording.now lasso (counted lasso) }
{
    let len = recording.len();
    let bits = lasso.n * lasso.k;
    if len != HEADER_BYTES + (bits + 7) / 8 {
        return Err(Refusal {
            number: BAD_RECORDING,
            place: told(len),
        });
    }
    if !blank(recording, HEADER_BITS + bits, 8 * len) {
        return Err(Refusal {
            number: BAD_RECORDING,
            place: (len - 1) as u32,
        });
    }
    Ok((lasso.n as u32, lasso.k as u32))
}

// Is the recording one of the format, for so many signals? Accepted with its numbers of positions and signals.
pub fn check_recording(recording: &[u8], signals: u32) -> Answer
    ensures { says result ≡ readable signals recording.now (counted (lasso_of recording.now)) }
{
    let len = recording.len();
    if len < HEADER_BYTES {
        return Err(Refusal {
            number: BAD_RECORDING,
            place: len as u32,
        });
    }
    let lasso = read_lasso(recording);
    if !header_fits(lasso, signals) {
        return Err(Refusal {
            number: BAD_RECORDING,
            place: 0,
        });
    }
    check_letters(recording, lasso)
}

// The position after p.
pub fn after(lasso: Lasso, p: usize) -> usize
    requires { p < max_positions }
    ensures { result ≡ next lasso.n lasso.l p }
{
    let n = lasso.n;
    if p + 1 < n { p + 1 } else { lasso.l }
}

// Is the signal present at position p?
pub fn letter(recording: &[u8], lasso: Lasso, p: usize, signal: usize) -> bool
    requires { Recorded recording.now lasso × (p < lasso.n) }
    ensures { result ≡ letter_of recording.now lasso.k p signal }
{
    let count = lasso.k;
    if signal < count {
        return get_bit(recording, HEADER_BITS + (p * count + signal));
    }
    false
}
