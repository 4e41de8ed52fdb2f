// Spans: one bit, eight or 64 of some bytes as one number, most significant first, and a pass backwards over the values of a span.
ghost use Rattle.std.specs.Prelude.{◌≡◌, ◌+◌, ◌-◌, ◌/◌, ◌%◌, ◌^◌, ◌<◌, ◌≤◌, length};
ghost use Rattle.words.specs.Words.{read_at, write_at};
ghost use Rattle.bits.specs.Bits.{bit_at};
ghost use Rattle.bits.specs.Ripple.{ripple as ripple'};
ghost use Rattle.bits.specs.Spans.{Span, Within, Stored, ahead as ahead'};

use crate::{get_bit, set_bit};

// All 64 bits.
pub const ONES: u64 = 18446744073709551615;

// The highest of them.
const HIGH: u64 = 9223372036854775808;

pub fn load_byte(bytes: &[u8], at: usize) -> u64
    requires { at + 1 ≤ length bytes.now }
    ensures { result ≡ read_at bytes.now at 1 }
{
    u64::from(bytes[at])
}

// Eight bytes as one word.
pub fn load_word(bytes: &[u8], at: usize) -> u64
    requires { at + 8 ≤ length bytes.now }
    ensures { result ≡ read_at bytes.now at 8 }
{
    u64::from_be_bytes([
        bytes[at],
        bytes[at + 1],
        bytes[at + 2],
        bytes[at + 3],
        bytes[at + 4],
        bytes[at + 5],
        bytes[at + 6],
        bytes[at + 7],
    ])
}

pub fn store_byte(bytes: &mut [u8], at: usize, v: u64)
    requires { at + 1 ≤ length bytes.old }
    ensures { bytes.new ≡ write_at bytes.old at 1 v }
{
    bytes[at] = (v % 256) as u8;
}

// A word into eight bytes, as `write_at` has them: by quotients, where `to_be_bytes` would add a law for each.
pub fn store_word(bytes: &mut [u8], at: usize, v: u64)
    requires { at + 8 ≤ length bytes.old }
    ensures { bytes.new ≡ write_at bytes.old at 8 v }
{
    bytes[at] = (v / 256 / 256 / 256 / 256 / 256 / 256 / 256 % 256) as u8;
    bytes[at + 1] = (v / 256 / 256 / 256 / 256 / 256 / 256 % 256) as u8;
    bytes[at + 2] = (v / 256 / 256 / 256 / 256 / 256 % 256) as u8;
    bytes[at + 3] = (v / 256 / 256 / 256 / 256 % 256) as u8;
    bytes[at + 4] = (v / 256 / 256 / 256 % 256) as u8;
    bytes[at + 5] = (v / 256 / 256 % 256) as u8;
    bytes[at + 6] = (v / 256 % 256) as u8;
    bytes[at + 7] = (v % 256) as u8;
}

// The m bits from bit i on.
pub fn load(bytes: &[u8], i: usize, m: usize) -> u64
    requires { Within m i bytes.now }
    ensures { Span m (bit_at bytes.now) i result }
{
    if m == 64 {
        return load_word(bytes, i / 8);
    }
    if m == 8 {
        return load_byte(bytes, i / 8);
    }
    u64::from(get_bit(bytes, i))
}

// The m bits from bit i on become the low bits of v, and no other bit changes.
pub fn store(bytes: &mut [u8], i: usize, m: usize, v: u64)
    requires { Within m i bytes.old }
    ensures { Stored m i v bytes.old bytes.new }
{
    if m == 64 {
        store_word(bytes, i / 8, v);
        return;
    }
    if m == 8 {
        store_byte(bytes, i / 8, v);
        return;
    }
    set_bit(bytes, i, v % 2 == 1);
}

// The values one position later, c being the last of them.
pub fn ahead(x: u64, c: u64) -> u64
    requires { c < 2 }
    ensures { result ≡ ahead' x c }
{
    x % HIGH * 2 + c
}

// All values of v = g || (p && v one position later), c being the value after the last position: the carries of an addition.
pub fn ripple(p: u64, g: u64, c: u64) -> u64
    ensures { result ≡ ripple' p g c }
{
    let x = p | g;
    let s = x.wrapping_add(g);
    let t = s.wrapping_add(c);
    g | (p & (t ^ x ^ g))
}

// The value at the first of a span's m positions, as a digit.
pub fn first_of(v: u64, m: usize) -> u64
    requires { (0 < m) × (m ≤ 64) }
    ensures { (result ≡ v / 2 ^ (m - 1) % 2) × (result < 2) }
{
    let s = m - 1;
    (v >> s) % 2
}
