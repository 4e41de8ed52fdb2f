// Bits of bytes, most significant first (document 01, 'Recordings').
#![tactic(auto)]

ghost use Rattle.std.specs.Prelude.{◌≡◌, ◌*◌, ◌^◌, ◌<◌, length};
ghost use Rattle.bits.specs.Bits.{bit_at, put_bit, with_bit};

pub mod spans;

// Bit i of the bytes, most significant first.
pub fn get_bit(bytes: &[u8], i: usize) -> bool
    requires { i < 8 * length bytes.now }
    ensures { result ≡ bit_at bytes.now i }
{
    (bytes[i / 8] >> (7 - i % 8)) % 2 == 1
}

// A power of 2 that a byte can hold.
pub fn power(s: usize) -> u32
    requires { s < 8 }
    ensures { result ≡ 2 ^ s }
{
    1u32 << s
}

// A byte with another bit s, counted from the least significant.
fn with_bit(x: u32, s: usize, v: bool) -> u32
    requires { (x < 2 ^ 8) × (s < 8) }
    ensures { (result ≡ with_bit x s v) × (result < 256) }
{
    let p = power(s);
    let d = u32::from(v);
    let h = x >> s;
    (h / 2 * 2 + d) * p + x % p
}

// Bit i of the bytes becomes v, and no other bit changes.
pub fn set_bit(bytes: &mut [u8], i: usize, v: bool)
    requires { i < 8 * length bytes.old }
    ensures { bytes.new ≡ put_bit bytes.old i v }
{
    let at = i / 8;
    let s = 7 - i % 8;
    let x = u32::from(bytes[at]);
    bytes[at] = with_bit(x, s, v) as u8;
}
