// Small helpers below all other crates: one of two numbers; what an answer can tell; copying words.
#![tactic(auto)]

ghost use Rattle.std.specs.Prelude.{◌≡◌, ◌≤◌, min, cond, length};
ghost use Rattle.std.proofs.Math.Seq.{paste};
ghost use Rattle.basics.specs.Told.{max_told};

// The largest place or count that an answer can tell.
pub const MAX_TOLD: usize = 4294967295;

// One of two numbers: a function of its own, so that the compiled choice has no branch.
pub fn either(test: bool, a: u32, b: u32) -> u32
    ensures { result ≡ cond test a b }
{
    if test { a } else { b }
}

// A place or a count, as far as an answer can tell it.
pub fn told(n: usize) -> u32
    ensures { result ≡ min max_told n }
{
    n.min(MAX_TOLD) as u32
}

// The first n words, to the front of `out`. It asks that both have as many, and its callers show it.
pub fn copy_words(from: &[u32], n: usize, out: &mut [u32])
    requires { (n ≤ length from.now) × (n ≤ length out.old) }
    ensures { out.new ≡ paste out.old 0 from.now n }
{
    // Word by word: `copy_from_slice` is compiled to a call of memmove, which callers in C need not have.
    for i in 0..n {
        out[i] = from[i];
    }
}
