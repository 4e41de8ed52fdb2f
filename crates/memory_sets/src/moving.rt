// Words moved from place to place.
ghost use Rattle.std.specs.Prelude.{◌+◌, ◌≤◌, length};
ghost use Rattle.memory_sets.specs.Places.{Copied};

// n words from `a` on of another memory, to `b`.
pub fn copy(source: &[u32], a: usize, memory: &mut [u32], b: usize, n: usize)
    requires { (a + n ≤ length source.now) × (b + n ≤ length memory.old) }
    ensures { Copied source.now a memory.old memory.new b n }
{
    memory[b..b + n].copy_from_slice(&source[a..a + n]);
}

// n words from `a` on of this memory, to `b`, which does not lie above; the two places may overlap.
pub fn lower(memory: &mut [u32], a: usize, b: usize, n: usize)
    requires { (b ≤ a) × (a + n ≤ length memory.old) }
    ensures { Copied memory.old a memory.old memory.new b n }
{
    memory.copy_within(a..a + n, b);
}
