// How many lines the sections of a text have that promise something: PRESET, ASSERT and GUARANTEE (document 02, F-7: 'Lines count from 1 in their section').
#![tactic(auto)]

ghost use Rattle.std.specs.Prelude.{[], ◌≡◌, ◌≤◌};
ghost use Rattle.node.specs.Limits.{max_nodes};
ghost use Rattle.line_counts.specs.Counting.{one, PartCount, Counts};
ghost use Rattle.line_counts.specs.Promise.{counts_of};

use assembly::{ASSERT, GUARANTEE, PRESET};
use node::{FIELD_LIMIT, MAX_NODES};

// How many lines the sections have that promise something.
#[derive(Clone, Copy)]
pub struct LineCounts {
    pub preset: u32,
    pub assert: u32,
    pub guarantee: u32,
}

// Where there is no section.
pub fn no_lines() -> LineCounts
    ensures { result ≡ counts_of [] }
{
    LineCounts {
        preset: 0,
        assert: 0,
        guarantee: 0,
    }
}

// 1 for a word of the part, 0 for others.
fn is_in(part: u32, word: u32) -> u32
    ensures { result ≡ one part word }
{
    u32::from(word / FIELD_LIMIT == part)
}

// How many of the first words are a line's of the part.
fn lines_in(part: u32, lines: &[u32; MAX_NODES], count: usize) -> u32
    requires { count ≤ max_nodes }
    ensures { PartCount part lines.now count result }
{
    let mut n = 0;
    for word in &lines[..count] {
        n += is_in(part, *word);
    }
    n
}

// How many lines each section has, by the words of all lines; where there are more lines than words can be, nothing is said.
pub fn count_lines(lines: &[u32; MAX_NODES], count: usize) -> LineCounts
    ensures { Counts lines.now count result }
{
    if MAX_NODES < count {
        return no_lines();
    }
    LineCounts {
        preset: lines_in(PRESET, lines, count),
        assert: lines_in(ASSERT, lines, count),
        guarantee: lines_in(GUARANTEE, lines, count),
    }
}
