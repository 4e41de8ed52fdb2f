// The writer: from a text to a basic text that reads back as the same nodes (document 02, F-1). It reads into a table and a list of its own.
#![tactic(auto)]

ghost use Rattle.writer.specs.Promise.{Writes};

use layout::text::write_nodes;
use node::{MAX_NODES, MAX_SIGNALS, Refusal};
use reader::read_told;

// Writes the basic text of an accepted text to the front of `out`: the number of its bytes, or a refusal, which changes no byte of `out`. The first 65,536 bytes of
// `work` are zero afterwards, unless it is shorter: then nothing is touched.
pub fn write_basic(text: &[u8], work: &mut [u8], out: &mut [u8]) -> Result<u32, Refusal>
    ensures { Writes text.now work.old out.old work.new out.new result }
{
    let mut table: [u32; MAX_NODES] = [0; MAX_NODES];
    let mut list: [u32; MAX_SIGNALS] = [0; MAX_SIGNALS];
    let told = read_told(text, work, &mut table, &mut list);
    let facts = told.facts;
    let (count, listed) = told.answer?;
    let n = count as usize;
    let s = listed as usize;
    write_nodes(text, facts.target, &table[..n], &list[..s], out)
}
