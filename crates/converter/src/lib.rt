// The converter: from a text to the nodes of a form. It reads into a table and a list of its own, so that a refusal of the reader or of the rewriter changes no
// result buffer.
#![tactic(auto)]

ghost use Rattle.claim.specs.Converts.{Converts};
ghost use Rattle.converter.specs.Room.{Lends};
ghost use Rattle.converter.specs.WritingOut.{WritesOut};

use basics::copy_words;
use node::{Answer, MAX_NODES, MAX_SIGNALS};

// How many nodes may be written: none where the signal list does not fit, so that 18 stands for either result buffer and the form's own refusals come before it.
fn room(nodes: usize, signals: usize, listed: usize) -> usize
    ensures { Lends nodes signals listed result }
{
    if listed <= signals { nodes } else { 0 }
}

// Writes a table's root in a form to the front of `nodes` and the list to the front of `signals`, or neither. The answer is the rewriter's.
fn write_out(
    table: &[u32],
    form: u32,
    list: &[u32],
    nodes: &mut [u32],
    signals: &mut [u32],
) -> Answer
    ensures { WritesOut form table.now list.now nodes.old signals.old nodes.new signals.new result }
{
    let end = room(nodes.len(), signals.len(), list.len());
    let rewritten = rewriter::rewrite(table, form, &mut nodes[..end])?;
    copy_words(list, list.len(), signals);
    Ok(rewritten)
}

// Reads the text, and writes its formula in a form to the front of `nodes` and its signal list to the front of `signals`. Accepted with the form's nodes and the
// text's signals. The first 65,536 bytes of `work` are zero afterwards, unless it is shorter.
pub fn convert(
    text: &[u8],
    form: u32,
    work: &mut [u8],
    nodes: &mut [u32],
    signals: &mut [u32],
) -> Answer
    ensures { Converts text.now form work.old nodes.old signals.old work.new nodes.new signals.new result }
{
    let mut table: [u32; MAX_NODES] = [0; MAX_NODES];
    let mut list: [u32; MAX_SIGNALS] = [0; MAX_SIGNALS];
    let (count, listed) = reader::read(text, work, &mut table, &mut list)?;
    let n = count as usize;
    let s = listed as usize;
    let (size, _) = write_out(&table[..n], form, &list[..s], nodes, signals)?;
    Ok((size, listed))
}
