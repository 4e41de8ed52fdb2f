// The listing of document 01, 'One file in full', to a writer: `accepted`, node and signal counts, then per node its number, kind, first and second field; or
// `refused`, number, place.
#![tactic(auto)]

ghost use Rattle.std.specs.Prelude.{min, length, OnOk};
ghost use Rattle.std.specs.Io.KnownBytes.{Appends};
ghost use Rattle.listing.specs.Lines.{answer_line, node_line, node_lines};

use node::{Answer, Node, Refusal};
use std::io::{self, Write};

// An answer's line.
pub fn answer<W: Write>(to: &mut W, answer: Answer) -> io::Result<()>
    ensures { OnOk result (Appends (W.contents to.old) (W.contents to.new) (answer_line answer)) }
{
    match answer {
        Ok((nodes, signals)) => writeln!(to, "accepted {nodes} {signals}"),
        Err(Refusal { number, place }) => writeln!(to, "refused {number} {place}"),
    }
}

// A node's number, kind, first and second field.
fn node<W: Write>(to: &mut W, i: usize, word: u32) -> io::Result<()>
    ensures { OnOk result (Appends (W.contents to.old) (W.contents to.new) (node_line i word)) }
{
    let node = Node { word };
    let kind = node.kind();
    let first = node.first();
    let second = node.second();
    writeln!(to, "{i} {kind} {first} {second}")
}

// The lines of the first n nodes.
pub fn nodes<W: Write>(to: &mut W, nodes: &[u32], n: usize) -> io::Result<()>
    ensures { OnOk result (Appends (W.contents to.old) (W.contents to.new) (node_lines (min n (length nodes.now)) nodes.now)) }
{
    for i in 0..n.min(nodes.len()) {
        node(to, i, nodes[i])?;
    }
    Ok(())
}
