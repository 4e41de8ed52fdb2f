// Runs the rewriter on each refusal of document 01's table, on its one file in full, and on the deepest tables.
#![tactic(auto)]

ghost use Rattle.std.specs.Prelude.{◌<◌};

use forms::{AS_EXPANDED, CORE_FORM, NEGATION_FORM};
use node::Node;
use std::io::{self, BufWriter, Write};

mod tables;

// A word that no result holds.
const UNTOUCHED: u32 = 4294967295;

fn say(to: &mut impl Write, text: &[u8]) -> io::Result<()> {
    to.write_all(text)
}

fn say_number(to: &mut impl Write, n: u64) -> io::Result<()> {
    write!(to, " {n}")
}

// A table in a form.
fn try_form(
    to: &mut impl Write,
    name: &[u8],
    nodes: &[u32],
    form: u32,
    out: &mut [u32],
) -> io::Result<()> {
    say(to, name)?;
    say(to, b", form")?;
    say_number(to, form as u64)?;
    say(to, b": ")?;
    listing::answer(to, rewriter::rewrite(nodes, form, out))
}

// 21, 19 and others, with room for four nodes
fn small(to: &mut impl Write, name: &[u8], nodes: &[u32], form: u32) -> io::Result<()> {
    let mut out = [0u32; 4];
    try_form(to, name, nodes, form, &mut out)
}

fn bad_tables(to: &mut impl Write) -> io::Result<()> {
    small(to, b"no nodes", &[], 3)?;
    small(to, b"no nodes", &[], 4294967295)?;
    small(to, b"no nodes", &[], AS_EXPANDED)?;
    small(to, b"kind 15", &tables::KIND_15, CORE_FORM)?;
    small(to, b"kind 14", &tables::KIND_14, CORE_FORM)?;
    small(
        to,
        b"an operand that is no lower",
        &tables::NO_LOWER,
        NEGATION_FORM,
    )?;
    small(
        to,
        b"a second field of true",
        &tables::TRUE_FIELD,
        NEGATION_FORM,
    )?;
    small(to, b"a second field of X", &tables::NEXT_FIELD, AS_EXPANDED)
}

fn long_table(to: &mut impl Write) -> io::Result<()> {
    let nodes = [0u32; 8193];
    small(to, b"8,193 nodes", &nodes, AS_EXPANDED)
}

// The document's nodes in a form; the buffer up to the first word that is left as it was.
fn document(to: &mut impl Write, form: u32, n: usize) -> io::Result<()> {
    let mut out = [UNTOUCHED; 64];
    try_form(
        to,
        b"the document's nodes",
        &tables::DOCUMENT,
        form,
        &mut out,
    )?;
    listing::nodes(to, &out, n)
}

// 18
fn short(to: &mut impl Write) -> io::Result<()> {
    let mut out = [UNTOUCHED; 16];
    try_form(
        to,
        b"the document's nodes, room for 16",
        &tables::DOCUMENT,
        AS_EXPANDED,
        &mut out,
    )?;
    listing::nodes(to, &out, 1)
}

// The first n nodes of a table in a form.
fn try_part(
    to: &mut impl Write,
    name: &[u8],
    nodes: &[u32],
    n: usize,
    form: u32,
    out: &mut [u32],
) -> io::Result<()> {
    try_form(to, name, &nodes[..n.min(nodes.len())], form, out)
}

fn try_forms(
    to: &mut impl Write,
    name: &[u8],
    nodes: &[u32; 8192],
    n: usize,
    out: &mut [u32; 8192],
) -> io::Result<()> {
    try_part(to, name, nodes, n, AS_EXPANDED, out)?;
    try_part(to, name, nodes, n, NEGATION_FORM, out)?;
    try_part(to, name, nodes, n, CORE_FORM, out)
}

// A chain of n nodes in every form.
fn deep(to: &mut impl Write, name: &[u8], n: usize, kind: u32, is_shared: bool) -> io::Result<()>
    requires { kind < 16 }
{
    let mut nodes = [0u32; 8192];
    let mut out = [0u32; 8192];
    tables::chain(&mut nodes, kind, is_shared);
    try_forms(to, name, &nodes, n, &mut out)
}

fn main(rt: HostRuntime) -> io::Result<()> {
    let mut to = BufWriter::new(rt.alloc(), io::writer(&rt))?;
    bad_tables(&mut to)?;
    long_table(&mut to)?;
    short(&mut to)?;
    document(&mut to, AS_EXPANDED, 18)?;
    document(&mut to, NEGATION_FORM, 19)?;
    document(&mut to, CORE_FORM, 40)?;
    deep(&mut to, b"8,191 X", 8192, Node::NEXT, false)?;
    deep(&mut to, b"8,191 !", 8192, Node::NOT, false)?;
    deep(&mut to, b"8,191 F", 8192, Node::FINALLY, false)?;
    deep(&mut to, b"4,096 F", 4097, Node::FINALLY, false)?;
    deep(&mut to, b"4,095 F", 4096, Node::FINALLY, false)?;
    deep(&mut to, b"8,191 <->", 8192, Node::IFF, false)?;
    deep(&mut to, b"4,095 <->", 4096, Node::IFF, false)?;
    deep(&mut to, b"5 <->", 6, Node::IFF, false)?;
    deep(
        &mut to,
        b"8,000 <-> of a node with itself",
        8001,
        Node::IFF,
        true,
    )?;
    to.flush()
}
