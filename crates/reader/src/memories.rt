// A memory for each text: as much as its names, entries and operators ask for. How much it is changes no answer: each is enough.
ghost use Rattle.std.specs.Prelude.{replicate};
ghost use Rattle.reader.specs.Naming.{SomeParsed, Roomy, Expands};

use crate::expansion::{CheckedTree, Counted, expand_checked_in};
use crate::weight::weigh;
use operands::Source;

// The words of the machine's memory: for a text of many operators that may hold sets and more than few definitions, for any other one, for one of some definitions, for one of
// few definitions and entries. Up to half of it holds the notes and the sets of definitions, so that none is worked out twice; clearing more than that would take more time than
// a short text. A memory apart has room for them too, so that with many definitions few sets are left to it: such a text has a large first memory instead.
const FULL_MEMORY: usize = 434_176;

const MANY_HOLDERS: usize = 512;

const MEMORY: usize = 131_072;

const SOME_MEMORY: usize = 65_536;

const SOME_DEFINITIONS: usize = 123;

const LITTLE_MEMORY: usize = 16_384;

const FEW_DEFINITIONS: usize = 27;

const FEW_ENTRIES: usize = 2_048;

// `expand_checked_in` with a memory of so many words, enough for the text's entries. It is not made part of its caller, whose frame would hold the memory for every text.
#[inline(never)]
fn expand_checked_with<const WORDS: usize>(
    source: &Source,
    found: &[u16],
    tree: CheckedTree,
    nodes: &mut [u32],
    signals: &mut [u32],
) -> Counted
    requires some_parsed { SomeParsed source.now.text.now source.now.work.now source.now.refs.now found.now tree }
    requires roomy { Roomy (replicate WORDS 0) tree.entries }
    ensures { Expands source.now.text.now source.now.work.now source.now.refs.now found.now tree nodes.old signals.old nodes.new signals.new result }
{
    let mut memory = [0u32; WORDS];
    expand_checked_in(source, found, &mut memory, tree, nodes, signals)
}

// Of a text of few definitions.
fn expand_checked_few(
    source: &Source,
    found: &[u16],
    tree: CheckedTree,
    nodes: &mut [u32],
    signals: &mut [u32],
) -> Counted
    requires { SomeParsed source.now.text.now source.now.work.now source.now.refs.now found.now tree }
    ensures { Expands source.now.text.now source.now.work.now source.now.refs.now found.now tree nodes.old signals.old nodes.new signals.new result }
{
    if tree.entries <= FEW_ENTRIES {
        return expand_checked_with::<LITTLE_MEMORY>(source, found, tree, nodes, signals);
    }
    expand_checked_with::<SOME_MEMORY>(source, found, tree, nodes, signals)
}

// `expand_checked_in` with a memory for the text. Where there are few names, there are few definitions.
pub fn expand_checked(
    source: &Source,
    found: &[u16],
    tree: CheckedTree,
    nodes: &mut [u32],
    signals: &mut [u32],
) -> Counted
    requires { SomeParsed source.now.text.now source.now.work.now source.now.refs.now found.now tree }
    ensures { Expands source.now.text.now source.now.work.now source.now.refs.now found.now tree nodes.old signals.old nodes.new signals.new result }
{
    if tree.names <= FEW_DEFINITIONS {
        return expand_checked_few(source, found, tree, nodes, signals);
    }
    let weight = weigh(source.work, tree.entries);
    if weight.definitions <= FEW_DEFINITIONS {
        return expand_checked_few(source, found, tree, nodes, signals);
    }
    if tree.entries > FEW_ENTRIES {
        if weight.holders > MANY_HOLDERS {
            return expand_checked_with::<FULL_MEMORY>(source, found, tree, nodes, signals);
        }
    }
    if weight.definitions > SOME_DEFINITIONS {
        return expand_checked_with::<MEMORY>(source, found, tree, nodes, signals);
    }
    expand_checked_with::<SOME_MEMORY>(source, found, tree, nodes, signals)
}
