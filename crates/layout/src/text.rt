// The whole text: INFO, the lists of inputs and outputs, and the formula as the one line of GUARANTEE.
ghost use Rattle.std.specs.Prelude.{◌≡◌, ◌+◌, ◌*◌, ◌≤◌, length};
ghost use Rattle.std.proofs.lemmas.List.Edits.{sets};
ghost use Rattle.node.specs.Table.{root};
ghost use Rattle.node.specs.Formed.{Formed};
ghost use Rattle.language.specs.Limits.{max_name, max_signals};
ghost use Rattle.signal_names.specs.Promise.{slot, Held, Puts};
ghost use Rattle.layout.specs.Layout.{nth};
ghost use Rattle.layout.specs.Table.{table as table'};
ghost use Rattle.layout.specs.Stack.{Scene};
ghost use Rattle.layout.specs.Text.{model_of, head_text, line_of, lines_from, line_size, max_line, lines_size, text_of, fixed_sizes, Delivers, handed, outcome, Listed, Sizes};

use crate::formula::{measure, put_formula};
use crate::pieces::pieces;
use basics::MAX_TOLD;
use language::limits::MAX_NAME;
use language::models;
use node::refusals::{SHORT_RESULT, UNWRITABLE_NAME};
use node::{MAX_SIGNALS, Refusal};
use signal_names::{flag_of, put_bytes, spell};

// The bytes of all signals' slots, with room for a name that is too long.
const NAMES: usize = MAX_SIGNALS * MAX_NAME + MAX_NAME + 4;

// The sizes of the fixed texts: INFO to the first input, between the lists, from the lists to the formula, after it; and after a name.
const HEAD: usize = 104;

const OUTPUTS: usize = 12;

const GUARANTEE: usize = 14;

const END: usize = 5;

const LINE_END: usize = 3;

// The bytes around the lists and the formula.
const FIXED: usize = HEAD + OUTPUTS + GUARANTEE + END;

// The directions of an entry.
const INPUT: u32 = 0;

const OUTPUT: u32 = 1;

// The sizes in the order of specs/Text: what they stand for.
pub fn fixed_sizes() -> [usize; 6]
    ensures { result ≡ fixed_sizes }
{
    [HEAD, OUTPUTS, GUARANTEE, END, LINE_END, FIXED]
}

fn put_all(from: &[u8], out: &mut [u8], at: usize) -> usize
    requires { at + length from.now ≤ length out.old }
    ensures { Puts from.now out.old out.new at result }
{
    put_bytes(from, 0, from.len(), out, at)
}

fn put_head(target: u32, out: &mut [u8]) -> usize
    requires { length (head_text (model_of target)) ≤ length out.old }
    ensures { Puts (head_text (model_of target)) out.old out.new 0 result }
{
    if target == models::MEALY {
        return put_all(
            b"INFO { TITLE : \"converted\" DESCRIPTION : \"converted\" SEMANTICS : Mealy TARGET : Mealy } MAIN { INPUTS { ",
            out,
            0,
        );
    }
    put_all(
        b"INFO { TITLE : \"converted\" DESCRIPTION : \"converted\" SEMANTICS : Moore TARGET : Moore } MAIN { INPUTS { ",
        out,
        0,
    )
}

// The line of entry k, if it is of this direction.
fn put_line(
    entry: u32,
    flag: u32,
    names: &[u8],
    sizes: &[usize],
    k: usize,
    out: &mut [u8],
    at: usize,
) -> usize
    requires { Listed names.now sizes.now k × (at + length (line_of (slot names.now sizes.now) flag k entry) ≤ length out.old) }
    ensures { Puts (line_of (slot names.now sizes.now) flag k entry) out.old out.new at result }
{
    if flag_of(entry) != flag {
        return at;
    }
    let end = put_bytes(names, MAX_NAME * k, sizes[k], out, at);
    put_all(b" ; ", out, end)
}

// The lines of the entries of a direction.
fn put_lines(
    list: &[u32],
    flag: u32,
    names: &[u8],
    sizes: &[usize],
    out: &mut [u8],
    start: usize,
) -> usize
    requires { Held names.now sizes.now (length list.now) × (start + length (lines_from (slot names.now sizes.now) flag 0 list.now) ≤ length out.old) }
    ensures { Puts (lines_from (slot names.now sizes.now) flag 0 list.now) out.old out.new start result }
{
    let mut at = start;
    for (k, entry) in list.iter().enumerate() {
        at = put_line(*entry, flag, names, sizes, k, out, at);
    }
    at
}

fn line_size(entry: u32, flag: u32, size: usize) -> usize
    requires { size ≤ max_name }
    ensures { (result ≡ line_size flag entry size) × (result ≤ max_line) }
{
    if flag_of(entry) != flag {
        return 0;
    }
    size + LINE_END
}

fn lines_size(list: &[u32], flag: u32, names: &[u8], sizes: &[usize]) -> usize
    requires { Held names.now sizes.now (length list.now) × (length list.now ≤ max_signals) }
    ensures { (result ≡ lines_size (nth sizes.now) flag 0 list.now) × (result ≤ max_line * max_signals) }
{
    let mut n: usize = 0;
    for (k, entry) in list.iter().enumerate() {
        n += line_size(*entry, flag, sizes[k]);
    }
    n
}

// The size of the whole text; a formula's counts as far as an answer can tell it.
fn text_size(nodes: &[u32], list: &[u32], names: &[u8], sizes: &[usize], table: &[u8]) -> usize
    requires { (table.now ≡ table') × (Scene nodes.now names.now sizes.now × (Held names.now sizes.now (length list.now) × (length list.now ≤ max_signals))) }
    ensures { Sizes sizes.now list.now (root nodes.now) result }
{
    let inputs = lines_size(list, INPUT, names, sizes);
    let outputs = lines_size(list, OUTPUT, names, sizes);
    let formula = measure(nodes, names, sizes, table) as usize;
    FIXED + inputs + outputs + formula
}

// Writes the whole text to the front of `out`, which has room for it.
fn put_text(
    target: u32,
    nodes: &[u32],
    list: &[u32],
    names: &[u8],
    sizes: &[usize],
    table: &[u8],
    out: &mut [u8],
)
    requires table_value { (table.now ≡ table') × (Scene nodes.now names.now sizes.now × Held names.now sizes.now (length list.now)) }
    requires nodes_in_bounds { length (text_of (model_of target) (slot names.now sizes.now) list.now (root nodes.now)) ≤ length out.old }
    ensures { out.new ≡ sets out.old 0 (text_of (model_of target) (slot names.now sizes.now) list.now (root nodes.now)) }
{
    let inputs = put_head(target, out);
    let between = put_lines(list, INPUT, names, sizes, out, inputs);
    let outputs = put_all(b"} OUTPUTS { ", out, between);
    let behind = put_lines(list, OUTPUT, names, sizes, out, outputs);
    let formula = put_all(b"} GUARANTEE { ", out, behind);
    let end = put_formula(nodes, names, sizes, table, out, formula);
    put_all(b"; } }", out, end);
}

// The text of a table whose signals have names, if it fits.
fn write_text(
    target: u32,
    nodes: &[u32],
    list: &[u32],
    names: &[u8],
    sizes: &[usize],
    out: &mut [u8],
) -> Result<u32, Refusal>
    requires { Scene nodes.now names.now sizes.now × (Held names.now sizes.now (length list.now) × (length list.now ≤ max_signals)) }
    ensures { Delivers (handed (length out.old) (text_of (model_of target) (slot names.now sizes.now) list.now (root nodes.now)))
        out.old out.new result }
{
    let table = pieces();
    let size = text_size(nodes, list, names, sizes, &table);
    if out.len() < size {
        return Err(Refusal {
            number: SHORT_RESULT,
            place: 0,
        });
    }
    if MAX_TOLD < size {
        return Err(Refusal {
            number: SHORT_RESULT,
            place: 0,
        });
    }
    put_text(target, nodes, list, names, sizes, &table, out);
    Ok(size as u32)
}

// The basic text of an accepted text's node table and signal list, with the target's model: 22, then 18. An inner function: the reader has made the table and the
// list.
pub fn write_nodes(
    text: &[u8],
    target: u32,
    nodes: &[u32],
    list: &[u32],
    out: &mut [u8],
) -> Result<u32, Refusal>
    requires { Formed (length list.now) nodes.now × (length list.now ≤ max_signals) }
    ensures { Delivers (outcome (length out.old) text.now (model_of target) list.now nodes.now) out.old out.new result }
{
    let mut names = [0u8; NAMES];
    let mut sizes = [0usize; MAX_SIGNALS];
    let fault = spell(text, list, &mut names, &mut sizes);
    if fault < list.len() {
        return Err(Refusal {
            number: UNWRITABLE_NAME,
            place: fault as u32,
        });
    }
    write_text(target, nodes, list, &names, &sizes, out)
}
