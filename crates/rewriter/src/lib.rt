// The rewriter (document 01, 'Forms'): writes the root's tree of a table of nodes, in a form, as a postorder tree.
#![tactic(auto)]

ghost use Rattle.std.specs.Prelude.{◌≤◌, length};
ghost use Rattle.node.specs.Limits.{max_nodes, field_limit};
ghost use Rattle.node.specs.Table.{root, tree_at};
ghost use Rattle.node.specs.Formed.{Formed};
ghost use Rattle.forms.specs.Forms.{form as form'};
ghost use Rattle.form_writers.specs.Writing.{Wrote, Ready};
ghost use Rattle.rewriter.specs.Fitting.{HandsOver, Fitted, FittedTo};
ghost use Rattle.rewriter.specs.Promise.{Rewrites};

use basics::copy_words;
use form_writers::copy::copy;
use form_writers::core_form::core;
use form_writers::negation_form::plain;
use forms::{AS_EXPANDED, CORE_FORM, NEGATION_FORM};
use node::{Answer, MAX_NODES, Refusal, refusals};

// Where no signals are told, a table may have any signal number that a field holds.
pub const SIGNAL_LIMIT: u32 = node::FIELD_LIMIT;

// A table of at most 256 nodes is rewritten by way of a table of 1,024: few forms are more than four times as long.
const SMALL_TABLE: usize = 256;

const SMALL_RESULT: usize = 1024;

// A node's formula in a form.
fn write_form(nodes: &[u32], form: u32, i: usize, out: &mut [u32], at: usize) -> Option<usize>
    requires { Ready nodes.now i out.old at }
    ensures { Wrote result (form' form (tree_at nodes.now i)) out.old out.new at }
{
    match form {
        AS_EXPANDED => copy(nodes, i, out, at),
        NEGATION_FORM => plain(nodes, i, out, at),
        _ => core(nodes, i, out, at),
    }
}

// Hands over the first n words of a table that was written, where they fit. It asks for what the writing functions yield: a count of nodes within the table.
fn hand_over(table: &[u32], n: usize, out: &mut [u32]) -> Answer
    requires { (n ≤ length table.now) × (n ≤ max_nodes) }
    ensures { HandsOver table.now n out.old out.new result }
{
    if out.len() < n {
        return Err(Refusal {
            number: refusals::SHORT_RESULT,
            place: 0,
        });
    }
    copy_words(table, n, out);
    let count = n as u32;
    Ok((count, 0))
}

// Writes the nodes to a table of its own, of so many entries, and hands them over, unless they are more: a refusal writes nothing to `out`. It asks for a table
// that has passed the check. A small table takes less time to clear.
fn fit<const ENTRIES: usize>(nodes: &[u32], form: u32, out: &mut [u32]) -> Option<Answer>
    requires { Formed field_limit nodes.now × (ENTRIES ≤ max_nodes) }
    ensures { FittedTo ENTRIES (form' form (root nodes.now)) out.old out.new result }
{
    let root = nodes.len() - 1;
    let mut table: [u32; ENTRIES] = [0; ENTRIES];
    let n = write_form(nodes, form, root, &mut table, 0)?;
    Some(hand_over(&table, n, out))
}

// The same by way of the largest table that the format has: what does not fit there is refused.
fn fit_large(nodes: &[u32], form: u32, out: &mut [u32]) -> Answer
    requires { Formed field_limit nodes.now }
    ensures { Fitted (form' form (root nodes.now)) out.old out.new result }
{
    match fit::<MAX_NODES>(nodes, form, out) {
        Some(answer) => answer,
        None => Err(Refusal {
            number: refusals::TOO_MANY_NODES,
            place: 0,
        }),
    }
}

// Writes the root's tree in a form to the front of `out`. Accepted with the number of nodes written, and 0 signals.
pub fn rewrite(nodes: &[u32], form: u32, out: &mut [u32]) -> Answer
    ensures { Rewrites form nodes.now out.old out.new result }
{
    if CORE_FORM < form {
        return Err(Refusal {
            number: refusals::BAD_FORM,
            place: 0,
        });
    }
    node::check_table(nodes, SIGNAL_LIMIT)?;
    if SMALL_TABLE < nodes.len() {
        return fit_large(nodes, form, out);
    }
    match fit::<SMALL_RESULT>(nodes, form, out) {
        Some(answer) => answer,
        None => fit_large(nodes, form, out),
    }
}
