// Numbers and formulas of stored expressions, worked out by the machine's loop.
// The functions ask for a checked tree and a memory whose notes are laid: `declarations` and `lines` have both.
#![tactic(auto)]

mod cycle;
mod formulas;
mod frames;
mod memories;
mod values;

ghost use Rattle.std.specs.Prelude.{suc, ◌+◌, ◌<◌, ◌^◌, length, get_or, ◌≡◌};
ghost use Rattle.node.specs.Limits.{max_nodes};
ghost use Rattle.operands.specs.Working.{view};
ghost use Rattle.machine.specs.Memory.{slots_word};
ghost use Rattle.machine_run.specs.Running.{Runnable, NumberTold, FormulaTold, initial as initial', NumberIs};

use cycle::evaluate;
use machine::{Machine, SLOTS_WORD, modes};
use node::{MAX_NODES, Refusal, refusals};
use operands::Source;
use writing::TOO_MANY;

// The state in which a run begins: the entry on an empty stack, where no big operator's name is visible.
fn initial(memory: &[u32], entries: usize, k: usize, nodes: usize, mode: u32) -> Machine
    requires { (slots_word < length memory.now) × ((k < 2 ^ 32) × (get_or memory.now slots_word 0 + entries < 2 ^ 33)) }
    ensures { result ≡ initial' memory.now entries k nodes mode }
{
    let slots = memory[SLOTS_WORD] as usize;
    Machine {
        mode,
        value: k as u32,
        from: 0,
        scope: slots,
        depth: slots,
        top: slots + entries,
        frames: memory.len(),
        nodes,
    }
}

// The number that has come.
fn as_number(n: Machine) -> Result<u32, Refusal>
    ensures { NumberIs n result }
{
    if n.mode == modes::NUMBER {
        return Ok(n.value);
    }
    Err(Refusal {
        number: refusals::WRONG_TYPE,
        place: 0,
    })
}

// The expression at entry k as a number. Nothing is written to the table, which counts as full.
pub fn number_of(
    source: &Source,
    memory: &mut [u32],
    table: &mut [u32; MAX_NODES],
    entries: usize,
    k: usize,
) -> Result<u32, Refusal>
    requires { Runnable (view source.now) memory.old table.old entries k (suc max_nodes) }
    ensures { NumberTold (view source.now) memory.old memory.new table.old table.new entries k
        (suc max_nodes) result }
{
    let m = initial(memory, entries, k, TOO_MANY, modes::EVALUATE);
    let n = evaluate(source, memory, table, m)?;
    as_number(n)
}

// The expression at entry k as a formula, whose nodes go into the table from `at` on: where they end, 8,193 if they do not fit.
pub fn formula_of(
    source: &Source,
    memory: &mut [u32],
    table: &mut [u32; MAX_NODES],
    entries: usize,
    k: usize,
    at: usize,
) -> Result<usize, Refusal>
    requires { Runnable (view source.now) memory.old table.old entries k at }
    ensures { FormulaTold (view source.now) memory.old memory.new table.old table.new entries k at
        result }
{
    let slots = memory[SLOTS_WORD];
    let m = initial(memory, entries, k, at, modes::EXPAND);
    match evaluate(source, memory, table, m) {
        Ok(n) => Ok(n.nodes),
        Err(refusal) => {
            memory[SLOTS_WORD] = slots;
            Err(refusal)
        }
    }
}
