// The machine's loop. An entry that finds no room is worked out in a memory of its own.
ghost use Rattle.std.specs.Prelude.{◌≤◌, length};
ghost use Rattle.operands.specs.Working.{view};
ghost use Rattle.machine.specs.Came.{Expand};
ghost use Rattle.machine.specs.States.{mode_of, ReadyToWrite, Writes};
ghost use Rattle.machine_run.specs.Evaluating.{Finished, Going, Stands, Bare, Evaluated, moved};

use crate::formulas::formula;
use crate::frames::take;
use crate::memories::{bring, outset, room};
use crate::values::value;
use machine::{Machine, Move, Stepped, modes};
use memory_sets::moving::copy;
use node::{MAX_NODES, Refusal};
use operands::Source;

// Something has come, and no frame waits for it.
fn finished(m: Machine, words: usize) -> bool
    ensures { Finished m words result }
{
    if m.mode <= modes::EXPAND {
        return false;
    }
    m.frames == words
}

// One step.
fn step(source: &Source, memory: &mut [u32], table: &mut [u32; MAX_NODES], m: Machine) -> Stepped
    requires ready_to_write { ReadyToWrite (view source.now) memory.old table.old m }
    requires going { Going m (length memory.old) }
    ensures { Writes (view source.now) memory.old memory.new table.old table.new m result }
{
    if m.mode == modes::EVALUATE {
        return value(source, memory, m);
    }
    if m.mode == modes::EXPAND {
        return formula(source, memory, table, m);
    }
    take(source, memory, table, m)
}

// The entry of m, for which there is no room. A function that calls itself, which this one never does, is not made part of its caller, whose frame would hold the fresh memory
// all the time.
#[cycle(apart_evaluate)]
fn apart(
    source: &Source,
    memory: &mut [u32],
    table: &mut [u32; MAX_NODES],
    m: Machine,
) -> Result<Machine, Refusal>
    requires stands { Stands (view source.now) memory.old table.old m }
    requires mode_bound { m.mode ≤ mode_of Expand }
    ensures { Writes (view source.now) memory.old memory.new table.old table.new m (moved result) }
{
    let mut fresh = room();
    if m.mode > modes::EXPAND {
        return apart(source, &mut fresh, table, m);
    }
    copy(memory, 0, &mut fresh, 0, m.depth);
    let n = evaluate(source, &mut fresh, table, outset(m))?;
    Ok(bring(&fresh, memory, m, n))
}

// The entry of m, on an empty stack.
#[cycle(apart_evaluate)]
pub fn evaluate(
    source: &Source,
    memory: &mut [u32],
    table: &mut [u32; MAX_NODES],
    m: Machine,
) -> Result<Machine, Refusal>
    requires stands { Stands (view source.now) memory.old table.old m }
    requires bare { Bare m (length memory.old) }
    ensures { Evaluated (view source.now) memory.old memory.new table.old table.new m result }
{
    let mut n = m;
    // A step of the machine at a time: it ends where the answer has come. What a step returns is taken apart at once: behind `?` the loop took 1.1 to 1.2 times as long.
    loop {
        if finished(n, memory.len()) {
            return Ok(n);
        }
        match step(source, memory, table, n) {
            Ok(Move::Next(k)) => {
                n = k;
            }
            Ok(Move::Short) => {
                n = apart(source, memory, table, n)?;
            }
            Err(refusal) => {
                return Err(refusal);
            }
        }
    }
}
