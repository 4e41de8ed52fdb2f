// Big operators of formulas: `&&[..]` and `||[..]`.
ghost use Rattle.std.specs.Prelude.{false, ◌≡◌, ◌+◌, ◌<◌, ◌^◌};
ghost use Rattle.entries.specs.Kinds as Kind;
ghost use Rattle.machine.specs.Phases as Phase;
ghost use Rattle.machine.specs.Memory.{frame_words};
ghost use Rattle.machine.specs.States.{Ready, Steps, Topped, Takes, ToppedToWrite, TakesToWrite};
ghost use Rattle.operands.specs.Working.{view};
ghost use Rattle.machine.specs.Entering.{Expands, Waiting};
ghost use Rattle.each_steps.specs.Onward.{closed as closed', Turnable, Onward};

use entries::kinds;
use fold_steps::turning::{again, begin};
use machine::{FRAME, Machine, Move, Stepped, capped, fields, modes, phases};
use node::{MAX_NODES, Node, Refusal, refusals};
use operands::Source;
use operands::entry::{kind_at, prefix_at};
use writing::{constant, join};

// The set is worked out first: the entry of the operator's name stands between it and the operand.
pub fn over_each(source: &Source, memory: &mut [u32], m: Machine) -> Stepped
    requires ready { Ready (view source.now) memory.old m }
    requires expands { Expands source.now.work.now m Kind.big_numbers (Kind.binder false) }
    ensures { Steps (view source.now) memory.old memory.new m result }
{
    m.push_first(source.work, memory, phases::OVER_EACH, modes::EVALUATE, 1)
}

// The set has come: the operand at its first element is worked out. Numbers and sets make no formula.
pub fn elements(
    source: &Source,
    memory: &mut [u32],
    table: &mut [u32; MAX_NODES],
    m: Machine,
) -> Stepped
    requires topped_to_write { ToppedToWrite (view source.now) memory.old table.old m }
    requires waiting { Waiting memory.old m Phase.over_each }
    ensures { TakesToWrite (view source.now) memory.old memory.new table.old table.new m result }
{
    if m.mode != modes::SET {
        return Err(Refusal {
            number: refusals::WRONG_TYPE,
            place: 0,
        });
    }
    let k = memory[m.frames + fields::ENTRY] as usize;
    if kind_at(source.work, k) < kinds::BIG_FORMULAS {
        return Err(Refusal {
            number: refusals::WRONG_TYPE,
            place: 0,
        });
    }
    if m.value == 0 {
        let n = constant(prefix_at(source.work, k) == Node::AND, table, m.nodes);
        return Ok(Move::Next(m.popped().wrote(capped(n))));
    }
    Ok(Move::Next(begin(memory, m, phases::FIRST_EACH, modes::EXPAND)))
}

// The operand at the first element is written.
pub fn first(source: &Source, memory: &mut [u32], m: Machine) -> Stepped
    requires topped { Topped (view source.now) memory.old m }
    requires waiting { Waiting memory.old m Phase.first_each }
    ensures { Takes (view source.now) memory.old memory.new m result }
{
    if m.mode != modes::NODES {
        return Err(Refusal {
            number: refusals::WRONG_TYPE,
            place: 0,
        });
    }
    onward(memory, m, m.nodes)
}

// The operand at a further element is written behind those that are folded: it is joined to them.
pub fn next(
    source: &Source,
    memory: &mut [u32],
    table: &mut [u32; MAX_NODES],
    m: Machine,
) -> Stepped
    requires topped_to_write { ToppedToWrite (view source.now) memory.old table.old m }
    requires waiting { Waiting memory.old m Phase.next_each }
    ensures { TakesToWrite (view source.now) memory.old memory.new table.old table.new m result }
{
    if m.mode != modes::NODES {
        return Err(Refusal {
            number: refusals::WRONG_TYPE,
            place: 0,
        });
    }
    let at = m.frames;
    let k = memory[at + fields::ENTRY] as usize;
    let folded = memory[at + fields::VALUE] as usize;
    let n = join(prefix_at(source.work, k), folded, m.nodes, table);
    onward(memory, m, capped(n))
}

// The operands so far are folded into a formula that ends before `nodes`: the operand at the next element is worked out, or it is the answer.
fn onward(memory: &mut [u32], m: Machine, nodes: usize) -> Stepped
    requires { Turnable memory.old m nodes }
    ensures { Onward memory.old memory.new m nodes result }
{
    let at = m.frames;
    if memory[at + fields::COUNT] == 0 {
        let base = memory[at + fields::BASE] as usize;
        return Ok(Move::Next(closed(m, base, nodes)));
    }
    Ok(Move::Next(again(
        memory,
        m.wrote(nodes),
        phases::NEXT_EACH,
        nodes as u32,
        0,
        modes::EXPAND,
        m.top,
    )))
}

// The operator's frame is gone, and the slot of its name.
fn closed(m: Machine, base: usize, nodes: usize) -> Machine
    requires { (m.frames + frame_words < 2 ^ 32) × (0 < m.depth) }
    ensures { result ≡ closed' m base nodes }
{
    Machine {
        mode: modes::NODES,
        value: 0,
        from: 0,
        scope: m.scope,
        depth: m.depth - 1,
        top: base,
        frames: m.frames + FRAME,
        nodes,
    }
}
