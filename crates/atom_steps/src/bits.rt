// A bit of a bus. The name may be a definition's, whose body is worked out to the bus.
ghost use Rattle.entries.specs.Kinds as Kind;
ghost use Rattle.machine.specs.Phases as Phase;
ghost use Rattle.machine.specs.States.{Ready, Steps, ToppedToWrite, TakesToWrite};
ghost use Rattle.operands.specs.Working.{view};
ghost use Rattle.machine.specs.Entering.{Expands, Waiting};
ghost use Rattle.atom_steps.specs.Bits.{Points};

use crate::signals::signal_at;
use language::limits;
use machine::{FRAME, Machine, Move, NOTE, Stepped, Words, capped, fields, frame, modes, phases};
use name_values::sorts;
use node::{MAX_NODES, Refusal, refusals};
use operands::Source;
use operands::entry::place_at;

// The index is worked out first.
pub fn index(source: &Source, memory: &mut [u32], m: Machine) -> Stepped
    requires ready { Ready (view source.now) memory.old m }
    requires expands { Expands source.now.work.now m Kind.index Kind.paren }
    ensures { Steps (view source.now) memory.old memory.new m result }
{
    m.push(memory, phases::INDEXED, modes::EVALUATE, m.value - 1)
}

// The index has come: the name is looked up; a definition's body is worked out where no big operator's name is visible.
pub fn indexed(
    source: &Source,
    memory: &mut [u32],
    table: &mut [u32; MAX_NODES],
    m: Machine,
) -> Stepped
    requires topped_to_write { ToppedToWrite (view source.now) memory.old table.old m }
    requires waiting { Waiting memory.old m Phase.indexed }
    ensures { TakesToWrite (view source.now) memory.old memory.new table.old table.new m result }
{
    if m.mode != modes::NUMBER {
        return Err(Refusal {
            number: refusals::WRONG_TYPE,
            place: 0,
        });
    }
    let at = m.frames;
    let k = memory[at + fields::ENTRY];
    let j = k as usize;
    let r = source.refs[j] as usize;
    if r >= limits::MAX_NAMES {
        return Err(Refusal {
            number: refusals::WRONG_TYPE,
            place: 0,
        });
    }
    if memory[NOTE * r] != sorts::BODY as u32 {
        return bit_of_name(source, memory, table, m, j, r);
    }
    let n = memory[NOTE * r + fields::NOTE_NUMBER];
    frame(
        memory,
        at,
        Words {
            phase: phases::BIT_OF,
            entry: k,
            base: m.top,
            at: m.value as usize,
            count: 0,
            value: m.scope as u32,
            other: 0,
        },
    );
    Ok(Move::Next(Machine {
        mode: modes::EVALUATE,
        value: n,
        from: 0,
        scope: m.depth,
        frames: at,
        ..m
    }))
}

// A declared name that is no definition. A bus that is not yet sized has width 0 and is refused as one that is too narrow.
fn bit_of_name(
    source: &Source,
    memory: &[u32],
    table: &mut [u32; MAX_NODES],
    m: Machine,
    k: usize,
    r: usize,
) -> Stepped
    requires topped_to_write { ToppedToWrite (view source.now) memory.now table.old m }
    requires points { Points source.now.refs.now memory.now m k r }
    ensures { TakesToWrite (view source.now) memory.now memory.now table.old table.new m result }
{
    let sort = memory[NOTE * r];
    if sort == sorts::NOTHING as u32 {
        return Err(Refusal {
            number: refusals::NOT_VISIBLE,
            place: 0,
        });
    }
    if sort != sorts::BUS as u32 {
        return Err(Refusal {
            number: refusals::WRONG_TYPE,
            place: 0,
        });
    }
    let width = memory[NOTE * r + fields::NOTE_NUMBER];
    if width <= m.value {
        return Err(Refusal {
            number: refusals::WRONG_WIDTH,
            place: place_at(source.work, k),
        });
    }
    let n = signal_at(memory, r, m.value, table, m.nodes);
    Ok(Move::Next(m.popped().wrote(capped(n))))
}

// The body of a definition has come: the names of its use are visible again.
pub fn bit(source: &Source, memory: &[u32], table: &mut [u32; MAX_NODES], m: Machine) -> Stepped
    requires topped_to_write { ToppedToWrite (view source.now) memory.now table.old m }
    requires waiting { Waiting memory.now m Phase.bit_of }
    ensures { TakesToWrite (view source.now) memory.now memory.now table.old table.new m result }
{
    if m.mode == modes::UNSIZED {
        return Err(Refusal {
            number: refusals::WRONG_WIDTH,
            place: m.value,
        });
    }
    if m.mode != modes::BUS {
        return Err(Refusal {
            number: refusals::WRONG_TYPE,
            place: 0,
        });
    }
    let at = m.frames;
    let i = memory[at + fields::AT];
    let scope = memory[at + fields::VALUE] as usize;
    let r = m.from;
    let width = memory[NOTE * r + fields::NOTE_NUMBER];
    if width <= i {
        return Err(Refusal {
            number: refusals::WRONG_WIDTH,
            place: m.value,
        });
    }
    let n = signal_at(memory, r, i, table, m.nodes);
    let nodes = capped(n);
    Ok(Move::Next(Machine {
        mode: modes::NODES,
        value: 0,
        from: 0,
        scope,
        frames: at + FRAME,
        nodes,
        ..m
    }))
}
