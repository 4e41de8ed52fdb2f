// Names in a formula's place: a signal, or a definition.
ghost use Rattle.entries.specs.Kinds as Kind;
ghost use Rattle.machine.specs.Phases as Phase;
ghost use Rattle.machine.specs.Entering.{Expands, Waiting};
ghost use Rattle.machine.specs.States.{ReadyToWrite, Writes, Topped, Takes};
ghost use Rattle.operands.specs.Working.{view};
ghost use Rattle.name_steps.specs.Named.{Defined};

use crate::marks::{again, mark};
use atom_steps::signals::signal_at;
use language::limits;
use machine::{Machine, Move, NOTE, Stepped, capped, fields, modes, phases};
use name_values::sorts;
use node::{MAX_NODES, Refusal, refusals};
use operands::Source;
use value_steps::named::released;

pub fn name(
    source: &Source,
    memory: &mut [u32],
    table: &mut [u32; MAX_NODES],
    m: Machine,
) -> Stepped
    requires ready_to_write { ReadyToWrite (view source.now) memory.old table.old m }
    requires expands { Expands source.now.work.now m Kind.named Kind.numeral }
    ensures { Writes (view source.now) memory.old memory.new table.old table.new m result }
{
    let k = m.value as usize;
    let r = source.refs[k] as usize;
    if r >= limits::MAX_NAMES {
        return Err(Refusal {
            number: refusals::WRONG_TYPE,
            place: 0,
        });
    }
    let at = NOTE * r;
    let sort = memory[at];
    if sort == sorts::BODY as u32 {
        return defined(source, memory, table, m, r);
    }
    if sort == sorts::SIGNAL as u32 {
        let n = signal_at(memory, r, 0, table, m.nodes);
        return Ok(Move::Next(m.wrote(capped(n))));
    }
    if sort == sorts::NOTHING as u32 {
        return Err(Refusal {
            number: refusals::NOT_VISIBLE,
            place: 0,
        });
    }
    Err(Refusal {
        number: refusals::WRONG_TYPE,
        place: 0,
    })
}

// A definition: its nodes once more where they stand already, else its body is worked out.
fn defined(
    source: &Source,
    memory: &mut [u32],
    table: &mut [u32; MAX_NODES],
    m: Machine,
    r: usize,
) -> Stepped
    requires ready_to_write { ReadyToWrite (view source.now) memory.old table.old m }
    requires defined { Defined source.now.work.now source.now.refs.now memory.old m r }
    ensures { Writes (view source.now) memory.old memory.new table.old table.new m result }
{
    let at = NOTE * r;
    let mark = memory[at + fields::NOTE_MARK];
    if mark != 0 {
        let n = again(mark, table, m.nodes);
        return Ok(Move::Next(m.wrote(capped(n))));
    }
    let n = memory[at + fields::NOTE_NUMBER];
    m.enclose(memory, phases::KEEP_FORMULA, m.nodes, r, modes::EXPAND, n)
}

// A definition's body has come to a formula: it is marked where its nodes stand.
pub fn keep(source: &Source, memory: &mut [u32], m: Machine) -> Stepped
    requires topped { Topped (view source.now) memory.old m }
    requires waiting { Waiting memory.old m Phase.keep_formula }
    ensures { Takes (view source.now) memory.old memory.new m result }
{
    let at = m.frames;
    let scope = memory[at + fields::VALUE] as usize;
    if m.mode != modes::NODES {
        return Ok(Move::Next(released(m, scope)));
    }
    let from = memory[at + fields::AT] as usize;
    let r = memory[at + fields::OTHER] as usize;
    memory[NOTE * r + fields::NOTE_MARK] = mark(from, m.nodes);
    Ok(Move::Next(released(m, scope)))
}
