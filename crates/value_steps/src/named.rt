// Names: a big operator's element, or what is noted of a declared name. A definition's body is worked out, unless its value is kept.
ghost use Rattle.std.specs.Prelude.{◌≡◌, ◌+◌, ◌≤◌, ◌<◌, ◌^◌, length};
ghost use Rattle.language.specs.Limits.{max_names};
ghost use Rattle.entries.specs.Kinds as Kind;
ghost use Rattle.machine.specs.Phases as Phase;
ghost use Rattle.machine.specs.Memory.{first_kept, frame_words};
ghost use Rattle.machine.specs.States.{Ready, Steps, Topped, Takes};
ghost use Rattle.machine.specs.Telling.{is_set};
ghost use Rattle.operands.specs.Working.{view};
ghost use Rattle.machine.specs.Entering.{Evaluates, Waiting};
ghost use Rattle.value_steps.specs.Moves.{released as released'};
ghost use Rattle.value_steps.specs.Named.{Refers, noting};

use language::limits;
use machine::{FRAME, FREE_WORD, Machine, Move, NOTE, SLOTS_WORD, Stepped, fields, modes, phases};
use memory_sets::moving::lower;
use name_values::sorts;
use node::{Refusal, refusals};
use operands::Source;
use operands::entry::place_at;

pub fn name(source: &Source, memory: &mut [u32], m: Machine) -> Stepped
    requires ready { Ready (view source.now) memory.old m }
    requires evaluates { Evaluates source.now.work.now m Kind.named Kind.numeral }
    ensures { Steps (view source.now) memory.old memory.new m result }
{
    let k = m.value as usize;
    let r = source.refs[k] as usize;
    if r >= limits::MAX_NAMES {
        let i = m.scope + (r - limits::MAX_NAMES);
        return Ok(Move::Next(m.came(modes::NUMBER, memory[i], 0)));
    }
    let at = NOTE * r;
    let sort = memory[at];
    let n = memory[at + fields::NOTE_NUMBER];
    if sort == sorts::BODY as u32 {
        return m.enclose(memory, phases::KEEP_VALUE, 0, r, modes::EVALUATE, n);
    }
    noted(source, memory, m, r)
}

// A declared name that is no definition, or one whose value is kept.
fn noted(source: &Source, memory: &[u32], m: Machine, r: usize) -> Stepped
    requires ready { Ready (view source.now) memory.now m }
    requires refers { Refers source.now.work.now source.now.refs.now memory.now m r }
    ensures { Steps (view source.now) memory.now memory.now m result }
{
    let at = NOTE * r;
    let sort = memory[at];
    let n = memory[at + fields::NOTE_NUMBER];
    if sort == sorts::NUMBER as u32 {
        return Ok(Move::Next(m.came(modes::NUMBER, n, 0)));
    }
    if sort == sorts::SET as u32 {
        return Ok(Move::Next(m.came(modes::SET, n, memory[at + fields::NOTE_ADDRESS] as usize)));
    }
    if sort == sorts::BUS as u32 {
        let place = place_at(source.work, m.value as usize);
        if n == 0 {
            return Ok(Move::Next(m.came(modes::UNSIZED, place, 0)));
        }
        return Ok(Move::Next(m.came(modes::BUS, place, r)));
    }
    if sort == sorts::SIGNAL as u32 {
        return Ok(Move::Next(m.came(modes::LOGIC, 0, 0)));
    }
    if sort == sorts::IDENTIFIER as u32 {
        return Ok(Move::Next(m.came(modes::CHOICE, 0, r)));
    }
    Err(Refusal {
        number: refusals::NOT_VISIBLE,
        place: 0,
    })
}

// The frame of a definition is gone, and the names of its use are visible again.
pub fn released(m: Machine, scope: usize) -> Machine
    requires { m.frames + frame_words < 2 ^ 32 }
    ensures { result ≡ released' m scope }
{
    Machine {
        scope,
        frames: m.frames + FRAME,
        ..m
    }
}

// What is noted of definition r in place of its body: the sort of its value, a number, an address.
fn note(memory: &mut [u32], r: usize, sort: u32, n: u32, address: usize)
    requires { (r < max_names) × (first_kept ≤ length memory.old) × (address < 2 ^ 32) }
    ensures { memory.new ≡ noting memory.old r sort n address }
{
    let i = NOTE * r;
    memory[i] = sort;
    memory[i + fields::NOTE_NUMBER] = n;
    memory[i + fields::NOTE_ADDRESS] = address as u32;
}

// A definition's body has come to a value: a number or a set is kept.
pub fn keep(source: &Source, memory: &mut [u32], m: Machine) -> Stepped
    requires topped { Topped (view source.now) memory.old m }
    requires waiting { Waiting memory.old m Phase.keep_value }
    ensures { Takes (view source.now) memory.old memory.new m result }
{
    if m.mode == modes::SET {
        return keep_set(source, memory, m);
    }
    let at = m.frames;
    let scope = memory[at + fields::VALUE] as usize;
    if m.mode != modes::NUMBER {
        return Ok(Move::Next(released(m, scope)));
    }
    let r = memory[at + fields::OTHER] as usize;
    note(memory, r, sorts::NUMBER as u32, m.value, 0);
    Ok(Move::Next(released(m, scope)))
}

// A set is copied behind the kept ones, unless it is one of them; where there is no room for it nothing is kept.
fn keep_set(source: &Source, memory: &mut [u32], m: Machine) -> Stepped
    requires topped { Topped (view source.now) memory.old m }
    requires waiting { Waiting memory.old m Phase.keep_value }
    requires mode_value { m.mode ≡ is_set }
    ensures { Takes (view source.now) memory.old memory.new m result }
{
    let at = m.frames;
    let scope = memory[at + fields::VALUE] as usize;
    let r = memory[at + fields::OTHER] as usize;
    let free = memory[FREE_WORD] as usize;
    if m.from < free {
        note(memory, r, sorts::SET as u32, m.value, m.from);
        return Ok(Move::Next(released(m, scope)));
    }
    let end = free + m.value as usize;
    if (memory[SLOTS_WORD] as usize) < end {
        return Ok(Move::Next(released(m, scope)));
    }
    lower(memory, m.from, free, m.value as usize);
    memory[FREE_WORD] = end as u32;
    note(memory, r, sorts::SET as u32, m.value, free);
    Ok(Move::Next(released(m.came(m.mode, m.value, free), scope)))
}
