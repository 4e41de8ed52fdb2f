// Big operators of sets: `(*)[..]` and `(+)[..]`. The set that was folded is a kept one, or stands behind the elements that are left.
ghost use Rattle.std.specs.Prelude.{◌≡◌, ◌+◌, ◌-◌, ◌<◌, ◌^◌, Ok};
ghost use Rattle.machine.specs.Phases as Phase;
ghost use Rattle.machine.specs.States.{Topped, Takes};
ghost use Rattle.machine.specs.Telling.{is_set};
ghost use Rattle.machine.specs.declared.Move.TheVariants.{Next};
ghost use Rattle.machine.specs.Memory.{frame_words};
ghost use Rattle.operands.specs.Working.{view};
ghost use Rattle.machine.specs.Entering.{Waiting};
ghost use Rattle.fold_steps.specs.Turning.{unbound};
ghost use Rattle.fold_steps.specs.FoldingSets.{Behind, Foldable, Onward};

use crate::turning::again;
use language::limits;
use machine::{FRAME, Machine, Move, Stepped, fields, modes, phases};
use memory_sets::Span;
use memory_sets::moving::lower;
use memory_sets::two::combine;
use node::{Refusal, refusals};
use operands::Source;
use operands::entry::{place_at, prefix_at};

// Where the elements that are left end, if they stand among the frame's values; the values' beginning if they are those of a kept set.
fn behind(base: usize, rest: usize, count: usize) -> usize
    requires { rest + count < 2 ^ 33 }
    ensures { Behind base rest count result }
{
    if rest < base {
        return base;
    }
    rest + count
}

// The set is the answer, and the name's slot is free again.
fn ended(m: Machine, from: usize, n: u32, base: usize) -> Stepped
    requires { (m.frames + frame_words < 2 ^ 32) × (0 < m.depth) }
    ensures { result ≡ Ok (Next (unbound m is_set n from base)) }
{
    Ok(Move::Next(Machine {
        mode: modes::SET,
        value: n,
        from,
        depth: m.depth - 1,
        top: base,
        frames: m.frames + FRAME,
        ..m
    }))
}

// A set of n elements at `from` is folded: the answer where no element is left.
fn onward(memory: &mut [u32], m: Machine, from: usize, n: u32) -> Stepped
    requires { Foldable memory.old m from n }
    ensures { Onward memory.old memory.new m from n result }
{
    let at = m.frames;
    let base = memory[at + fields::BASE] as usize;
    let rest = memory[at + fields::AT] as usize;
    let count = memory[at + fields::COUNT] as usize;
    if count == 0 {
        if from < base {
            return ended(m, from, n, base);
        }
        lower(memory, from, base, n as usize);
        return ended(m, base, n, base);
    }
    let low = behind(base, rest, count);
    if from < base {
        return Ok(Move::Next(again(memory, m, phases::NEXT_SET, n, from, modes::EVALUATE, low)));
    }
    lower(memory, from, low, n as usize);
    Ok(Move::Next(again(
        memory,
        m,
        phases::NEXT_SET,
        n,
        low,
        modes::EVALUATE,
        low + n as usize,
    )))
}

// The operand at the first element has come.
pub fn first(source: &Source, memory: &mut [u32], m: Machine) -> Stepped
    requires topped { Topped (view source.now) memory.old m }
    requires waiting { Waiting memory.old m Phase.first_set }
    ensures { Takes (view source.now) memory.old memory.new m result }
{
    if m.mode != modes::SET {
        return Err(Refusal {
            number: refusals::WRONG_TYPE,
            place: 0,
        });
    }
    onward(memory, m, m.from, m.value)
}

// The operand at a further element has come: the result is made below the frames.
pub fn next(source: &Source, memory: &mut [u32], m: Machine) -> Stepped
    requires topped { Topped (view source.now) memory.old m }
    requires waiting { Waiting memory.old m Phase.next_set }
    ensures { Takes (view source.now) memory.old memory.new m result }
{
    if m.mode != modes::SET {
        return Err(Refusal {
            number: refusals::WRONG_TYPE,
            place: 0,
        });
    }
    let at = m.frames;
    let k = memory[at + fields::ENTRY] as usize;
    let folded = Span {
        at: memory[at + fields::OTHER] as usize,
        count: memory[at + fields::VALUE] as usize,
    };
    let operand = Span {
        at: m.from,
        count: m.value as usize,
    };
    let to = at - limits::SET_ROOM;
    let operator = prefix_at(source.work, k);
    let place = place_at(source.work, k);
    let n = combine(place, operator, memory, folded, operand, to)?;
    onward(memory, m, to, n)
}
