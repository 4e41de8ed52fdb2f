// The elements of a big operator's set, one after the other.
ghost use Rattle.std.specs.Prelude.{◌+◌, ◌-◌, ◌≤◌, ◌<◌, ◌^◌, length, get_or};
ghost use Rattle.machine.specs.Memory.{frame_words};
ghost use Rattle.machine.specs.Moves.{above as above'};
ghost use Rattle.fold_steps.specs.Turning.{Turns, Beginning, begun, Continuing, words_at, next_at};
ghost use Rattle.machine.specs.Fields.{at_field};

use machine::{Machine, Words, fields, frame};

// An element goes into the slot of the operator's name, the frame is written anew, and the operand, at the entry before the operator's, is worked out above `top`.
pub fn turn(
    memory: &mut [u32],
    m: Machine,
    w: Words,
    slot: usize,
    element: u32,
    mode: u32,
    top: usize,
) -> Machine
    requires frame_words_in_bounds { (m.frames + frame_words ≤ length memory.old) × (slot < length memory.old) }
    requires base_bound { (w.base < 2 ^ 32) × ((w.at < 2 ^ 32) × (w.other < 2 ^ 32)) }
    requires w_nonzero { 0 < w.entry }
    ensures { Turns memory.old memory.new m w slot element mode top result }
{
    let at = m.frames;
    memory[slot] = element;
    frame(memory, at, w);
    Machine {
        mode,
        value: w.entry - 1,
        from: 0,
        depth: slot + 1,
        top,
        frames: at,
        ..m
    }
}

// A set has come: its first element. The frame holds the others, where they stand.
pub fn begin(memory: &mut [u32], m: Machine, phase: u32, mode: u32) -> Machine
    requires { Beginning memory.old m }
    ensures { Turns memory.old memory.new m (begun memory.old m phase) m.depth (get_or memory.old m.from 0) mode (above' m) result }
{
    let at = m.frames;
    let from = m.from;
    let w = Words {
        phase,
        entry: memory[at + fields::ENTRY],
        base: m.top,
        at: from + 1,
        count: m.value - 1,
        value: 0,
        other: 0,
    };
    let element = memory[from];
    turn(memory, m, w, m.depth, element, mode, m.above())
}

// The next element that the last frame holds, while the frame keeps two numbers.
pub fn again(
    memory: &mut [u32],
    m: Machine,
    phase: u32,
    value: u32,
    other: usize,
    mode: u32,
    top: usize,
) -> Machine
    requires { Continuing memory.old m other }
    ensures { Turns memory.old memory.new m (next_at (words_at memory.old m.frames) phase value other) (m.depth - 1)
        (get_or memory.old (get_or memory.old (m.frames + at_field) 0) 0) mode top result }
{
    let at = m.frames;
    let rest = memory[at + fields::AT] as usize;
    let w = Words {
        phase,
        entry: memory[at + fields::ENTRY],
        base: memory[at + fields::BASE] as usize,
        at: rest + 1,
        count: memory[at + fields::COUNT] - 1,
        value,
        other,
    };
    let element = memory[rest];
    turn(memory, m, w, m.depth - 1, element, mode, top)
}
