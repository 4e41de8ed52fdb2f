// Comparisons: of two numbers, or of a bus and an identifier in either order.
ghost use Rattle.entries.specs.Kinds as Kind;
ghost use Rattle.machine.specs.Phases as Phase;
ghost use Rattle.machine.specs.States.{Ready, Steps, Topped, Takes, ToppedToWrite, TakesToWrite};
ghost use Rattle.machine.specs.Telling.{is_number, is_bus, is_choice};
ghost use Rattle.operands.specs.Working.{view};
ghost use Rattle.machine.specs.Entering.{Expands, Waiting};
ghost use Rattle.atom_steps.specs.Comparing.{Nameable, NameOf, Comparing, Faces};

use choices::{one_of, widths_are, words_end};
use machine::{Machine, Move, NOTE, Stepped, capped, fields, modes, phases};
use node::{MAX_NODES, Node, Refusal, refusals};
use operands::Source;
use operands::entry::infix_at;
use operators::codes;
use sets::numbers::compare;
use writing::{cap, constant};

// The left operand is worked out first.
pub fn comparison(source: &Source, memory: &mut [u32], m: Machine) -> Stepped
    requires ready { Ready (view source.now) memory.old m }
    requires expands { Expands source.now.work.now m Kind.equality Kind.membership }
    ensures { Steps (view source.now) memory.old memory.new m result }
{
    m.push_first(
        source.work,
        memory,
        phases::LEFT_COMPARED,
        modes::EVALUATE,
        0,
    )
}

// The number of a bus's or an identifier's name; of another value nothing but its mode and its number is kept.
fn name_of(m: Machine) -> usize
    requires { Nameable m }
    ensures { NameOf m result }
{
    if m.mode == modes::BUS {
        return m.from;
    }
    if m.mode == modes::CHOICE {
        return m.from;
    }
    0
}

// The left operand has come: the right one is worked out. A set is compared with nothing, so its elements are not held.
pub fn left(source: &Source, memory: &mut [u32], m: Machine) -> Stepped
    requires topped { Topped (view source.now) memory.old m }
    requires waiting { Waiting memory.old m Phase.left_compared }
    ensures { Takes (view source.now) memory.old memory.new m result }
{
    if m.mode == modes::NODES {
        return Err(Refusal {
            number: refusals::WRONG_TYPE,
            place: 0,
        });
    }
    let name = name_of(m) as u32;
    Ok(Move::Next(m.renew(
        memory,
        phases::RIGHT_COMPARED,
        m.mode,
        m.value,
        name,
        modes::EVALUATE,
    )))
}

// The right operand has come: the left one is held in the frame by its mode and two numbers.
pub fn right(source: &Source, memory: &[u32], table: &mut [u32; MAX_NODES], m: Machine) -> Stepped
    requires topped_to_write { ToppedToWrite (view source.now) memory.now table.old m }
    requires waiting { Waiting memory.now m Phase.right_compared }
    ensures { TakesToWrite (view source.now) memory.now memory.now table.old table.new m result }
{
    if m.mode == modes::NODES {
        return Err(Refusal {
            number: refusals::WRONG_TYPE,
            place: 0,
        });
    }
    let at = m.frames;
    let mode = memory[at + fields::AT];
    if mode == modes::NUMBER {
        return with_number(source, memory, table, m);
    }
    if mode == modes::BUS {
        return with_bus(source, memory, table, m);
    }
    if mode == modes::CHOICE {
        return with_identifier(source, memory, table, m);
    }
    if mode == modes::UNSIZED {
        return Err(Refusal {
            number: refusals::WRONG_WIDTH,
            place: memory[at + fields::VALUE],
        });
    }
    Err(Refusal {
        number: refusals::WRONG_TYPE,
        place: 0,
    })
}

// A number on the left.
fn with_number(source: &Source, memory: &[u32], table: &mut [u32; MAX_NODES], m: Machine) -> Stepped
    requires topped_to_write { ToppedToWrite (view source.now) memory.now table.old m }
    requires comparing { Comparing memory.now m is_number }
    ensures { TakesToWrite (view source.now) memory.now memory.now table.old table.new m result }
{
    if m.mode != modes::NUMBER {
        return Err(Refusal {
            number: refusals::WRONG_TYPE,
            place: 0,
        });
    }
    let at = m.frames;
    let k = memory[at + fields::ENTRY] as usize;
    let a = memory[at + fields::VALUE];
    let operator = infix_at(source.work, k);
    let n = constant(compare(operator, a, m.value), table, m.nodes);
    Ok(Move::Next(m.popped().wrote(capped(n))))
}

// A bus on the left.
fn with_bus(source: &Source, memory: &[u32], table: &mut [u32; MAX_NODES], m: Machine) -> Stepped
    requires topped_to_write { ToppedToWrite (view source.now) memory.now table.old m }
    requires comparing { Comparing memory.now m is_bus }
    ensures { TakesToWrite (view source.now) memory.now memory.now table.old table.new m result }
{
    if m.mode != modes::CHOICE {
        return Err(Refusal {
            number: refusals::WRONG_TYPE,
            place: 0,
        });
    }
    let at = m.frames;
    let place = memory[at + fields::VALUE];
    let bus = memory[at + fields::OTHER] as usize;
    let facing = Facing {
        place,
        bus,
        identifier: m.from,
    };
    against(source, memory, table, m, facing)
}

// An identifier on the left.
fn with_identifier(
    source: &Source,
    memory: &[u32],
    table: &mut [u32; MAX_NODES],
    m: Machine,
) -> Stepped
    requires topped_to_write { ToppedToWrite (view source.now) memory.now table.old m }
    requires comparing { Comparing memory.now m is_choice }
    ensures { TakesToWrite (view source.now) memory.now memory.now table.old table.new m result }
{
    if m.mode == modes::UNSIZED {
        return Err(Refusal {
            number: refusals::WRONG_WIDTH,
            place: m.value,
        });
    }
    if m.mode != modes::BUS {
        return Err(Refusal {
            number: refusals::WRONG_TYPE,
            place: 0,
        });
    }
    let at = m.frames;
    let identifier = memory[at + fields::OTHER] as usize;
    let facing = Facing {
        place: m.value,
        bus: m.from,
        identifier,
    };
    against(source, memory, table, m, facing)
}

// A bus, whose name stands at `place`, and an identifier.
#[derive(Clone, Copy)]
struct Facing {
    place: u32,
    bus: usize,
    identifier: usize,
}

// The one against the other.
fn against(
    source: &Source,
    memory: &[u32],
    table: &mut [u32; MAX_NODES],
    m: Machine,
    facing: Facing,
) -> Stepped
    requires topped_to_write { ToppedToWrite (view source.now) memory.now table.old m }
    requires faces { Faces (view source.now) memory.now table.old m facing.place facing.bus facing.identifier }
    ensures { TakesToWrite (view source.now) memory.now memory.now table.old table.new m result }
{
    let at = m.frames;
    let k = memory[at + fields::ENTRY] as usize;
    let operator = infix_at(source.work, k);
    if codes::UNEQUAL < operator {
        return Err(Refusal {
            number: refusals::WRONG_TYPE,
            place: 0,
        });
    }
    let width = memory[NOTE * facing.bus + fields::NOTE_NUMBER];
    let first = memory[NOTE * facing.bus + fields::NOTE_ADDRESS];
    let entry = memory[NOTE * facing.identifier + fields::NOTE_NUMBER] as usize;
    let end = words_end(source.work, entry);
    if widths_are(source.work, entry + 1, end, width) {
        let n = one_of(
            source.text,
            source.work,
            entry + 1,
            end,
            first,
            table,
            m.nodes,
        );
        if operator == codes::EQUAL {
            return Ok(Move::Next(m.popped().wrote(capped(n))));
        }
        let r = cap(Node::NOT, n, table);
        return Ok(Move::Next(m.popped().wrote(capped(r))));
    }
    Err(Refusal {
        number: refusals::WRONG_WIDTH,
        place: facing.place,
    })
}
