// F[n:m] and G[n:m]: the two numbers first, then the formula.
ghost use Rattle.std.specs.Prelude.{◌≡◌};
ghost use Rattle.node.specs.Kinds.{binary_kind};
ghost use Rattle.language.specs.Expansion.{window_operator};
ghost use Rattle.entries.specs.Kinds as Kind;
ghost use Rattle.machine.specs.Phases as Phase;
ghost use Rattle.machine.specs.States.{Ready, Steps, Topped, Takes, ToppedToWrite, TakesToWrite};
ghost use Rattle.operands.specs.Working.{view};
ghost use Rattle.machine.specs.Entering.{Expands, Waiting};
ghost use Rattle.temporal_steps.specs.Windows.{window_by};

use machine::{Machine, Move, Stepped, capped, fields, modes, phases};
use node::{MAX_NODES, Node, Refusal, refusals};
use operands::Source;
use operands::entry::{place_at, prefix_at};
use writing::nexts;
use writing::window::window;

// The number where the window begins is worked out first.
pub fn windowing(source: &Source, memory: &mut [u32], m: Machine) -> Stepped
    requires ready { Ready (view source.now) memory.old m }
    requires expands { Expands source.now.work.now m Kind.window Kind.big_numbers }
    ensures { Steps (view source.now) memory.old memory.new m result }
{
    m.push_first_of_three(source.work, memory, phases::WINDOW_FROM, modes::EVALUATE)
}

// It has come: the number where the window ends is worked out.
// No twin of the other steps: each clause names a phase of its own, whose law tells what the frame keeps; one function over a phase would take that law along.
pub fn from(source: &Source, memory: &mut [u32], m: Machine) -> Stepped
    requires topped { Topped (view source.now) memory.old m }
    requires waiting { Waiting memory.old m Phase.window_from }
    ensures { Takes (view source.now) memory.old memory.new m result }
{
    if m.mode != modes::NUMBER {
        return Err(Refusal {
            number: refusals::WRONG_TYPE,
            place: 0,
        });
    }
    Ok(Move::Next(m.renew_before(
        source.work,
        memory,
        phases::WINDOW_TO,
        m.value,
        modes::EVALUATE,
    )))
}

// It has come: a window that ends before it begins is refused, else the formula is worked out.
pub fn to(source: &Source, memory: &mut [u32], m: Machine) -> Stepped
    requires topped { Topped (view source.now) memory.old m }
    requires waiting { Waiting memory.old m Phase.window_to }
    ensures { Takes (view source.now) memory.old memory.new m result }
{
    if m.mode != modes::NUMBER {
        return Err(Refusal {
            number: refusals::WRONG_TYPE,
            place: 0,
        });
    }
    let at = m.frames;
    let begin = memory[at + fields::VALUE];
    if m.value < begin {
        let k = memory[at + fields::ENTRY] as usize;
        return Err(Refusal {
            number: refusals::OUT_OF_RANGE,
            place: place_at(source.work, k),
        });
    }
    Ok(Move::Next(m.renew(
        memory,
        phases::WINDOWED,
        m.nodes as u32,
        begin,
        m.value,
        modes::EXPAND,
    )))
}

// F[n:m] is a chain of `||`, G[n:m] of `&&`: by the code of F and G, their nodes' kind.
fn chaining(code: u32) -> u32
    ensures { result ≡ binary_kind (window_operator (window_by code)) }
{
    if code == Node::FINALLY {
        return Node::OR;
    }
    Node::AND
}

// The formula is written: its copies and their chain go behind it, then X as often as the window's first number says.
pub fn windowed(
    source: &Source,
    memory: &[u32],
    table: &mut [u32; MAX_NODES],
    m: Machine,
) -> Stepped
    requires topped_to_write { ToppedToWrite (view source.now) memory.now table.old m }
    requires waiting { Waiting memory.now m Phase.windowed }
    ensures { TakesToWrite (view source.now) memory.now memory.now table.old table.new m result }
{
    if m.mode != modes::NODES {
        return Err(Refusal {
            number: refusals::WRONG_TYPE,
            place: 0,
        });
    }
    let at = m.frames;
    let k = memory[at + fields::ENTRY] as usize;
    let start = memory[at + fields::AT] as usize;
    let begin = memory[at + fields::VALUE] as usize;
    let end = memory[at + fields::OTHER] as usize;
    let operator = chaining(prefix_at(source.work, k));
    let chained = window(operator, Node::NEXT, end - begin, start, m.nodes, table);
    let n = nexts(Node::NEXT, begin, chained, table);
    Ok(Move::Next(m.popped().wrote(capped(n))))
}
