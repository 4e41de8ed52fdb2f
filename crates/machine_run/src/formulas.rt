// An entry that is worked out as a formula: which step is taken, by its kind.
ghost use Rattle.std.specs.Prelude.{false, ◌≡◌};
ghost use Rattle.entries.specs.Kinds as Kind;
ghost use Rattle.machine.specs.Came.{Expand};
ghost use Rattle.machine.specs.States.{mode_of, Ready, ReadyToWrite, Steps, Writes};
ghost use Rattle.operands.specs.Working.{view};
ghost use Rattle.machine_run.specs.Choosing.{Kinded};

use atom_steps::bits::index;
use atom_steps::comparisons::comparison;
use atom_steps::membership::membership;
use each_steps::each::over_each;
use each_steps::misfits::misfit;
use entries::kinds;
use formula_steps::connectives::connective;
use formula_steps::leaves::truth;
use machine::{Machine, Stepped};
use name_steps::named::name;
use node::MAX_NODES;
use operands::Source;
use operands::entry::kind_at;
use temporal_steps::repetitions::repetition;
use temporal_steps::unaries::unary;
use temporal_steps::windows::windowing;
use value_steps::parens::paren;

// A name, a constant, a bit of a bus, a parenthesis; a numeral is no formula.
fn atom(
    source: &Source,
    memory: &mut [u32],
    table: &mut [u32; MAX_NODES],
    m: Machine,
    kind: u32,
) -> Stepped
    requires ready_to_write { ReadyToWrite (view source.now) memory.old table.old m }
    requires kinded { Kinded source.now.work.now m (mode_of Expand) kind Kind.named Kind.measure }
    ensures { Writes (view source.now) memory.old memory.new table.old table.new m result }
{
    if kind == kinds::NAMED {
        return name(source, memory, table, m);
    }
    if kind == kinds::NUMERAL {
        return misfit(source, memory, m);
    }
    if kind < kinds::INDEX {
        return truth(source, memory, table, m);
    }
    if kind == kinds::INDEX {
        return index(source, memory, m);
    }
    paren(source, memory, m)
}

// An operator before its operand, a comparison, membership; operators of numbers and sets are no formulas.
fn operator(source: &Source, memory: &mut [u32], m: Machine, kind: u32) -> Stepped
    requires ready { Ready (view source.now) memory.old m }
    requires kinded { Kinded source.now.work.now m (mode_of Expand) kind Kind.measure Kind.binary }
    ensures { Steps (view source.now) memory.old memory.new m result }
{
    if kind < kinds::UNARY {
        return misfit(source, memory, m);
    }
    if kind < kinds::ARITHMETIC {
        return unary(source, memory, m);
    }
    if kind < kinds::EQUALITY {
        return misfit(source, memory, m);
    }
    if kind < kinds::MEMBERSHIP {
        return comparison(source, memory, m);
    }
    membership(source, memory, m)
}

// A connective, `X[n]`, a window, a big operator.
fn joined(source: &Source, memory: &mut [u32], m: Machine, kind: u32) -> Stepped
    requires ready { Ready (view source.now) memory.old m }
    requires kinded { Kinded source.now.work.now m (mode_of Expand) kind Kind.binary (Kind.binder false) }
    ensures { Steps (view source.now) memory.old memory.new m result }
{
    if kind < kinds::NEXTS {
        return connective(source, memory, m);
    }
    if kind == kinds::NEXTS {
        return repetition(source, memory, m);
    }
    if kind < kinds::BIG_NUMBERS {
        return windowing(source, memory, m);
    }
    over_each(source, memory, m)
}

// The entry is worked out as a formula.
pub fn formula(
    source: &Source,
    memory: &mut [u32],
    table: &mut [u32; MAX_NODES],
    m: Machine,
) -> Stepped
    requires ready_to_write { ReadyToWrite (view source.now) memory.old table.old m }
    requires mode_value { m.mode ≡ mode_of Expand }
    ensures { Writes (view source.now) memory.old memory.new table.old table.new m result }
{
    let kind = kind_at(source.work, m.value as usize);
    if kind < kinds::MEASURE {
        return atom(source, memory, table, m, kind);
    }
    if kind < kinds::BINARY {
        return operator(source, memory, m, kind);
    }
    if kind < kinds::BINDER {
        return joined(source, memory, m, kind);
    }
    misfit(source, memory, m)
}
