// Something has come: which step is taken, by the phase of the last frame.
ghost use Rattle.machine.specs.Phases as Phase;
ghost use Rattle.machine.specs.States.{Topped, ToppedToWrite, Takes, TakesToWrite};
ghost use Rattle.operands.specs.Working.{view};
ghost use Rattle.machine_run.specs.Choosing.{Phased};

use atom_steps::{bits, comparisons, membership};
use each_steps::each;
use fold_steps::{numbers as folded_numbers, over, set_folds};
use formula_steps::connectives;
use machine::{Machine, Stepped, phases};
use name_steps::named as named_formulas;
use node::MAX_NODES;
use operands::Source;
use set_steps::{bounds, braces, measures, ranges, widths};
use temporal_steps::{repetitions, unaries, windows};
use value_steps::{combinations, named, numbers};

// An operand of numbers, of sets, a bus that is measured.
// A test for each phase and no table of functions: the phase is a word of the lent memory, and each step's contract names it.
fn operation(source: &Source, memory: &mut [u32], m: Machine, phase: u32) -> Stepped
    requires topped { Topped (view source.now) memory.old m }
    requires phased { Phased memory.old m phase Phase.measured Phase.low }
    ensures { Takes (view source.now) memory.old memory.new m result }
{
    if phase == phases::MEASURED {
        return measures::measured(source, memory, m);
    }
    if phase == phases::WIDTH {
        return widths::sized(source, memory, m);
    }
    if phase == phases::LEFT {
        return numbers::left(source, memory, m);
    }
    if phase == phases::RIGHT {
        return numbers::right(source, memory, m);
    }
    if phase == phases::LEFT_SET {
        return combinations::left(source, memory, m);
    }
    combinations::right(source, memory, m)
}

// A number of bounds, of braces, of a range.
fn collection(source: &Source, memory: &mut [u32], m: Machine, phase: u32) -> Stepped
    requires topped { Topped (view source.now) memory.old m }
    requires phased { Phased memory.old m phase Phase.low Phase.over }
    ensures { Takes (view source.now) memory.old memory.new m result }
{
    if phase == phases::LOW {
        return bounds::low(source, memory, m);
    }
    if phase == phases::HIGH {
        return bounds::high(source, memory, m);
    }
    if phase == phases::ELEMENTS {
        return braces::element(source, memory, m);
    }
    if phase == phases::RANGE_FIRST {
        return ranges::first(source, memory, m);
    }
    if phase == phases::RANGE_SECOND {
        return ranges::second(source, memory, m);
    }
    ranges::last(source, memory, m)
}

// The set of a big operator, a number or a set that it folds; the value of a definition.
fn fold(source: &Source, memory: &mut [u32], m: Machine, phase: u32) -> Stepped
    requires topped { Topped (view source.now) memory.old m }
    requires phased { Phased memory.old m phase Phase.over Phase.capping }
    ensures { Takes (view source.now) memory.old memory.new m result }
{
    if phase == phases::OVER {
        return over::elements(source, memory, m);
    }
    if phase == phases::FIRST_NUMBER {
        return folded_numbers::first(source, memory, m);
    }
    if phase == phases::NEXT_NUMBER {
        return folded_numbers::next(source, memory, m);
    }
    if phase == phases::FIRST_SET {
        return set_folds::first(source, memory, m);
    }
    if phase == phases::NEXT_SET {
        return set_folds::next(source, memory, m);
    }
    named::keep(source, memory, m)
}

// An operand of a formula, of a comparison, of membership.
fn connective(
    source: &Source,
    memory: &mut [u32],
    table: &mut [u32; MAX_NODES],
    m: Machine,
    phase: u32,
) -> Stepped
    requires topped_to_write { ToppedToWrite (view source.now) memory.old table.old m }
    requires phased { Phased memory.old m phase Phase.capping Phase.indexed }
    ensures { TakesToWrite (view source.now) memory.old memory.new table.old table.new m result }
{
    if phase == phases::CAPPING {
        return unaries::capping(source, memory, table, m);
    }
    if phase == phases::LEFT_FORMULA {
        return connectives::left(source, memory, m);
    }
    if phase == phases::RIGHT_FORMULA {
        return connectives::right(source, memory, table, m);
    }
    if phase == phases::LEFT_COMPARED {
        return comparisons::left(source, memory, m);
    }
    if phase == phases::RIGHT_COMPARED {
        return comparisons::right(source, memory, table, m);
    }
    if phase == phases::MEMBER {
        return membership::number(source, memory, m);
    }
    membership::among(source, memory, table, m)
}

// The number of a bit; a number or the formula of `X[n]` and of a window.
fn window(
    source: &Source,
    memory: &mut [u32],
    table: &mut [u32; MAX_NODES],
    m: Machine,
    phase: u32,
) -> Stepped
    requires topped_to_write { ToppedToWrite (view source.now) memory.old table.old m }
    requires phased { Phased memory.old m phase Phase.indexed Phase.over_each }
    ensures { TakesToWrite (view source.now) memory.old memory.new table.old table.new m result }
{
    if phase == phases::INDEXED {
        return bits::indexed(source, memory, table, m);
    }
    if phase == phases::REPEAT {
        return repetitions::number(source, memory, m);
    }
    if phase == phases::REPEATED {
        return repetitions::repeated(source, memory, table, m);
    }
    if phase == phases::WINDOW_FROM {
        return windows::from(source, memory, m);
    }
    if phase == phases::WINDOW_TO {
        return windows::to(source, memory, m);
    }
    windows::windowed(source, memory, table, m)
}

// The set of a big operator of formulas, a formula that it joins; a definition as a formula, or as the bus of a bit.
fn every(
    source: &Source,
    memory: &mut [u32],
    table: &mut [u32; MAX_NODES],
    m: Machine,
    phase: u32,
) -> Stepped
    requires topped_to_write { ToppedToWrite (view source.now) memory.old table.old m }
    requires phased { Phased memory.old m phase Phase.over_each Phase.count }
    ensures { TakesToWrite (view source.now) memory.old memory.new table.old table.new m result }
{
    if phase == phases::OVER_EACH {
        return each::elements(source, memory, table, m);
    }
    if phase == phases::FIRST_EACH {
        return each::first(source, memory, m);
    }
    if phase == phases::NEXT_EACH {
        return each::next(source, memory, table, m);
    }
    if phase == phases::KEEP_FORMULA {
        return named_formulas::keep(source, memory, m);
    }
    bits::bit(source, memory, table, m)
}

// The last frame takes what has come.
pub fn take(
    source: &Source,
    memory: &mut [u32],
    table: &mut [u32; MAX_NODES],
    m: Machine,
) -> Stepped
    requires { ToppedToWrite (view source.now) memory.old table.old m }
    ensures { TakesToWrite (view source.now) memory.old memory.new table.old table.new m result }
{
    let at = m.frames;
    let phase = memory[at];
    if phase < phases::LOW {
        return operation(source, memory, m, phase);
    }
    if phase < phases::OVER {
        return collection(source, memory, m, phase);
    }
    if phase < phases::CAPPING {
        return fold(source, memory, m, phase);
    }
    if phase < phases::INDEXED {
        return connective(source, memory, table, m, phase);
    }
    if phase < phases::OVER_EACH {
        return window(source, memory, table, m, phase);
    }
    every(source, memory, table, m, phase)
}
