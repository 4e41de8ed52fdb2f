// An entry that is worked out as a value: which step is taken, by its kind.
// Kinds of lines and of big operators' names are no expressions: their entries are not asked for.
ghost use Rattle.std.specs.Prelude.{◌≡◌};
ghost use Rattle.entries.specs.Kinds as Kind;
ghost use Rattle.machine.specs.Came.{Evaluate};
ghost use Rattle.machine.specs.States.{mode_of, Ready, Steps};
ghost use Rattle.operands.specs.Working.{view};
ghost use Rattle.machine_run.specs.Choosing.{Kinded, Collected};

use each_steps::misfits::logic;
use entries::kinds;
use fold_steps::over::over;
use machine::{Machine, Stepped};
use operands::Source;
use operands::entry::kind_at;
use set_steps::bounds::bounds;
use set_steps::braces::listing;
use set_steps::measures::measurement;
use set_steps::ranges::stepping;
use set_steps::widths::width;
use value_steps::combinations::combination;
use value_steps::named::name;
use value_steps::numbers::{calculation, numeral};
use value_steps::parens::paren;

// A name, a numeral, a parenthesis; a constant or a bit of a bus, which is a formula.
fn leaf(source: &Source, memory: &mut [u32], m: Machine, kind: u32) -> Stepped
    requires ready { Ready (view source.now) memory.old m }
    requires kinded { Kinded source.now.work.now m (mode_of Evaluate) kind Kind.named Kind.measure }
    ensures { Steps (view source.now) memory.old memory.new m result }
{
    if kind == kinds::NAMED {
        return name(source, memory, m);
    }
    if kind == kinds::NUMERAL {
        return numeral(source, memory, m);
    }
    if kind == kinds::PAREN {
        return paren(source, memory, m);
    }
    logic(source, memory, m)
}

// An operator of numbers, sets or a bus; or of formulas.
fn operation(source: &Source, memory: &mut [u32], m: Machine, kind: u32) -> Stepped
    requires ready { Ready (view source.now) memory.old m }
    requires kinded { Kinded source.now.work.now m (mode_of Evaluate) kind Kind.measure Kind.equality }
    ensures { Steps (view source.now) memory.old memory.new m result }
{
    if kind < kinds::WIDTH {
        return measurement(source, memory, m);
    }
    if kind == kinds::WIDTH {
        return width(source, memory, m);
    }
    if kind < kinds::ARITHMETIC {
        return logic(source, memory, m);
    }
    if kind < kinds::COMBINATION {
        return calculation(source, memory, m);
    }
    combination(source, memory, m)
}

// A big operator, bounds, braces, a range.
fn collection(source: &Source, memory: &mut [u32], m: Machine, kind: u32) -> Stepped
    requires ready { Ready (view source.now) memory.old m }
    requires collected { Collected source.now.work.now m kind }
    ensures { Steps (view source.now) memory.old memory.new m result }
{
    if kind < kinds::BINDER {
        return over(source, memory, m);
    }
    if kind < kinds::LISTED {
        return bounds(source, memory, m);
    }
    if kind == kinds::LISTED {
        return listing(source, memory, m);
    }
    stepping(source, memory, m)
}

// The entry is worked out as a value.
pub fn value(source: &Source, memory: &mut [u32], m: Machine) -> Stepped
    requires ready { Ready (view source.now) memory.old m }
    requires mode_value { m.mode ≡ mode_of Evaluate }
    ensures { Steps (view source.now) memory.old memory.new m result }
{
    let kind = kind_at(source.work, m.value as usize);
    if kind < kinds::MEASURE {
        return leaf(source, memory, m, kind);
    }
    if kind < kinds::EQUALITY {
        return operation(source, memory, m, kind);
    }
    if kind < kinds::BIG_NUMBERS {
        return logic(source, memory, m);
    }
    collection(source, memory, m, kind)
}
