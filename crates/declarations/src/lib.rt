// What the declared names of a text stand for: parameters' numbers, widths of buses, the signals by number.
// The functions ask for a checked tree, whose names are resolved, and for a memory and a table of full length: `read` calls `declare` with both.
#![tactic(auto)]

mod constants;
pub mod declare;
mod describe;
mod enumeration;
mod evaluate;
mod sizes;
mod stages;
mod turns;
mod width;

use language::limits;
use ports::TooMany;

// How many entries and declared names a text has.
#[derive(Clone, Copy)]
pub struct Counts {
    pub entries: usize,
    pub names: usize,
}

// How many ports there are, how many of them are inputs, and how many signals they have; by port, the number of its name and the entry of the enumeration that it is
// declared by; by name, the number of its first signal.
#[derive(Clone, Copy)]
pub struct Declarations {
    pub count: usize,
    pub ins: usize,
    pub listed: Result<usize, TooMany>,
    pub order: [u16; limits::MAX_NAMES],
    pub enumerations: [u16; limits::MAX_NAMES],
    pub firsts: [u32; limits::MAX_NAMES],
}
