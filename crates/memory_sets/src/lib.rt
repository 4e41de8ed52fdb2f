// Sets in one lent memory. A set stands there as its elements, ascending, from an address on; the functions go by addresses, since parts of one slice cannot be
// lent to be read and to be written at once, and those that only read take the same spans. Each promises that all words outside the place it writes to are as before.
// A place that a set is written to, or read at, has room for one element more than the limit: one more stands for every larger size.
#![tactic(auto)]

pub mod moving;
pub mod one;
pub mod sorted;
pub mod two;

// A set's place: its address and how many elements it has.
#[derive(Clone, Copy)]
pub struct Span {
    pub at: usize,
    pub count: usize,
}
