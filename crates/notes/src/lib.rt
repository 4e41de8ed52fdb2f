// What is noted of declared names before any is worked out, and the entries that declare parameters, inputs and outputs.
// The functions ask for a resolved tree and tables of full length, as `declarations` has them.
#![tactic(auto)]

pub mod choose;
pub mod first;

// What is noted of a name: its sort, and a number.
// The sort is a number (name_values::sorts), as tables of bytes that the caller lends hold it.
#[derive(Clone, Copy)]
pub struct Note {
    pub sort: u8,
    pub number: u32,
}
