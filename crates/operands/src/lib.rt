// How the machine reads stored entries: kind, size and place of an entry, and what its kind says of the expression that stands there.
// The functions are called with entries within the buffer.
#![tactic(auto)]

pub mod entry;

// What evaluation reads and nobody changes: a text, the work buffer with its tokens and entries, and what its names refer to.
#[derive(Clone, Copy)]
pub struct Source<'a> {
    pub text: &'a [u8],
    pub work: &'a [u8],
    pub refs: &'a [u16],
}
