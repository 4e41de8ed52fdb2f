// Runs the reader and the converter on the stored texts, in every form and with rooms one short: refusals 11 to 18 of document 01's table, each limit at and one
// beyond, document 001's components, the starred texts, definitions that use the one before twice, and the deepest texts. What it writes was written by the second converter.
#![tactic(auto)]

use std::io;
use stored_texts::Detail;

fn main(rt: HostRuntime) -> io::Result<()> {
    stored_texts::run(&rt, Detail::Whole)
}
