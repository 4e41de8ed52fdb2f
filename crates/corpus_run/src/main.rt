// Runs the reader and the converter on the texts that the second converter drew from a seed: a line for each. What it writes was written by the second converter.
#![tactic(auto)]

use std::io;
use stored_texts::Detail;

fn main(rt: HostRuntime) -> io::Result<()> {
    stored_texts::run(&rt, Detail::Line)
}
