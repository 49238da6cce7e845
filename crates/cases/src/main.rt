// Carries out the script on standard input, a text of cases whose head explains its language, and writes a line of each case:
// what the exported functions answer, and what they left in the buffers lent to them.

#![tactic(auto)]

mod buffer;
mod case;
mod compiling;
mod error;
mod filling;
mod reading;
mod running;
mod script;
mod show;

use std::io;

// All buffers have a fixed size, and the C interface lends them. A script longer than 65,536 bytes would lose its last cases, and
// what is written would lack them.
fn main(rt: HostRuntime) -> io::Result<()> {
    let mut text = [0; 65536];
    let read = rehearse::reading::standard_input(&mut rt.reader(), &mut text)?;
    script::carry_out(&rt, &text[..read])
}
