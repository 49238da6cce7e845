// What is written of an answer, on standard output. No `Display`: one of ends and refusals would stand beside the types, and
// `rules` writes nothing.

use rules::{End, Refusal};
use std::io;

// The name of a case, which need not be UTF-8, before what is said of it.
pub(crate) fn name(rt: &impl Print, name: &[u8]) -> io::Result<()> {
    rt.write_all(name)?;
    print!(rt; ": ")
}

// An end, or a refusal in place of it.
pub(crate) fn outcome(rt: &impl Print, outcome: Result<End, Refusal>) -> io::Result<()> {
    match outcome {
        Ok(ended) => end(rt, ended),
        Err(refusal) => {
            let number = numbers::reason::number_of(refusal.reason);
            refused(rt, number, refusal.place)
        }
    }
}

pub(crate) fn end(rt: &impl Print, end: End) -> io::Result<()> {
    match end {
        End::Number(n) => print!(rt; "number {n}"),
        End::Throw => print!(rt; "throw"),
    }
}

pub(crate) fn refused(rt: &impl Print, refusal: u32, place: usize) -> io::Result<()> {
    print!(rt; "refused {refusal} at {place}")
}

// Instructions of a code, a line each.
pub(crate) fn code(rt: &impl Print, instructions: &[[u8; 8]]) -> io::Result<()> {
    for instruction in instructions {
        print!(rt; " ")?;
        for byte in instruction {
            print!(rt; " {byte:02x}")?;
        }
        println!(rt)?;
    }
    Ok(())
}
