// A case's bytes as a table, compiled.

use super::buffer::{FRESH, show_later, untouched};
use super::case::Case;
use super::error::Error;
use super::reading::{number, parted};
use super::show;
use salnegris::salnegris_compile;
use std::io;

impl Case<'_> {
    // By the word `ROOM`, with a code buffer of so many bytes: at most the longest code, 8,184 bytes, and 16 more. It writes
    // NAME: ANSWER, LEFT, quiet QUIET.
    pub(super) fn compile(&self, rt: &impl Print, room: &[u8]) -> Result<(), Error> {
        self.compile_into(rt, number(room)?)
    }

    // A function's locals are cleared where it begins. So that its buffer is filled and not cleared before, it begins with that.
    fn compile_into(&self, rt: &impl Print, room: usize) -> Result<(), Error> {
        let mut longest = [FRESH; 8200];
        let buffer = longest.get_mut(..room).ok_or(Error::NotUnderstood)?;
        // The C interface has refusal 0 for none.
        let answer = salnegris_compile(&self.bytes, buffer);
        show::name(rt, self.name)?;
        if answer.refusal == 0 {
            compiled(rt, answer.length, buffer)?;
        } else {
            show::refused(rt, answer.refusal, answer.place as usize)?;
            refused(rt, buffer)?;
        }
        print!(rt; ", quiet ")?;
        show::outcome(rt, evaluation::evaluate(&self.bytes))?;
        println!(rt)?;
        Ok(())
    }

    // By the words `FIRST COUNT`, those instructions of the code, in a buffer for the longest.
    pub(super) fn code(&self, rt: &impl Print, words: &[u8]) -> Result<(), Error> {
        let (first, count) = parted(words, b' ');
        self.show_code(rt, number(first)?, number(count)?)
    }

    // It too begins with its buffer.
    fn show_code(&self, rt: &impl Print, first: usize, count: usize) -> Result<(), Error> {
        let mut buffer = [FRESH; 8184];
        salnegris_compile(&self.bytes, &mut buffer);
        let (instructions, _) = buffer.as_chunks::<8>();
        let from_first = instructions.get(first..).ok_or(Error::NotUnderstood)?;
        let asked = from_first.get(..count).ok_or(Error::NotUnderstood)?;
        show::code(rt, asked)?;
        Ok(())
    }
}

// "The code fills the front of the buffer and later bytes stay as they were."
fn compiled(rt: &impl Print, length: u32, buffer: &[u8]) -> io::Result<()> {
    print!(rt; "length {length}")?;
    match buffer.get(8 * length as usize..) {
        Some(later) => show_later(rt, later),
        None => print!(rt; ", buffer TOO SMALL"),
    }
}

// "Refused, it writes nothing."
fn refused(rt: &impl Print, buffer: &[u8]) -> io::Result<()> {
    if untouched(buffer) {
        print!(rt; ", buffer untouched")
    } else {
        print!(rt; ", buffer TOUCHED")
    }
}
