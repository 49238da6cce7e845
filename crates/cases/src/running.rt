// A case's bytes as code, run under its schedule.

use super::buffer::{FRESH, show_later, untouched};
use super::case::Case;
use super::error::Error;
use super::reading::{number, parted};
use super::show;
use rules::End;
use salnegris::{AnswerFields, salnegris_run};
use std::io;

impl Case<'_> {
    // By the words `STATUS ROOM`, with a stack buffer of so many bytes: at most the 4,096 of document 01, and 16 more. It writes
    // NAME: ANSWER steps S reached R, STACK.
    pub(super) fn run(&self, rt: &impl Print, words: &[u8]) -> Result<(), Error> {
        let (status, room) = parted(words, b' ');
        let status = u8::try_from(number(status)?).map_err(|_| Error::NotUnderstood)?;
        self.run_from(rt, status, number(room)?)
    }

    // It begins with its buffer, as `compile_into` does.
    fn run_from(&self, rt: &impl Print, status: u8, room: usize) -> Result<(), Error> {
        let mut longest = [FRESH; 4112];
        let stack = longest.get_mut(..room).ok_or(Error::NotUnderstood)?;
        let answer = salnegris_run(status, &self.bytes, &self.recalls, stack);
        show::name(rt, self.name)?;
        answered(rt, answer)?;
        left(rt, stack)?;
        println!(rt)?;
        Ok(())
    }
}

// "The kind of end (0 number, 1 throw, 2 refused)", a number as the C interface has it.
fn answered(rt: &impl Print, answer: AnswerFields) -> io::Result<()> {
    match answer.kind {
        0 => show::end(rt, End::Number(answer.number))?,
        1 => show::end(rt, End::Throw)?,
        _ => show::refused(rt, answer.refusal, answer.place as usize)?,
    }
    print!(rt; " steps {} reached {}", answer.steps, answer.reached)
}

// "Refusals 7 to 12 write nothing. Otherwise the first 4,096 bytes of the stack buffer are zero afterwards and the rest is
// untouched."
fn left(rt: &impl Print, stack: &[u8]) -> io::Result<()> {
    if untouched(stack) {
        return print!(rt; ", stack untouched");
    }
    match stack.split_at_checked(4096) {
        Some((items, later)) if items == [0; 4096].as_slice() => {
            print!(rt; ", stack zero")?;
            show_later(rt, later)
        }
        _ => print!(rt; ", stack WRONG"),
    }
}
