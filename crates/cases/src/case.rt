// The case that the script is at, and what its lines do with it.

use super::error::Error;
use super::filling::fill;
use super::reading::parted;
use arrayvec::ArrayVec;

// The most that a case has is an instruction more than the longest code, and 1,600 recalls.
#[derive(Drop)]
pub(crate) struct Case<'a> {
    pub(super) name: &'a [u8],
    pub(super) bytes: ArrayVec<u8, 8192>,
    pub(super) recalls: ArrayVec<u8, 200>,
}

impl<'a> Case<'a> {
    pub(crate) fn new(name: &'a [u8]) -> Self {
        Case {
            name,
            bytes: ArrayVec::new(),
            recalls: ArrayVec::new(),
        }
    }

    // A line by its first word. There is no word before the space that bytes begin with.
    pub(crate) fn obey(&mut self, rt: &impl Print, line: &'a [u8]) -> Result<(), Error> {
        let (command, words) = parted(line, b' ');
        match command {
            b"#" => {}
            b"" => fill(&mut self.bytes, words)?,
            b"case" => {
                self.bytes.clear();
                self.rename(words);
            }
            b"again" => self.rename(words),
            b"recalls" => fill(&mut self.recalls, words)?,
            b"compile" => self.compile(rt, words)?,
            b"code" => self.code(rt, words)?,
            b"run" => self.run(rt, words)?,
            _ => return Err(Error::NotUnderstood),
        }
        Ok(())
    }

    // The bytes stay. A case is not made anew, since its room would be written over for each line that names one.
    fn rename(&mut self, name: &'a [u8]) {
        self.name = name;
        self.recalls.clear();
    }
}
