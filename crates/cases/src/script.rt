// The script, line by line.

use super::case::Case;
use super::error::Error;
use super::reading::parted;
use std::io;

// Up to the first line that is not understood. Until a line names a case, what follows the first word of the script's first line
// is the name.
pub(crate) fn carry_out(rt: &impl Print, script: &[u8]) -> io::Result<()> {
    let (first, _) = parted(script, b'\n');
    let (_, name) = parted(first, b' ');
    let mut case = Case::new(name);
    for (above, line) in script.split(|byte| *byte == b'\n').enumerate() {
        match case.obey(rt, line) {
            Ok(()) => {}
            Err(Error::NotUnderstood) => {
                let number = above + 1;
                return println!(rt; "line {number}: not understood");
            }
            Err(Error::Io(error)) => return Err(error),
        }
    }
    Ok(())
}
