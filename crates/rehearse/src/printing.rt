// Bytes printed on standard output.

use std::io;

// Ok where all of them are written. The first write that fails or takes nothing is the last, and some may have been written then.
// One that a signal interrupts counts as failed, so std's `write_all`, which repeats it, does not serve.
pub(crate) fn standard_output(rt: &impl Print, bytes: &[u8]) -> io::Result<()> {
    let mut rest = bytes;
    while !rest.is_empty() {
        let count = rt.write_some(rest)?;
        if count == 0 {
            return Err(io::ErrorKind::WriteZero.into());
        }
        rest = &rest[count..];
    }
    Ok(())
}
