// Lent buffers, before a call and after it.

use std::io;

// Each byte of a buffer before the call, so that a byte that was written shows.
pub(crate) const FRESH: u8 = 0xA5;

// Whether every byte is still fresh.
pub(crate) fn untouched(bytes: &[u8]) -> bool {
    bytes.iter().all(|byte| *byte == FRESH)
}

// The bytes after those that a call may write.
pub(crate) fn show_later(rt: &impl Print, bytes: &[u8]) -> io::Result<()> {
    if untouched(bytes) {
        print!(rt; ", {} bytes after it untouched", bytes.len())
    } else {
        print!(rt; ", bytes after it TOUCHED")
    }
}
