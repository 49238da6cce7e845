// What ends a script before its last line.

use arrayvec::CapacityError;
use std::io;

#[derive(Drop)]
pub(crate) enum Error {
    // The line, or there is no room for what it gives or asks for.
    NotUnderstood,
    Io(io::Error),
}

impl<T: Drop> From<CapacityError<T>> for Error {
    fn from(_full: CapacityError<T>) -> Error {
        Error::NotUnderstood
    }
}

impl From<io::Error> for Error {
    fn from(error: io::Error) -> Error {
        Error::Io(error)
    }
}
