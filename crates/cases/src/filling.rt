// The bytes that a line gives, appended to those of the case.

use super::error::Error;
use super::reading::{byte, number, parted};
use arrayvec::ArrayVec;

// The words about repeating begin with `t`, which no byte has.
pub(crate) fn fill<const ROOM: usize>(
    bytes: &mut ArrayVec<u8, ROOM>,
    words: &[u8],
) -> Result<(), Error> {
    let (given, times) = match words.iter().position(|character| *character == b't') {
        Some(end) => (&words[..end], times_of(&words[end..])?),
        None => (words, 1),
    };
    for _ in 0..times {
        let before = bytes.len();
        for word in given.split(|character| *character == b' ') {
            put(bytes, word)?;
        }
        // A turn that gives no byte gives none again, however often it is asked for.
        if bytes.len() == before {
            break;
        }
    }
    Ok(())
}

fn times_of(words: &[u8]) -> Result<usize, Error> {
    match parted(words, b' ') {
        (b"times", count) => number(count),
        _ => Err(Error::NotUnderstood),
    }
}

// A byte, or the number of a record beside the one that is being filled, in two bytes. Between two spaces there is no word.
fn put<const ROOM: usize>(bytes: &mut ArrayVec<u8, ROOM>, word: &[u8]) -> Result<(), Error> {
    let record = bytes.len() / 8;
    match word {
        b"" => {}
        b"-1" if 0 < record => bytes.try_extend_from_slice(&(record - 1).to_le_bytes()[..2])?,
        b"+1" => bytes.try_extend_from_slice(&(record + 1).to_le_bytes()[..2])?,
        _ => bytes.try_push(byte(word)?)?,
    }
    Ok(())
}
