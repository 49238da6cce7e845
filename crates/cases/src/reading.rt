// Words of a line, and the numbers that they spell.

ghost use Rattle.std.specs.Prelude.{◌<◌, IfOk};

use super::error::Error;

// The text before the first such byte, and after it; without one, all of it, and nothing. Slices have no `split_once`.
pub(crate) fn parted(text: &[u8], byte: u8) -> (&[u8], &[u8]) {
    match text.iter().position(|b| *b == byte) {
        Some(place) => (&text[..place], &text[place + 1..]),
        None => (text, &[]),
    }
}

// A number in decimal digits: six at most, but for zeros before them. (`parse` takes a plus sign too.)
pub(crate) fn number(word: &[u8]) -> Result<usize, Error> {
    str::from_utf8(word)
        .ok()
        .and_then(|text| text.parse().ok())
        .filter(|number| *number < 1_000_000 && !word.starts_with(b"+"))
        .ok_or(Error::NotUnderstood)
}

// A byte in two hexadecimal digits.
pub(crate) fn byte(word: &[u8]) -> Result<u8, Error> {
    match word {
        [high, low] => Ok(16 * digit(*high)? + digit(*low)?),
        _ => Err(Error::NotUnderstood),
    }
}

// What a hexadecimal digit stands for. (`to_digit` and `from_str_radix` take capitals too.)
fn digit(character: u8) -> Result<u8, Error>
    ensures { IfOk result (λ d. d < 16) }
{
    match character {
        b'0'..=b'9' => Ok(character - b'0'),
        b'a'..=b'f' => Ok(character - b'a' + 10),
        _ => Err(Error::NotUnderstood),
    }
}
