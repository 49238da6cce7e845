// Lane counts in 32 bits (document 01, "What a recipe may end in").

ghost use Rattle.std.specs.Prelude.{◌≡◌};
ghost use Rattle.rules.specs.Number as number;

// 32 bits read as a signed number.
pub fn signed(word: u32) -> i32
    ensures { result ≡ number.signed word }
{
    word.cast_signed()
}

// The 32 bits of a signed number.
pub fn residue(n: i32) -> u32
    ensures { result ≡ number.residue n }
{
    n.cast_unsigned()
}

// "The sum of two lane counts is taken modulo 2^32 and read as a signed 32-bit number": it wraps on purpose.
pub fn sum(n: i32, m: i32) -> i32
    ensures { result ≡ number.sum n m }
{
    n.wrapping_add(m)
}
