// Fields of lent bytes, little-endian (document 01, "The recipe table" and "The code"). Each asks that it lies inside, and those
// that are added up also say how large they are at most, so that a sum of them does not wrap.

ghost use Rattle.std.specs.Prelude.{◌++◌, ◌≡◌, ◌+◌, ◌≤◌, ◌<◌, length, drop, replicate};
ghost use Rattle.std.proofs.lemmas.List.Edits.{sets};
ghost use Rattle.rules.specs.Bytes.{byte_at, half_at, word_at};
ghost use Rattle.rules.specs.CodeBytes.{instruction_record};

pub fn byte(bytes: &[u8], at: usize) -> usize
    requires { at < length bytes.now }
    ensures { (result ≡ byte_at bytes.now at) × (result < 256) }
{
    bytes[at] as usize
}

// Two bytes and four, in a function each: std's `from_le_bytes` is of no trait that a generic one could ask for.
#[tactic(auto, unfolding(rules::specs::Bytes::half_at))]
pub fn half(bytes: &[u8], at: usize) -> usize
    requires { at + 1 < length bytes.now }
    ensures { (result ≡ half_at bytes.now at) × (result < 65536) }
{
    u16::from_le_bytes([bytes[at], bytes[at + 1]]) as usize
}

#[tactic(auto, unfolding(rules::specs::Bytes::half_at, rules::specs::Bytes::word_at))]
pub fn word(bytes: &[u8], at: usize) -> u32
    requires { at + 3 < length bytes.now }
    ensures { result ≡ word_at bytes.now at }
{
    u32::from_le_bytes([bytes[at], bytes[at + 1], bytes[at + 2], bytes[at + 3]])
}

// An instruction's record and an item's have one form: a tag, three zero bytes and an operand. They are stored one by one, since
// `copy_from_slice` of the eight compiles to a test and a loop (compiling took 1.7 times as long).
pub fn put(bytes: &mut [u8], at: usize, tag: u8, operand: u32)
    requires { at + 7 < length bytes.old }
    ensures { bytes.new ≡ sets bytes.old at (instruction_record tag operand) }
{
    let [first, second, third, last] = operand.to_le_bytes();
    bytes[at] = tag;
    bytes[at + 1] = 0;
    bytes[at + 2] = 0;
    bytes[at + 3] = 0;
    bytes[at + 4] = first;
    bytes[at + 5] = second;
    bytes[at + 6] = third;
    bytes[at + 7] = last;
}

// A run leaves nothing of its stack: "the first 4,096 bytes are zero afterwards and the rest is untouched."
pub fn clear(bytes: &mut [u8], count: usize)
    requires { count ≤ length bytes.old }
    ensures { bytes.new ≡ replicate count 0 ++ drop count bytes.old }
{
    bytes[..count].fill(0);
}
