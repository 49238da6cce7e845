// The compiler: from an accepted table to the bytes of its code (document 01, "The code").

#![tactic(auto)]

mod emit;
mod measure;
mod place;

ghost use Rattle.std.specs.Prelude.{◌≡◌};
ghost use Rattle.rules.specs.Compiling.{compile_answer, compile_leaves};

use rules::{Reason, Refusal};

// The code length in instructions, or the refusal of the tests 1 to 6. The code fills the front of the buffer.
pub fn compile(table: &[u8], code: &mut [u8]) -> Result<usize, Refusal>
    ensures answer { result ≡ compile_answer table.now code.old }
    ensures leaves { code.new ≡ compile_leaves table.now code.old }
{
    let nodes = table::check(table)?;
    let last = nodes - 1;
    let length = measure::measure(table, last);
    if code.len() < 8 * length {
        return Err(Reason::CodeBuffer.at(0));
    }
    emit::emit(table, last, code, 0);
    Ok(length)
}
