// What a worker links: the two functions of `salnegris`, exported to C under their names and clauses, so that each stands twice.
// `include/salnegris.h` says the same for a C programmer.

#![tactic(auto)]

ghost use Rattle.std.specs.Prelude.{◌≡◌};
ghost use Rattle.rules.specs.Compiling.{compile_answer, compile_leaves};
ghost use Rattle.rules.specs.Running.{run_answer, run_leaves};
ghost use Rattle.salnegris.specs.Fields.{compiled_fields, answer_fields};

use salnegris::{AnswerFields, CompiledFields};

#[unsafe(no_mangle)]
pub extern "C" fn salnegris_compile(table: &[u8], code: &mut [u8]) -> CompiledFields
    ensures answer { result ≡ compiled_fields (compile_answer table.now code.old) }
    ensures leaves { code.new ≡ compile_leaves table.now code.old }
{
    salnegris::salnegris_compile(table, code)
}

// A status is a byte here, as the C interface has it.
#[unsafe(no_mangle)]
pub extern "C" fn salnegris_run(
    status: u8,
    code: &[u8],
    schedule: &[u8],
    stack: &mut [u8],
) -> AnswerFields
    ensures answer { result ≡ answer_fields
        (run_answer status code.now schedule.now stack.old) }
    ensures leaves { stack.new ≡ run_leaves status code.now stack.old }
{
    salnegris::salnegris_run(status, code, schedule, stack)
}
