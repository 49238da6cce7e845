// The C interface: what a worker links, as `salnegris_c` exports it. `include/salnegris.h` says the same for a C programmer.

#![tactic(auto)]

mod fields;

ghost use Rattle.std.specs.Prelude.{◌≡◌};
ghost use Rattle.rules.specs.Compiling.{compile_answer, compile_leaves};
ghost use Rattle.rules.specs.Running.{run_answer, run_leaves};
ghost use Rattle.salnegris.specs.Fields.{compiled_fields, answer_fields};

// What compiling answers, as numbers, which is the C interface: "the code length in instructions, or 0 with the refusal".
#[repr(C)]
#[derive(Drop)]
pub struct CompiledFields {
    pub length: u32,
    pub refusal: u32,
    pub place: u32,
}

// What running answers, as numbers too: "the kind of end (0 number, 1 throw, 2 refused), the number, the refusal, the place, the
// steps taken, and the instructions reached. Fields that don't apply are 0."
#[repr(C)]
#[derive(Drop)]
pub struct AnswerFields {
    pub kind: u32,
    pub number: i32,
    pub refusal: u32,
    pub place: u32,
    pub steps: u32,
    pub reached: u32,
}

pub fn salnegris_compile(table: &[u8], code: &mut [u8]) -> CompiledFields
    ensures answer { result ≡ compiled_fields (compile_answer table.now code.old) }
    ensures leaves { code.new ≡ compile_leaves table.now code.old }
{
    fields::of_compiled(compiler::compile(table, code))
}

// A status is a byte here, as the C interface has it.
pub fn salnegris_run(status: u8, code: &[u8], schedule: &[u8], stack: &mut [u8]) -> AnswerFields
    ensures answer { result ≡ answer_fields
        (run_answer status code.now schedule.now stack.old) }
    ensures leaves { stack.new ≡ run_leaves status code.now stack.old }
{
    fields::of_answer(machine::run(status, code, schedule, stack))
}
