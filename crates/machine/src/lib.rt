// The machine: from the bytes of a code, a status and a schedule of recalls to an answer (document 01, "One step of the
// machine" and "Refusal numbers").

#![tactic(auto)]

mod carry;
mod ends;
mod item;
mod state;
mod step;
mod steps;
mod unwind;

ghost use Rattle.std.specs.Prelude.{◌≡◌};
ghost use Rattle.rules.specs.Running.{run_answer, run_leaves};
ghost use Rattle.machine.specs.Runs.{tried_answer};

use rules::{Answer, Reason, Refusal, Status};
use state::Machine;

// "Running tests 7, 8, 9; then each instruction upward for 10, 11, 12; then it runs." Refused by these it writes nothing; else
// the front of the stack buffer is zero afterwards.
pub fn run(status: u8, code: &[u8], schedule: &[u8], stack: &mut [u8]) -> Answer
    ensures answer { result ≡ run_answer status code.now schedule.now stack.old }
    ensures leaves { stack.new ≡ run_leaves status code.now stack.old }
{
    match tried(status, code, schedule, stack) {
        Ok(answer) => answer,
        // "All others report 0."
        Err(refusal) => Answer {
            outcome: Err(refusal),
            steps: 0,
            reached: 0,
        },
    }
}

// The tests 7 to 12, and the answer of the run where they pass.
fn tried(status: u8, code: &[u8], schedule: &[u8], stack: &mut [u8]) -> Result<Answer, Refusal>
    ensures answer { result ≡ tried_answer status code.now schedule.now stack.old }
    ensures leaves { stack.new ≡ run_leaves status code.now stack.old }
{
    let status = Status::try_from(status)?;
    let front = stack.first_chunk_mut().ok_or(Reason::StackBuffer.at(0))?;
    code::check(code)?;
    let stopped = steps::repeat(status, code, schedule, front, Machine::STEPS);
    record::field::clear(front, Machine::STACK_BYTES);
    Ok(stopped.answer())
}
