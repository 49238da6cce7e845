// A run: the step repeated until it ends (document 01, "One step of the machine" and "Refusal numbers").

ghost use Rattle.std.specs.Prelude.{◌≡◌};
ghost use Rattle.machine.specs.Runs.{Runnable, Ran, answer_of};

use super::item::Stack;
use super::state::{Machine, Mode};
use rules::{Answer, End, Reason, Refusal, Status};

// Where a run has stopped: the machine as it then is, and what the run came to.
#[derive(Drop)]
pub(crate) struct Stopped {
    pub machine: Machine,
    pub outcome: Result<End, Refusal>,
}

impl Stopped {
    pub(crate) fn answer(self) -> Answer
        ensures { result ≡ answer_of self }
    {
        let machine = self.machine;
        let outcome = self.outcome;
        Answer {
            outcome,
            steps: machine.steps,
            reached: machine.reached,
        }
    }
}

// At most so many steps. "An end or 14 at the length comes before 15, 15 before a step." The loop is left with its end as its
// value. The inner one takes a step, and goes on as long as that unwinds, until the machine runs at an address again.
pub(crate) fn repeat(
    status: Status,
    code: &[u8],
    schedule: &[u8],
    stack: &mut Stack,
    most: usize,
) -> Stopped
    requires { Runnable code.now most }
    ensures { Ran status code.now schedule.now most result stack.new }
{
    let length = code.len() / 8;
    let mut machine = Machine::new(status);
    let mut address = 0;
    let outcome = 'run: loop {
        if length <= address {
            break machine.at_length(stack, address);
        }
        address = loop {
            if machine.steps == most {
                break 'run Err(Reason::Steps.at(0));
            }
            match machine.step(code, schedule, stack) {
                Ok(next) => machine = next,
                Err(reason) => break 'run Err(reason.at(machine.place())),
            }
            match machine.mode {
                Mode::Running(next) => break next,
                Mode::Unwinding => {
                    if machine.height == 0 {
                        break 'run Ok(End::Throw);
                    }
                }
            }
        };
    };
    Stopped { machine, outcome }
}
