// Recalls by a schedule's bits (document 01, "One step of the machine").

ghost use Rattle.std.specs.Prelude.{◌≡◌};
ghost use Rattle.rules.specs.Machine.{cuts};
ghost use Rattle.rules.specs.Schedule as Schedule;

use rules::Status;

// "If the status is unblocked and the schedule asks for a recall here", at the instruction reached as this number.
#[tactic(auto, unfolding(rules::specs::Machine::cuts))]
pub fn strikes(status: Status, schedule: &[u8], reached: usize) -> bool
    ensures { result ≡ cuts status (Schedule.asks schedule.now reached) }
{
    match status {
        Status::Blocked => false,
        Status::Unblocked => asks(schedule, reached),
    }
}

// Past the schedule's end no recall is asked for.
#[tactic(auto, unfolding(rules::specs::Schedule::asks))]
fn asks(schedule: &[u8], reached: usize) -> bool
    ensures { result ≡ Schedule.asks schedule.now reached }
{
    let byte = schedule.get(reached / 8).copied().unwrap_or(0);
    (byte >> (reached % 8)) % 2 == 1
}
