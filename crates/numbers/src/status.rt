// "A status is 0, blocked, or 1, unblocked": its number, both ways (document 01, "What a recipe may end in").

ghost use Rattle.std.specs.Prelude.{◌≡◌};
ghost use Rattle.rules.specs.Answers.{status_number, status_numbered};

use rules::Status;

pub fn number_of(status: Status) -> u32
    ensures { result ≡ status_number status }
{
    status as u32
}

// Of a number that has passed test 7 or 11. It answers for every number, so it is no `try_from`; and a `From` would not say which
// numbers it is for.
pub fn of_number(number: u32) -> Status
    ensures { result ≡ status_numbered number }
{
    if number == 0 {
        Status::Blocked
    } else {
        Status::Unblocked
    }
}
