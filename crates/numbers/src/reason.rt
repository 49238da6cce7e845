// The number of each refusal: the first column of document 01's table ("Refusal numbers").

ghost use Rattle.std.specs.Prelude.{◌≡◌};
ghost use Rattle.rules.specs.Refusals.{refusal_number};

use rules::Reason;

pub fn number_of(reason: Reason) -> u32
    ensures { result ≡ refusal_number reason }
{
    reason as u32
}
