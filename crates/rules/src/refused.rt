// A refusal of each reason (document 01, "Refusal numbers").

ghost use Rattle.std.specs.Prelude.{◌≡◌};

use super::{Reason, Refusal};

impl Reason {
    pub fn at(self, place: usize) -> Refusal
        ensures { result ≡ record { reason = self; place = place } }
    {
        Refusal {
            reason: self,
            place,
        }
    }
}
