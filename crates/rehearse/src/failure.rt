// Why no line is written, or not all of it.

ghost use Rattle.std.specs.Prelude.{Some};
ghost use Rattle.rehearse.specs.Failure.{sentence};

use std::fmt;

#[derive(Clone, Copy)]
pub(crate) enum Failure {
    Unread,
    Unwritten,
}

impl fmt::Display for Failure {
    ghost output = { λ failure. Some (sentence failure) };

    fn fmt<W: fmt::Write>(&self, f: &mut fmt::Formatter<W>) -> fmt::Result {
        f.write_str(match self {
            Failure::Unread => "rehearse: standard input cannot be read",
            Failure::Unwritten => "rehearse: standard output cannot be written",
        })
    }
}
