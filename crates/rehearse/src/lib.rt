// The rehearsal program (document 01): a status, a table and a schedule are read from standard input, "at most 8,192 bytes", and
// one line is printed. Its `main` is in the crate rehearse_main, which lends the runtime, through which all is read and written,
// and ends with the value as its exit status.

#![tactic(auto)]

mod failure;
mod line;
mod printing;
pub mod reading;
mod rehearsal;

ghost use Rattle.std.specs.Prelude.{◌≡◌, is_ok};
ghost use Rattle.rehearse.specs.Exit.{ExitsWith, line_status};

use failure::Failure;

// The program, started with arguments or without. Its value is the exit status, a number for the system.
pub fn salnegris_rehearse(rt: &(impl Input + Print + Eprint), arguments: bool) -> u8
    ensures { ExitsWith arguments result }
{
    if arguments {
        let _ = rt.eprintln(
            "rehearse: no arguments are taken; the recipe is read from standard input",
        );
        return 2;
    }
    let written = rehearse(rt);
    if let Err(failure) = written {
        let _ = rt.eprintln(failure);
    }
    status(written)
}

// Ok where the line is written, and all of it. The input is read into bytes of a fixed number, not into a heap.
fn rehearse(rt: &(impl Input + Print)) -> Result<(), Failure> {
    let mut input = [0u8; 8192];
    let read = reading::standard_input(&mut rt.reader(), &mut input).map_err(|_| Failure::Unread)?;
    let line = rehearsal::of_input(&input[..read]);
    printing::standard_output(rt, line.as_str().as_bytes()).map_err(|_| Failure::Unwritten)
}

// An exit status is a number for the system.
fn status(written: Result<(), Failure>) -> u8
    ensures { result ≡ line_status (is_ok written) }
{
    match written {
        Ok(()) => 0,
        Err(_) => 1,
    }
}
