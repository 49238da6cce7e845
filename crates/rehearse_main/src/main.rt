// The rehearsal program's `main`: it tells the library whether there are arguments, and ends with the exit status that this
// answers.

#![tactic(auto)]

use std::env::FillError;
use std::process::ExitCode;
use std::rt::Env;

fn main(rt: HostRuntime) -> ExitCode {
    ExitCode::from(rehearse::salnegris_rehearse(&rt, has_arguments(&rt)))
}

// The argument at 0 is the program's name. One that is longer than the byte lent for it is there all the same.
fn has_arguments(env: &impl Env) -> bool {
    let mut byte = [0u8; 1];
    !matches!(env.arg(1, &mut byte), Err(FillError::NotPresent))
}
