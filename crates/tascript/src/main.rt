// Runs a script of calls on an empty text area, or with the argument `modal` a session of a modal
// editor. Prints the results and the text area.
#![tactic(auto)]

use std::env::Env;
use std::process::ExitCode;
use std::{env, io};
use textarea_script::program_arguments::{serve_arguments, serve_bad_arguments};

fn main(rt: HostRuntime) -> ExitCode {
    let status = match arguments_of(&rt) {
        Ok(words) => serve_arguments(
            rt.alloc(),
            words.as_slice(),
            &mut rt.stdin(),
            &mut rt.stdout(),
            &mut rt.stderr(),
        ),
        Err(error) => serve_bad_arguments(&error, &mut rt.stderr()),
    };
    ExitCode::from(status)
}

// The arguments of the program.
fn arguments_of(rt: &(impl Env + AllocGlobal)) -> io::Result<Vec<String>> {
    let words = env::args(rt)?.skip(1).collect(rt.alloc())?;
    Ok(words)
}
