//! A gallery: small programs on text areas, each in a module of its own.
//!
//!     gallery [NAME] < SCRIPT   runs the programs of a script, or only that of this name
//!     gallery NAME --live       runs a program in the terminal, which `tools/gallery-live` prepares
//!
//! A script's form is described in `script`, and the form of the screens that it prints in `picture`.
#![tactic(auto)]

mod live;
mod picture;
mod program;
mod script;

use anyhow::{Result, bail};
use std::env;

fn main(rt: HostRuntime) -> Result<()> {
    let words: Vec<String> = env::args(&rt)?.skip(1).collect(rt.alloc())?;
    match words.as_slice() {
        [] => script::run(&rt, None),
        [name] => script::run(&rt, Some(name.as_str())),
        [name, option] if option.as_str() == "--live" => live::run(&rt, name.as_str()),
        _ => bail!("usage: gallery [NAME] < SCRIPT, or gallery NAME --live"),
    }
}
