//! Uses of the text area, as a caller writes them: small programs, one in each module, each with
//! contracts of its own that say what its user can rely on.
//!
//! Prints what each of them returns or draws for a few inputs.
#![tactic(auto)]

mod height;
mod log_view;
mod matches;
mod mentions;
mod one_line;
mod password;
mod prompt;
mod recorder;
mod save;
mod side_by_side;
mod trials;

use anyhow::Result;

fn main(rt: HostRuntime) -> Result<()> {
    let alloc = rt.alloc();
    println!(rt; "prompt: {:?}", trials::prompt(alloc)?)?;
    println!(rt; "one line: {}", trials::one_line(alloc)?)?;
    println!(rt; "password:\n{}", trials::password(alloc, "secret")?)?;
    println!(rt;
        "another password:\n{}",
        trials::password(alloc, "letmein")?
    )?;
    println!(rt; "mentions: {:?}", trials::mentions(alloc)?)?;
    println!(rt; "save: {:?}", trials::save(alloc)?)?;
    println!(rt; "side by side:\n{}", trials::side_by_side(alloc)?)?;
    println!(rt; "height:\n{}", trials::height(alloc)?)?;
    println!(rt; "log view:\n{}", trials::log_view(alloc)?)?;
    println!(rt; "matches: {:?}", trials::matches(alloc)?)?;
    println!(rt; "recorder: {:?}", trials::recorder(alloc)?)?;
    Ok(())
}
