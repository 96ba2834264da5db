//! The program: a real desk, the words after its name, and the top call.
#![tactic(auto)]

use mb_message::Memory;
use mb_outside::{Args, RealDesk};
use mb_top::bridge;
use std::env;
use std::process::ExitCode;

/// The exit status where there is no memory for the desk or the words.
const NO_MEMORY: u8 = 9;

fn main(rt: HostRuntime) -> ExitCode {
    ExitCode::from(run(rt).unwrap_or(NO_MEMORY))
}

/// The exit status of the call.
fn run(rt: HostRuntime) -> Result<u8, Memory> {
    let alloc = rt.alloc();
    let words = words(&rt)?;
    let mut desk = RealDesk::new(rt, alloc)?;
    Ok(bridge(alloc, &words, &mut desk))
}

/// The words after the program's name: none where they aren't text, which is no command.
fn words(rt: &HostRuntime) -> Result<Args, Memory> {
    let mut words = Args::new(rt.alloc());
    let args = match env::args(rt) {
        Ok(args) => args,
        Err(error) => {
            return match error.kind() {
                std::io::ErrorKind::OutOfMemory => Err(Memory),
                _ => Ok(words),
            };
        }
    };
    for word in args.skip(1) {
        words.push(word.as_str())?;
    }
    Ok(words)
}
