//! The program `mdb`: the words of the command line, the input and the output, and one top call, `run`.
//!
//! `main` hands them to `carry_out`, which does what stands around `run`. The crate stands on `script_run`,
//! `map_root` and all below them, and on `hex` for the digits that it prints. Its errors are the statuses of
//! `Status`, each with its cause in the contract of `run`, whose words are those of `run_model`. What the
//! real streams and files give and take, no clause can say.
#![tactic(auto)]

mod apply_command;
mod changes_command;
mod command_line;
mod get_command;
mod help;
mod hints;
mod job;
mod map_lines;
mod process;
pub mod program;
mod prove_command;
mod range_command;
mod root_command;
pub mod status;
mod store_faults;
#[cfg(test)]
mod tests;
mod verify_command;

use command_line::{read_command_line, with_folder};
use process::{Terminals, carry_out};
use real_world::{FileDisk, StdSink, StdSource};
use std::env;
use std::io::IsTerminal;
use std::process::ExitCode;

fn main(rt: HostRuntime) -> ExitCode {
    let (folder, words) = with_folder(rt.alloc(), read_command_line(rt.alloc(), env::args(&rt)));
    let terminals = Terminals {
        input: rt.stdin().is_terminal(),
        errors: rt.stderr().is_terminal(),
    };
    carry_out(
        rt.alloc(),
        terminals,
        words,
        &mut StdSource::new(rt.stdin()),
        &mut StdSink::new(rt.stdout()),
        &mut FileDisk::new(&rt, folder),
        &mut StdSink::new(rt.stderr()),
    )
}
