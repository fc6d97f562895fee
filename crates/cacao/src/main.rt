//! The program `cacao`.
#![tactic(auto)]

mod running;

use std::process::ExitCode;

fn main(rt: HostRuntime) -> ExitCode {
    running::run(&rt)
}
