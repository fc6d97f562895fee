//! Plays rows of the grammars of CACAO playbooks: each row asks something of one crate, and its last field is the answer that is known from
//! outside. For each file of rows it prints how many there are, and each row whose answer is another.
#![tactic(auto)]

mod books;
mod canon;
mod checks;
mod conds;
mod ids;
mod members;
mod parts;
mod plays;
mod samples;
mod scopes;
mod shapes;
mod spelled;
mod trees;
mod vars;
mod words;

use plays::play_all;
use std::io;
use std::process::ExitCode;

fn main(rt: HostRuntime) -> io::Result<ExitCode> {
    if play_all(&rt)? {
        return Ok(ExitCode::SUCCESS);
    }
    Ok(ExitCode::FAILURE)
}
