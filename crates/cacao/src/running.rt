// The program from its runtime on: the words of the command line and the outside of the system are handed to the commands.
use cacao_cli::top;
use cacao_site_files::{FileShelf, FileSite};
use oc2_wire_process::ProcessPeers;
use std::alloc::{AllocError, Global};
use std::fs::File;
use std::net::Net;
use std::process::{ExitCode, Processes};
use std::rt::{Env, Files};
use std::{env, fs, io};

/// The exit status where memory was wanted.
const NO_MEMORY: u8 = 10;

/// Does what the words of the command line ask, and answers the exit status.
pub fn run<R: AllocGlobal + Env + Files<File = File> + Print + Net + Processes>(
    rt: &R,
) -> ExitCode {
    let alloc = rt.alloc();
    // Held to the end: where standard input and output are closed these take their numbers, so that no line is written into
    // a file of the disk.
    let _input = fs::open(rt, "/");
    let _output = fs::open(rt, "/");
    match arguments(rt, alloc) {
        Ok(arguments) => ExitCode::from(run_with(rt, alloc, arguments.as_slice())),
        Err(_) => ExitCode::from(NO_MEMORY),
    }
}

/// The same with the words that the program was started with, its own name first.
fn run_with<R: Files<File = File> + Print + Net + Processes>(
    rt: &R,
    alloc: Global,
    arguments: &[String],
) -> u8 {
    let (program, words) = match arguments.split_first() {
        Some((program, words)) => (program.as_str(), words),
        None => ("", arguments),
    };
    let Ok(names) = audited(alloc, words) else {
        return NO_MEMORY;
    };
    let Ok(mut peers) = ProcessPeers::new(rt, alloc, program) else {
        return NO_MEMORY;
    };
    let mut shelf = FileShelf::of_one_moment(rt, names.as_slice());
    let mut site = if writes(words) {
        FileSite::writing(rt, alloc)
    } else {
        FileSite::reading(rt, alloc)
    };
    let status = top(alloc, words, &mut shelf, &mut site, &mut peers);
    site.end();
    status
}

/// Whether the command writes files of the disk.
fn writes(words: &[String]) -> bool {
    match words.first() {
        Some(first) => matches!(first.as_str(), "run" | "pair" | "filters" | "fleet"),
        None => false,
    }
}

/// The names of the files that `audit` compares, which are read as they are at one moment; none of another command.
///
/// They are every second word behind the first, the `--` that ends the options left out.
fn audited(alloc: Global, words: &[String]) -> Result<Vec<&str>, AllocError> {
    let mut names = Vec::new(alloc);
    let Some((first, others)) = words.split_first() else {
        return Ok(names);
    };
    if first.as_str() != "audit" {
        return Ok(names);
    }
    let end = others.iter().position(|word| word.as_str() == "--");
    let mut is_name = true;
    for (place, word) in others.iter().enumerate() {
        if Some(place) == end {
            continue;
        }
        if is_name {
            names.push(word.as_str())?;
        }
        is_name = !is_name;
    }
    Ok(names)
}

/// The words that the program was started with; none where the system does not give them or one is not UTF-8.
fn arguments<R: AllocGlobal + Env>(rt: &R, alloc: Global) -> Result<Vec<String>, AllocError> {
    match env::args(rt) {
        Ok(args) => args.collect(alloc),
        Err(error) if error.kind() == io::ErrorKind::OutOfMemory => Err(AllocError),
        Err(_) => Ok(Vec::new(alloc)),
    }
}
