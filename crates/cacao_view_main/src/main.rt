//! The program `cacao-view`: it hands the words of the command line and the outside of the system to the one call that only looks.
#![tactic(auto)]

use cacao_site_files::{FileShelf, FileSite};
use cacao_view::view;
use std::alloc::{AllocError, Global};
use std::process::ExitCode;
use std::{env, fs, io};

/// The exit status where memory was wanted.
const NO_MEMORY: u8 = 10;

fn main(rt: HostRuntime) -> ExitCode {
    let alloc = rt.alloc();
    // Held to the end: where standard input and output are closed these take their numbers, so that no line is written into
    // a file of the disk.
    let _input = fs::open(&rt, "/");
    let _output = fs::open(&rt, "/");
    let Ok(words) = words(&rt, alloc) else {
        return ExitCode::from(NO_MEMORY);
    };
    let mut shelf = FileShelf::new(&rt);
    let mut site = FileSite::reading(&rt, alloc);
    ExitCode::from(view(alloc, words.as_slice(), &mut shelf, &mut site))
}

/// The words after the program's name; a word that none begins with, where the system does not give them or one is not UTF-8.
fn words(rt: &HostRuntime, alloc: Global) -> Result<Vec<String>, AllocError> {
    match env::args(rt) {
        Ok(args) => args.skip(1).collect(alloc),
        Err(error) if error.kind() == io::ErrorKind::OutOfMemory => Err(AllocError),
        Err(_) => no_words(alloc),
    }
}

/// Words without a reading.
fn no_words(alloc: Global) -> Result<Vec<String>, AllocError> {
    let mut words = Vec::new(alloc);
    words.push(String::new(alloc))?;
    Ok(words)
}
