//! The two programs on shelves and sites in memory, played by files of rows: each row says what is done, and the rows that ask say in their
//! last field what is to come. For each file the number of rows that were compared is printed, and each row that differs.
#![tactic(auto)]

mod answers;
mod kinds;
mod loops;
mod pieces;
mod plans;
mod played;
mod player;
mod texts;
mod view_calls;
mod views;

use played::play_file;
use player::Player;
use std::io;
use std::process::ExitCode;
use std::rt::Files;
use views::play_views;

/// The files of rows. The texts that the first one names stand for all.
const FILES: [&str; 13] = [
    "texts.txt",
    "canon.txt",
    "words.txt",
    "filters.txt",
    "audits.txt",
    "runs.txt",
    "worked.txt",
    "fleets.txt",
    "links.txt",
    "wires.txt",
    "rehearsals.txt",
    "disks.txt",
    "limits.txt",
];

/// Plays all files on this player; true where all rows agreed.
fn play_on(rt: &(impl Print + Files + AllocGlobal), player: &mut Player) -> io::Result<bool> {
    let mut agreed = true;
    for name in FILES {
        if !play_file(rt, player, name)? {
            agreed = false;
        }
    }
    Ok(agreed)
}

/// Plays all files; true where all rows agreed.
fn play_all(rt: &(impl Print + Files + AllocGlobal)) -> io::Result<bool> {
    let mut player = Player::new(rt.alloc())?;
    play_on(rt, &mut player)
}

fn main(rt: HostRuntime) -> io::Result<ExitCode> {
    let agreed = play_all(&rt)?;
    if play_views(&rt)? && agreed {
        Ok(ExitCode::SUCCESS)
    } else {
        Ok(ExitCode::FAILURE)
    }
}
