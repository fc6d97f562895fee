// The kinds of rows, by their first field. A field of bytes may be several: they are joined, as `pieces` says.
//
// What the program is called on; these rows ask nothing:
//
//     site PLAN..               a new shelf without files, and a new site, of a plan as `plans` says
//     text NAME BYTES..         names a text
//     book NAME BYTES..         names the text of a playbook, whose members and identifiers are spelled out
//     file NAME BYTES..         puts a file on the shelf
//     fill FILE BYTES..         writes a file of the disk from its front on
//     fail NUMBER               lets the read of the shelf of this number fail, from 0
//     link ROOM CALL BYTES..    a link that the peers of the next call hand out: room for so many bytes to be sent, the call of it that fails
//                               or a dash, and the bytes that come
//     peers NUMBER              lets the call of this number of the peers of the next call fail, from 0
//     crash CHOICE PLAN..       a crash that is picked so, and the site behind it, of that plan
//
// Calls of the program. The answer is the status and, where anything was said, a colon and the lines, with identifiers cut to their type
// and their last two digits:
//
//     call WORDS.. ANSWER       a call; no word where the words are empty
//     anew WORDS.. ANSWER       a call on a new shelf and a new site with the files of the rows `file` and `fill` since the last `site`
//     with NAME WORDS BYTES.. ANSWER       the same, with one more file on the shelf
//     status WORDS.. STATUS     a call, of which the status alone is asked
//     records WORDS.. ANSWER    a call, of whose lines those are counted that begin with their number and the moment 0
//     fronts, cuts, levels      many calls, as `loops` says
//
// What the calls have left, and rehearsals:
//
//     same FILE NAME ANSWER     whether the bytes of a file of the disk are a text that was named: `yes` or `no`
//     puts NUMBER               how many parcels were put, in all
//     commands NUMBER           how many of these were commands
//     parcel NUMBER ANSWER      a parcel that was put, from 0: its way, agent, run, issue and bytes
//     lines NUMBER              how many lines were said, in all
//     sent BYTES                what went out over the link that the call before closed
//     rehearsed POSITIONS ANSWER           the records, acts and rules that a rehearsal counts, called as a library
//     rehearsal POSITIONS BYTES            the text of its playbook
use crate::answers::{records, shown};
use crate::loops::{answer_cuts, answer_with, count_fronts, count_levels};
use crate::played::{Came, Plays};
use crate::player::Player;
use std::alloc::{AllocError, Global};
use test_program_plays::{Answer, Rehearsed, count_rehearsed, text_rehearsed};
use test_rows::Row;

/// What came of a row which asks nothing.
fn done(is_done: Result<bool, AllocError>) -> Result<Came, AllocError> {
    if is_done? {
        Ok(Came::Done)
    } else {
        Ok(Came::NotUnderstood)
    }
}

/// That of a text.
fn said(text: Result<Option<String>, AllocError>) -> Result<Came, AllocError> {
    match text? {
        Some(text) => Ok(Came::Said(text.into_bytes())),
        None => Ok(Came::NotUnderstood),
    }
}

/// That of a number.
fn count(alloc: Global, number: usize) -> Result<Came, AllocError> {
    Ok(Came::Said(format!(in alloc; "{number}")?.into_bytes()))
}

/// The status and what was said.
fn whole(alloc: Global, answer: Result<Option<Answer>, AllocError>) -> Result<Came, AllocError> {
    match answer? {
        Some(answer) => Ok(Came::Said(shown(alloc, &answer)?.into_bytes())),
        None => Ok(Came::NotUnderstood),
    }
}

/// The status alone.
fn status(alloc: Global, answer: Result<Option<Answer>, AllocError>) -> Result<Came, AllocError> {
    match answer? {
        Some(answer) => count(alloc, usize::from(answer.status)),
        None => Ok(Came::NotUnderstood),
    }
}

/// The status, the number of records, and the other lines.
fn counted(alloc: Global, answer: Result<Option<Answer>, AllocError>) -> Result<Came, AllocError> {
    match answer? {
        Some(answer) => Ok(Came::Said(records(alloc, &answer)?.into_bytes())),
        None => Ok(Came::NotUnderstood),
    }
}

/// Whether a file of the disk has the text of a name.
fn same(player: &mut Player, row: &Row) -> Result<Came, AllocError> {
    let word = match player.is_same(row)? {
        Some(true) => "yes",
        Some(false) => "no",
        None => return Ok(Came::NotUnderstood),
    };
    Ok(Came::Said(word.as_bytes().to_vec(player.alloc)?))
}

/// The text of the playbook of a rehearsal, or what the rehearsal counts.
fn rehearsal(alloc: Global, row: &Row, is_text: bool) -> Result<Came, AllocError> {
    let Ok(positions) = row.text(1).parse::<u32>() else {
        return Ok(Came::NotUnderstood);
    };
    if is_text {
        return Ok(Came::Said(text_rehearsed(alloc, positions)?));
    }
    match count_rehearsed(alloc, positions)? {
        Some(
            Rehearsed {
                records,
                acts,
                rules,
            },
        ) => Ok(Came::Said(format!(in alloc; "{records} {acts} {rules}")?.into_bytes())),
        None => Ok(Came::NotUnderstood),
    }
}

/// Plays a row that calls the program, asks what the calls have left, or asks for a rehearsal.
fn call(player: &mut Player, row: &Row) -> Result<Came, AllocError> {
    let alloc = player.alloc;
    match row.text(0) {
        "call" => whole(alloc, player.call(row)),
        "anew" => whole(alloc, player.call_anew(row)),
        "with" => said(answer_with(player, row)),
        "status" => status(alloc, player.call(row)),
        "records" => counted(alloc, player.call(row)),
        "fronts" => said(count_fronts(player, row)),
        "cuts" => said(answer_cuts(player, row)),
        "levels" => said(count_levels(player, row)),
        _ => look(player, row),
    }
}

/// Plays a row that asks what the calls have left, or for a rehearsal.
fn look(player: &mut Player, row: &Row) -> Result<Came, AllocError> {
    let alloc = player.alloc;
    match row.text(0) {
        "same" => same(player, row),
        "puts" => count(alloc, player.program.put_count()),
        "lines" => count(alloc, player.program.line_count()),
        "sent" => Ok(Came::Said(player.program.sent().to_vec(alloc)?)),
        "commands" => count(alloc, player.commands() as usize),
        "parcel" => said(player.parcel(row)),
        "rehearsal" => rehearsal(alloc, row, true),
        "rehearsed" => rehearsal(alloc, row, false),
        _ => Ok(Came::NotUnderstood),
    }
}

impl Plays for Player {
    fn play(&mut self, row: &Row) -> Result<Came, AllocError> {
        match row.text(0) {
            "site" => done(self.begin(row)),
            "text" => done(self.name_text(row)),
            "book" => done(self.name_book(row)),
            "file" => done(self.add(row)),
            "fill" => done(self.fill(row)),
            "crash" => done(self.crash(row)),
            "link" => done(self.link(row)),
            "peers" => done(self.fail_peers(row)),
            "fail" => done(Ok(self.fail_read(row))),
            _ => call(self, row),
        }
    }
}
