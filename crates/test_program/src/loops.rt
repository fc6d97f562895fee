// Rows that are calls of programs of their own.
use crate::answers::shown;
use crate::pieces::{front, joined};
use crate::player::{Player, disk_file};
use std::alloc::{AllocError, Global};
use test_program_plays::{Program, Scene};
use test_rows::Row;

/// What a program answers to these words.
fn answer(alloc: Global, program: &mut Program, words: &str) -> Result<String, AllocError> {
    let answer = program.call(words)?;
    shown(alloc, &answer)
}

/// What is answered to these words on a new shelf and a new site with the files of a scene, and with this file.
fn answer_with_file(
    alloc: Global,
    scene: &Scene,
    name: &str,
    bytes: &[u8],
    words: &str,
) -> Result<String, AllocError> {
    let mut program = scene.program()?;
    program.add(name, bytes)?;
    answer(alloc, &mut program, words)
}

/// The row `with NAME WORDS BYTES.. ANSWER`.
pub(crate) fn answer_with(player: &Player, row: &Row) -> Result<Option<String>, AllocError> {
    let last = row.count().saturating_sub(1);
    let Some(bytes) = joined(player.alloc, &player.texts, row, 3, last)? else {
        return Ok(None);
    };
    let (name, words) = (row.text(1), row.text(2));
    let came = answer_with_file(player.alloc, &player.scene, name, bytes.as_slice(), words)?;
    Ok(Some(came))
}

/// How many fronts of a text that lack its end are answered so, where a file of this name has them.
#[derive(Clone, Copy)]
struct Fronts<'a> {
    scene: &'a Scene,
    name: &'a str,
    text: &'a [u8],
    words: &'a str,
    each: &'a str,
}

impl Fronts<'_> {
    /// Whether the front of this length is answered so.
    fn is_answered(&self, alloc: Global, length: usize) -> Result<bool, AllocError> {
        let text = front(self.text, length);
        let came = answer_with_file(alloc, self.scene, self.name, text, self.words)?;
        Ok(came.as_str() == self.each)
    }

    /// How many are.
    fn count(&self, alloc: Global) -> Result<u32, AllocError> {
        let mut count = 0u32;
        for length in 0..self.text.len() {
            if self.is_answered(alloc, length)? {
                count = count.saturating_add(1);
            }
        }
        Ok(count)
    }
}

/// The row `fronts NAME TEXT WORDS EACH ANSWER`: of how many fronts the answer is that of each, and how many there are.
pub(crate) fn count_fronts(player: &Player, row: &Row) -> Result<Option<String>, AllocError> {
    let Some(text) = player.texts.get(row.text(2)) else {
        return Ok(None);
    };
    let fronts = Fronts {
        scene: &player.scene,
        name: row.text(1),
        text,
        words: row.text(3),
        each: row.text(4),
    };
    let count = fronts.count(player.alloc)?;
    let all = text.len();
    Ok(Some(format!(in player.alloc; "{count} of {all}")?))
}

/// What the program answers where a file of the disk has the front of this length.
fn answer_cut(
    player: &Player,
    file: u8,
    text: &[u8],
    length: u32,
    words: &str,
) -> Result<String, AllocError> {
    let mut program = player.scene.program()?;
    program.fill(file, front(text, length as usize));
    answer(player.alloc, &mut program, words)
}

/// The first length behind the first one of these that has another answer, and that one.
fn other_cut(
    player: &Player,
    file: u8,
    text: &[u8],
    lengths: (u32, u32),
    words: &str,
    came: &str,
) -> Result<Option<String>, AllocError> {
    for length in lengths.0..lengths.1 {
        let length = length.saturating_add(1);
        let other = answer_cut(player, file, text, length, words)?;
        if other.as_str() != came {
            return Ok(Some(format!(in player.alloc; "{length} bytes: {other}")?));
        }
    }
    Ok(None)
}

/// The row `cuts FILE TEXT FIRST LAST WORDS ANSWER`: what is answered at the first length, if it is answered at each length; else the
/// first length that has another answer, and that one.
pub(crate) fn answer_cuts(player: &Player, row: &Row) -> Result<Option<String>, AllocError> {
    let Some(file) = disk_file(row, 1) else {
        return Ok(None);
    };
    let Some(text) = player.texts.get(row.text(2)) else {
        return Ok(None);
    };
    let (Ok(first), Ok(last)) = (row.text(3).parse::<u32>(), row.text(4).parse::<u32>()) else {
        return Ok(None);
    };
    let words = row.text(5);
    let came = answer_cut(player, file, text, first, words)?;
    match other_cut(player, file, text, (first, last), words, came.as_str())? {
        Some(other) => Ok(Some(other)),
        None => Ok(Some(came)),
    }
}

/// A text of so many levels: all but the innermost begin and end so.
fn nested(
    alloc: Global,
    begin: &str,
    innermost: &str,
    end: &str,
    levels: u32,
) -> Result<String, AllocError> {
    let mut text = String::new(alloc);
    for _ in 1..levels {
        text.push_str(begin)?;
    }
    text.push_str(innermost)?;
    for _ in 1..levels {
        text.push_str(end)?;
    }
    Ok(text)
}

/// How `canon` reads a text.
#[derive(Clone, Copy)]
enum Reading {
    /// It says the text as it is.
    Same,
    /// It says what the row has for a text without a reading.
    Unread,
    Other,
}

/// Whether this is what `canon` answers where it says a text as it is.
fn is_same(alloc: Global, text: &str, came: &str) -> Result<bool, AllocError> {
    let same = format!(in alloc; "0: {text}\n")?;
    Ok(same.as_str() == came)
}

/// How `canon` reads a text.
fn reading_of(player: &Player, text: &str, unread: &str) -> Result<Reading, AllocError> {
    let (alloc, bytes) = (player.alloc, text.as_bytes());
    let came = answer_with_file(alloc, &player.scene, "x.json", bytes, "canon x.json")?;
    if is_same(alloc, text, came.as_str())? {
        Ok(Reading::Same)
    } else if came.as_str() == unread {
        Ok(Reading::Unread)
    } else {
        Ok(Reading::Other)
    }
}

/// How `canon` reads the text of so many levels.
fn reading_at(player: &Player, row: &Row, levels: u32) -> Result<Reading, AllocError> {
    let text = nested(player.alloc, row.text(1), row.text(2), row.text(3), levels)?;
    reading_of(player, text.as_str(), row.text(5))
}

/// The row `levels BEGIN INNERMOST END LAST UNREAD ANSWER`: how many of the texts of 1 level up to the last number of levels `canon` says
/// as they are, the most levels of these, and how many it tells to have no reading.
pub(crate) fn count_levels(player: &Player, row: &Row) -> Result<Option<String>, AllocError> {
    let Ok(last) = row.text(4).parse::<u32>() else {
        return Ok(None);
    };
    let (mut read, mut most, mut unread) = (0u32, 0u32, 0u32);
    for before in 0..last {
        let levels = before.saturating_add(1);
        match reading_at(player, row, levels)? {
            Reading::Same => {
                read = read.saturating_add(1);
                most = levels;
            }
            Reading::Unread => unread = unread.saturating_add(1),
            Reading::Other => {}
        }
    }
    Ok(Some(format!(in player.alloc; "read {read}, most levels {most}, not read {unread}")?))
}
