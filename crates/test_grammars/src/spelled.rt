// Texts that fields stand for.
use std::alloc::{AllocError, Global};

/// Adds a text so many times.
fn push_times(all: &mut String, text: &str, times: u32) -> Result<(), AllocError> {
    for _ in 0..times {
        all.push_str(text)?;
    }
    Ok(())
}

/// The number that a word is; 0 where it is none.
fn number(word: &str) -> u32 {
    match word.parse::<u32>() {
        Ok(number) => number,
        Err(_) => 0,
    }
}

/// The text of numbers and words, each word as many times as the number before it.
fn repeated(alloc: Global, words: &str) -> Result<String, AllocError> {
    let mut all = String::new(alloc);
    let mut times = None;
    for word in words.split(' ') {
        times = match times {
            None => Some(number(word)),
            Some(times) => {
                push_times(&mut all, word, times)?;
                None
            }
        };
    }
    Ok(all)
}

/// An object of 100 members, whose names fall from `n999` to `n900` and whose values rise from 0, and then this text.
fn wide(alloc: Global, last: &str) -> Result<String, AllocError> {
    let mut all = String::from_str(alloc, "{")?;
    for n in 0..100u32 {
        let name = 999 - n;
        write!(all, "\"n{name}\":{n},")?;
    }
    all.push_str(last)?;
    Ok(all)
}

/// An object of 100 members, of which the first, `z`, is -1, and the names of the others rise behind it from `n100` to `n198` as
/// their values do from 0, and then this text.
fn late(alloc: Global, last: &str) -> Result<String, AllocError> {
    let mut all = String::from_str(alloc, "{\"z\":-1,")?;
    for n in 0..99u32 {
        let name = 100 + n;
        write!(all, "\"n{name}\":{n},")?;
    }
    all.push_str(last)?;
    Ok(all)
}

/// The text that a field stands for: behind `REPEAT` stand numbers and words, each word as many times as the number before it; behind `WIDE`
/// and `LATE` stands the end of an object with 100 members. Each other field is its text.
pub(crate) fn spelled(alloc: Global, field: &str) -> Result<String, AllocError> {
    if let Some(words) = field.strip_prefix("REPEAT ") {
        return repeated(alloc, words);
    }
    if let Some(last) = field.strip_prefix("WIDE ") {
        return wide(alloc, last);
    }
    if let Some(last) = field.strip_prefix("LATE ") {
        return late(alloc, last);
    }
    String::from_str(alloc, field)
}
