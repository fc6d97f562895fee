// What a row says of what is outside an end.
use test_wire_plays::{Around, calm};

/// What is outside an end whose clock stands.
pub(crate) fn still() -> Around {
    let mut around = calm();
    around.outside.stop_clock = 0;
    around
}

/// Takes a word with a number of at most 32 bits; false where there is no such word.
fn take_small(around: &mut Around, name: &str, number: u32) -> bool {
    match name {
        "calls" => around.outside.calls = number,
        "failing" => around.outside.failing = Some(number),
        "breaks" => around.breaks = Some(number),
        _ => return false,
    }
    true
}

/// Takes a word with a number; false where there is no such word.
fn take_number(around: &mut Around, name: &str, number: u64) -> bool {
    match name {
        "clock" => around.outside.stop_clock = number,
        "begins" => around.begins = number,
        "room" => around.room = number,
        "crash" => around.choice = number,
        _ => match u32::try_from(number) {
            Ok(number) => return take_small(around, name, number),
            Err(_) => return false,
        },
    }
    true
}

/// Takes a word; false where it says nothing.
fn take(around: &mut Around, word: &str) -> bool {
    let Some((name, text)) = word.split_once('=') else {
        return word == "calm";
    };
    match text.parse::<u64>() {
        Ok(number) => take_number(around, name, number),
        Err(_) => false,
    }
}

/// What these words say; nothing where one of them says nothing.
pub(crate) fn around_of(words: &str) -> Option<Around> {
    let mut around = calm();
    for word in words.split(' ') {
        if !take(&mut around, word) {
            return None;
        }
    }
    Some(around)
}
