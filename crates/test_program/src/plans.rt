// How a site does, as the fields of a row say it: `room 8192`, `calls 4`, `failing 0`, `stop 100`, `weather lose twice hold:3005`. What no
// field says is as it is where nothing fails.
use cacao_site_memory::Weather;
use test_rows::Row;
use test_session_plays::{Outside, fair};

/// The number that a text is in decimal.
fn number(text: &str) -> Option<u64> {
    match text.parse::<u64>() {
        Ok(number) => Some(number),
        Err(_) => None,
    }
}

/// The same where it is below 2^32.
fn small_number(text: &str) -> Option<u32> {
    match text.parse::<u32>() {
        Ok(number) => Some(number),
        Err(_) => None,
    }
}

/// The weather of one parcel.
fn weather_of(word: &str) -> Option<Weather> {
    match word {
        "deliver" => Some(Weather::Deliver),
        "lose" => Some(Weather::Lose),
        "twice" => Some(Weather::Twice),
        _ => {
            let until = number(word.strip_prefix("hold:")?)?;
            Some(Weather::Hold { until })
        }
    }
}

/// The weather of the first parcels, a word each; nothing where there are more than nine.
fn weather(words: &str) -> Option<[Weather; 9]> {
    let mut weather = [Weather::Deliver; 9];
    let mut count = 0usize;
    for word in words.split(' ') {
        if count >= 9 {
            return None;
        }
        weather[count] = weather_of(word)?;
        count += 1;
    }
    Some(weather)
}

/// Lets a site do what a field says; nothing where the field says nothing of a site.
fn change(outside: &mut Outside, field: &str) -> Option<()> {
    let (name, value) = field.split_once(' ')?;
    match name {
        "room" => outside.room = number(value)?,
        "calls" => outside.calls = small_number(value)?,
        "failing" => outside.failing = Some(small_number(value)?),
        "stop" => outside.stop_clock = number(value)?,
        "weather" => outside.weather = weather(value)?,
        _ => return None,
    }
    Some(())
}

/// What the fields of a row from this number on say.
pub(crate) fn outside(row: &Row, first: usize) -> Option<Outside> {
    let mut outside = fair();
    for field in first..row.count() {
        change(&mut outside, row.text(field))?;
    }
    Some(outside)
}
