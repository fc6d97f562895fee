// Where a row is played.
use cacao_site_memory::Weather;
use std::alloc::{AllocError, Global};
use test_session_plays::{Outside, Play, fair};

/// The files on which a row is played.
#[derive(Clone, Copy)]
enum Files {
    /// Those of the row before, on the same site.
    Here,
    /// Those of a new site.
    New,
    /// What a crash that is picked so leaves.
    Left { choice: u64 },
}

/// Where a row is played, as far as its words were read.
#[derive(Clone, Copy)]
struct Site {
    files: Files,
    outside: Outside,
    /// For how many parcels there is a weather.
    parcels: usize,
}

impl Site {
    /// Adds the weather of the next parcel; false where all have one.
    fn add(&mut self, weather: Weather) -> bool {
        if self.parcels >= 9 {
            return false;
        }
        self.outside.weather[self.parcels] = weather;
        self.parcels += 1;
        true
    }

    /// Takes a word; false where there is no such word.
    fn take_word(&mut self, word: &str) -> bool {
        match word {
            "here" => self.files = Files::Here,
            "new" => self.files = Files::New,
            "again" => self.files = Files::Left { choice: 0 },
            "deliver" => return self.add(Weather::Deliver),
            "lose" => return self.add(Weather::Lose),
            "twice" => return self.add(Weather::Twice),
            _ => return false,
        }
        true
    }

    /// Takes a word with a number of at most 32 bits; false where there is no such word.
    fn take_small(&mut self, name: &str, number: u32) -> bool {
        match name {
            "calls" => self.outside.calls = number,
            "failing" => self.outside.failing = Some(number),
            _ => return false,
        }
        true
    }

    /// Takes a word with a number; false where there is no such word.
    fn take_number(&mut self, name: &str, number: u64) -> bool {
        match name {
            "crash" => self.files = Files::Left { choice: number },
            "clock" => self.outside.stop_clock = number,
            "room" => self.outside.room = number,
            "hold" => return self.add(Weather::Hold { until: number }),
            _ => match u32::try_from(number) {
                Ok(number) => return self.take_small(name, number),
                Err(_) => return false,
            },
        }
        true
    }

    /// Takes a word; false where there is no such word.
    fn take(&mut self, word: &str) -> bool {
        match word.split_once('=') {
            Some((name, text)) => match text.parse::<u64>() {
                Ok(number) => self.take_number(name, number),
                Err(_) => false,
            },
            None => self.take_word(word),
        }
    }
}

/// Where these words say; nothing where one of them says nothing.
fn site_of(words: &str) -> Option<Site> {
    let mut site = Site {
        files: Files::Here,
        outside: fair(),
        parcels: 0,
    };
    for word in words.split(' ') {
        if !site.take(word) {
            return None;
        }
    }
    Some(site)
}

/// Whether these words say where a row is played.
pub(crate) fn is_site(words: &str) -> bool {
    site_of(words).is_some()
}

/// The site that these words say; a new one where they say nothing.
pub(crate) fn play_at(alloc: Global, play: Play, words: &str) -> Result<Play, AllocError> {
    match site_of(words) {
        Some(site) => match site.files {
            Files::Here => Ok(play),
            Files::New => Play::new(alloc, site.outside),
            Files::Left { choice } => play.crash(choice, site.outside),
        },
        None => Play::new(alloc, fair()),
    }
}
