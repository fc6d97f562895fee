// Each weather of three parcels.
use crate::texts::no_row;
use cacao_site_memory::Weather;
use flow_world::Close;
use std::alloc::{AllocError, Global};
use test_rows::Row;
use test_session_plays::{Book, Came, Outside, Play, fair, whole};

/// The weathers of a parcel.
const WEATHERS: [Weather; 4] = [
    Weather::Deliver,
    Weather::Lose,
    Weather::Twice,
    Weather::Hold { until: 3_005 },
];

/// A run that ended well in one session.
#[derive(Clone, Copy)]
struct Ended {
    records: usize,
    acts: u32,
}

/// How many runs ended well with one act and with two, how many of all that ended well have nine records, and how many ended otherwise.
#[derive(Clone, Copy)]
struct Count {
    one: u32,
    two: u32,
    nine: u32,
    other: u32,
}

impl Count {
    /// Counts the acts of a run.
    fn add_acts(&mut self, acts: u32) {
        match acts {
            1 => self.one = self.one.saturating_add(1),
            2 => self.two = self.two.saturating_add(1),
            _ => self.other = self.other.saturating_add(1),
        }
    }

    /// Counts a run.
    fn add(&mut self, ended: Option<Ended>) {
        match ended {
            Some(ended) => {
                self.add_acts(ended.acts);
                if ended.records == 9 {
                    self.nine = self.nine.saturating_add(1);
                }
            }
            None => self.other = self.other.saturating_add(1),
        }
    }
}

/// What a run of a playbook has that ends well under this weather; nothing where it does not.
fn ended_under(
    alloc: Global,
    book: Book,
    weather: [Weather; 9],
) -> Result<Option<Ended>, AllocError> {
    let mut play = Play::new(alloc, Outside { weather, ..fair() })?;
    match play.play(whole(book)) {
        Came::Closed(Close::Ended { well: true }) => Ok(found(&mut play)),
        _ => Ok(None),
    }
}

/// What a run has that ended in one session: each record that was appended was said.
fn found(play: &mut Play) -> Option<Ended> {
    let held = play.held()?;
    Some(Ended {
        records: play.line_count(),
        acts: held.acts,
    })
}

/// The weather of three parcels, by a number below 64; each behind them is delivered.
fn weather_of(number: usize) -> [Weather; 9] {
    let mut weather = [Weather::Deliver; 9];
    weather[0] = WEATHERS[number / 16 % 4];
    weather[1] = WEATHERS[number / 4 % 4];
    weather[2] = WEATHERS[number % 4];
    weather
}

/// How the runs of a playbook ended under each weather.
fn count_text(alloc: Global, book: Book) -> Result<String, AllocError> {
    let mut count = Count {
        one: 0,
        two: 0,
        nine: 0,
        other: 0,
    };
    for number in 0..64usize {
        count.add(ended_under(alloc, book, weather_of(number))?);
    }
    format!(in alloc;
        "one act {}, two acts {}, nine records {}, other {}",
        count.one, count.two, count.nine, count.other
    )
}

/// How the runs of a row's playbook ended under each weather.
pub(crate) fn weathers(alloc: Global, row: &Row) -> Result<String, AllocError> {
    match Book::named(row.text(2)) {
        Some(book) => count_text(alloc, book),
        None => no_row(alloc),
    }
}
