// The plan of a site, as a row gives it.
ghost use Rattle.std.specs.Prelude.{◌≤◌};

use cacao_site_memory::{CallList, SitePlan, Weather, WeatherList};
use std::alloc::{AllocError, Global};
use test_rows::Row;
use test_site_calls::number;

/// The numbers of a list with a comma between each two.
fn calls(alloc: Global, list: &str) -> Result<CallList, AllocError> {
    let mut calls = Vec::new(alloc);
    for word in list.split(',') {
        if let Ok(call) = word.parse::<u32>() {
            calls.push(call)?;
        }
    }
    Ok(CallList::from_vec(calls))
}

/// What becomes of a parcel: `lose`, `twice`, or the moment up to which it is held back; else it is delivered.
fn weather(word: &str) -> Weather {
    match word {
        "lose" => Weather::Lose,
        "twice" => Weather::Twice,
        _ => match word.parse::<u64>() {
            Ok(until) => Weather::Hold { until },
            Err(_) => Weather::Deliver,
        },
    }
}

/// The weather of a list with a comma between each two.
fn weather_list(alloc: Global, list: &str) -> Result<WeatherList, AllocError> {
    let mut all = Vec::new(alloc);
    for word in list.split(',') {
        all.push(weather(word))?;
    }
    Ok(WeatherList::from_vec(all))
}

/// The plan in the fields of a row from this one on: the room, how many calls can be made, those that fail, the weather, the start of the
/// clock and its stop.
pub(crate) fn plan(alloc: Global, row: &Row, first: usize) -> Result<SitePlan, AllocError>
    requires { first ≤ 2 }
{
    Ok(SitePlan {
        room: number(row, first),
        calls: number(row, first + 1).min(1_000_000) as u32,
        start: number(row, first + 4),
        stop_clock: number(row, first + 5),
        failing: calls(alloc, row.text(first + 2))?,
        weather: weather_list(alloc, row.text(first + 3))?,
    })
}

/// A plan with room for 10,000 bytes and 100 calls, of which these fail.
pub(crate) fn small_plan(alloc: Global, failing: Vec<u32>) -> SitePlan {
    SitePlan {
        room: 10_000,
        calls: 100,
        start: 0,
        stop_clock: 0,
        failing: CallList::from_vec(failing),
        weather: WeatherList::from_vec(Vec::new(alloc)),
    }
}

/// The same, where one call fails.
pub(crate) fn failing_plan(alloc: Global, call: u32) -> Result<SitePlan, AllocError> {
    let mut failing = Vec::new(alloc);
    failing.push(call)?;
    Ok(small_plan(alloc, failing))
}
