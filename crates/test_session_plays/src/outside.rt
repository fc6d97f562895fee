// What is outside the engine and the filters.
use cacao_site_memory::{CallList, SitePlan, Weather, WeatherList};
use std::alloc::{AllocError, Global};

/// A moment that no session of a playbook with few steps comes to, in milliseconds.
pub const LATE: u64 = 1_000_000;

/// How the device, the clock and the link of a site do.
#[derive(Clone, Copy)]
pub struct Outside {
    /// The bytes that there is room for.
    pub room: u64,
    /// How many device calls can be made.
    pub calls: u32,
    /// The number of a device call that fails, from 0.
    pub failing: Option<u32>,
    /// The moment past which the clock does not go on, in milliseconds.
    pub stop_clock: u64,
    /// The weather of the first parcels put; each behind them is delivered.
    pub weather: [Weather; 9],
}

/// Nothing fails, and each parcel is delivered.
pub fn fair() -> Outside {
    Outside {
        room: 100_000,
        calls: 1_000,
        failing: None,
        stop_clock: LATE,
        weather: [Weather::Deliver; 9],
    }
}

/// The device calls that fail.
fn failing(alloc: Global, call: Option<u32>) -> Result<Vec<u32>, AllocError> {
    let mut calls = Vec::new(alloc);
    if let Some(call) = call {
        calls.push(call)?;
    }
    Ok(calls)
}

/// The plan of a site.
pub(crate) fn plan(alloc: Global, outside: Outside) -> Result<SitePlan, AllocError> {
    let failing = failing(alloc, outside.failing)?;
    let weather = Vec::from_array(alloc, outside.weather)?;
    Ok(SitePlan {
        room: outside.room,
        calls: outside.calls,
        start: 0,
        stop_clock: outside.stop_clock,
        failing: CallList::from_vec(failing),
        weather: WeatherList::from_vec(weather),
    })
}
