// What a rack can do for one call, and where it fails.
use crate::draw::Draw;
use cacao_site_memory::{CallList, SitePlan, Weather, WeatherList};
use std::alloc::{AllocError, Global};

/// A moment that no run comes to, in milliseconds.
pub(crate) const LATE: u64 = 1_000_000_000_000;

/// More room in bytes than a fleet uses, and more device calls than it makes.
const ROOM: u64 = 1_000_000;

const CALLS: u32 = 20_000;

/// A rack where nothing fails, and each parcel is delivered.
pub(crate) fn fair_plan(alloc: Global) -> SitePlan {
    SitePlan {
        room: ROOM,
        calls: CALLS,
        start: 0,
        stop_clock: LATE,
        failing: CallList::from_vec(Vec::new(alloc)),
        weather: WeatherList::from_vec(Vec::new(alloc)),
    }
}

/// A moment near those at which something is due.
fn drawn_moment(draw: &mut Draw) -> u64 {
    match draw.below(4) {
        0 => draw.below(10),
        1 => draw.below(20).saturating_add(2_990),
        2 => draw.below(6_000),
        _ => draw.below(60_000),
    }
}

/// What becomes of a parcel: one in so many meets a mishap.
fn drawn_weather(draw: &mut Draw, rare: u64) -> Weather {
    if !draw.is_one_of(rare) {
        return Weather::Deliver;
    }
    match draw.below(4) {
        0 => Weather::Twice,
        1 | 2 => Weather::Hold {
            until: drawn_moment(draw),
        },
        _ => Weather::Lose,
    }
}

/// The weather of the first forty parcels, fair in one of three cases.
fn drawn_weathers(alloc: Global, draw: &mut Draw) -> Result<WeatherList, AllocError> {
    let mut weathers = Vec::new(alloc);
    if !draw.is_one_of(3) {
        let rare = draw.below(6).saturating_add(1);
        for _ in 0..40u32 {
            weathers.push(drawn_weather(draw, rare))?;
        }
    }
    Ok(WeatherList::from_vec(weathers))
}

/// A number of a device call that a fleet comes to.
fn drawn_call(draw: &mut Draw) -> u32 {
    let call = draw.below(400).min(400) as u32;
    call + 40
}

/// Devices of a rack that is drawn by chance.
#[derive(Clone, Copy)]
struct Device {
    /// Two calls that fail.
    failing: Option<[u32; 2]>,
    /// The number from which on all calls fail.
    calls: u32,
    /// The bytes that there is room for.
    room: u64,
}

impl Device {
    /// Devices that fail: two calls, all calls from a number on, and all that bring more bytes than there is room for, each in few cases.
    fn drawn(draw: &mut Draw) -> Device {
        let mut device = Device {
            failing: None,
            calls: CALLS,
            room: ROOM,
        };
        if draw.is_one_of(4) {
            let first = drawn_call(draw);
            device.failing = Some([first, drawn_call(draw)]);
        }
        if draw.is_one_of(3) {
            device.calls = drawn_call(draw);
        }
        if draw.is_one_of(10) {
            device.room = draw.below(30_000);
        }
        device
    }

    /// Whether a call may fail.
    fn may_fail(self) -> bool {
        self.failing.is_some() || self.calls < CALLS || self.room < ROOM
    }
}

/// The calls that fail.
fn failing(alloc: Global, calls: Option<[u32; 2]>) -> Result<CallList, AllocError> {
    match calls {
        Some(calls) => Ok(CallList::from_vec(Vec::from_array(alloc, calls)?)),
        None => Ok(CallList::from_vec(Vec::new(alloc))),
    }
}

/// A rack that is drawn by chance.
#[derive(Drop)]
pub(crate) struct Drawn {
    pub(crate) plan: SitePlan,
    /// Whether a call of the device may fail.
    pub(crate) may_fail: bool,
}

/// A moment that is drawn in one of so many cases; this one in the others.
fn drawn_or(draw: &mut Draw, count: u64, moment: u64) -> u64 {
    if draw.is_one_of(count) {
        return drawn_moment(draw);
    }
    moment
}

/// A rack that is drawn by chance: a device, the weather of its parcels, and a clock.
pub(crate) fn drawn_plan(alloc: Global, draw: &mut Draw) -> Result<Drawn, AllocError> {
    let device = Device::drawn(draw);
    let weather = drawn_weathers(alloc, draw)?;
    let stop_clock = drawn_or(draw, 8, LATE);
    let start = drawn_or(draw, 4, 0);
    let failing = failing(alloc, device.failing)?;
    let plan = SitePlan {
        room: device.room,
        calls: device.calls,
        start,
        stop_clock,
        failing,
        weather,
    };
    Ok(Drawn {
        plan,
        may_fail: device.may_fail(),
    })
}
