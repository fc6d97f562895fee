// What a site in memory can do, and where it fails.
ghost use Rattle.std.specs.Prelude.{◌≡◌, ◌+◌, ◌-◌, ◌*◌, ◌≤◌, ◌<◌, IfOk, length};
ghost use Rattle.std.specs.List.{list_any};
ghost use Rattle.std.specs.Bool.{nat_eq};
ghost use Rattle.cacao_site_memory.specs.Weather.{arrivals, copies, holds, is_mishap, room_of, weather_at};

use std::alloc::AllocError;
use std::marker::Model;

/// Numbers of device calls, counted from 0, in any order.
#[derive(Drop)]
pub struct CallList {
    calls: Vec<u32>,
}

impl Model for CallList {
    ghost use Rattle.std.specs.Prelude.{List, ℕ};

    ghost Value = { List ℕ };

    ghost view = { λ l. l.calls.items };
}

impl CallList {
    pub fn from_vec(calls: Vec<u32>) -> CallList
        ensures { result ≡ calls.items }
    {
        CallList { calls }
    }

    pub fn contains(&self, call: u32) -> bool
        ensures { result ≡ list_any (λ n. nat_eq n call) self.now }
    {
        self.calls.contains(&call)
    }
}

/// What becomes of one parcel put.
#[derive(Clone, Copy, Drop, PartialEq, Eq)]
pub enum Weather {
    /// It is pending at once.
    Deliver,
    /// It is lost.
    Lose,
    /// It is pending twice.
    Twice,
    /// It is pending from the first `reach` that answers at least this moment, in milliseconds.
    Hold { until: u64 },
}

impl Weather {
    /// Whether this is a mishap: all but a delivery is.
    pub fn is_mishap(self) -> bool
        ensures { result ≡ is_mishap self }
    {
        match self {
            Weather::Deliver => false,
            Weather::Lose | Weather::Twice | Weather::Hold { .. } => true,
        }
    }

    /// The room in bytes that a put of so many bytes uses.
    pub fn room(self, size: usize) -> u128
        ensures room { result ≡ room_of self size }
        ensures each { 64 * copies self ≤ result }
        ensures together { arrivals self + holds self ≡ copies self }
    {
        let one = size as u128 + 64;
        match self {
            Weather::Lose => 0,
            Weather::Deliver | Weather::Hold { .. } => one,
            Weather::Twice => 2 * one,
        }
    }
}

/// The weather of each put in order; past the end of the list each is delivered.
#[derive(Drop)]
pub struct WeatherList {
    weather: Vec<Weather>,
}

impl Model for WeatherList {
    ghost use Rattle.std.specs.Prelude.{List};
    ghost use Rattle.cacao_site_memory.specs.declared.plan.Weather.{Weather};

    ghost Value = { List Weather };

    ghost view = { λ l. l.weather.items };
}

impl WeatherList {
    pub fn from_vec(weather: Vec<Weather>) -> WeatherList
        ensures { result ≡ weather.items }
    {
        WeatherList { weather }
    }

    pub fn len(&self) -> usize
        ensures { result ≡ length self.now }
    {
        self.weather.len()
    }

    /// The weather of the put of this number, counted from 0.
    pub fn at(&self, number: usize) -> Weather
        ensures weather { result ≡ weather_at self.now number }
        ensures listed { 1 ≤ copies result + (length self.now - number) }
    {
        match self.weather.get(number) {
            Some(weather) => *weather,
            None => Weather::Deliver,
        }
    }
}

/// The plan of a `MemorySite`.
///
/// Its device calls are the calls of `Disk` and of `say`, numbered together from 0.
pub struct SitePlan {
    /// The bytes that there is room for: of writes, of lines, and of parcels put with 64 more for each copy.
    pub room: u64,
    /// How many device calls can be made. The first one past them fails, and where it is a write, a crash may leave it torn.
    /// Behind it the device is dead: each call fails, and does nothing.
    pub calls: u32,
    /// The moment at which the clock starts, in milliseconds.
    pub start: u64,
    /// The moment past which the clock does not go on by itself, in milliseconds.
    pub stop_clock: u64,
    /// The device calls that fail.
    pub failing: CallList,
    /// What becomes of the parcels put.
    pub weather: WeatherList,
}

// (by hand, and not by derive: so a drop is one call in the proofs of all who own one)
impl Drop for SitePlan {
    fn drop(self) {
        let Self {
            room: _,
            calls: _,
            start: _,
            stop_clock: _,
            failing: _,
            weather: _,
        } = self;
    }
}

impl SitePlan {
    /// How many puts there may be room for.
    pub(crate) fn slots(&self) -> Result<usize, AllocError>
        ensures { IfOk result (λ slots. self.now.room + 64 * length self.now.weather ≤ 64 * slots) }
    {
        let copies = (self.room / 64) as usize + 1;
        match copies.checked_add(self.weather.len()) {
            Some(slots) => Ok(slots),
            None => Err(AllocError),
        }
    }
}
